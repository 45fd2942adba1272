ghost use Rattle.std.specs.Prelude.{◌≡◌, ◌↔◌, ◌<◌, ◌≤◌, ◌+◌, length, vec_len, IfOk, IfSome, OnOk, IsErrOf};
ghost use Rattle.std.specs.Io.KnownBytes.{IsAtEnd};
ghost use Rattle.mt_lists.specs.Tap.{LosesAtMost, bytes_left, failures_of, reads_of};

use crate::tap::Tap;
use std::alloc::{AllocError, Global};
use std::io::Read;
use thiserror::Error;

/// Why an input was not read whole.
#[derive(Clone, Copy, Debug, PartialEq, Eq, Error)]
pub enum ReadEnd {
    /// More bytes came than the limit allows.
    #[error("the input has more bytes than the limit")]
    TooLarge,
    /// A read failed.
    #[error("a read failed")]
    Fault,
    /// Memory was refused.
    #[error("out of memory")]
    Memory,
}

// How many bytes a read asks for at most.
const PIECE: usize = 1 << 16;

/// Reads to the end of the input, and gives all its bytes. It ends at the first of these: a read failed, more than
/// `limit` bytes came, memory was refused, or the input is at its end. A failed read is not made again. In all it
/// asks for one byte more than `limit`, and after a refusal the reader is where the last read left it.
pub fn read_all<R: Read>(alloc: Global, tap: &mut Tap<R>, limit: usize) -> Result<Vec<u8>, ReadEnd>
    requires { reads_of tap.old + limit < u64.MAX }

    // The bytes are all that were left, and at most `limit`.
    ensures within { IfOk result (λ bytes. length bytes.items ≤ limit) }
    ensures whole { IfOk result (λ bytes. IfSome (bytes_left R.remaining tap.old)
        (λ left. bytes.items ≡ left)) }
    ensures ended { OnOk result (IsAtEnd (bytes_left R.remaining tap.new)) }

    // So `TooLarge` comes exactly if there were more, unless a read failed or memory was refused.
    ensures too_large { IsErrOf result ReadEnd.TooLarge → IfSome (bytes_left R.remaining tap.old)
        (λ left. limit < length left) }
    ensures fault { IsErrOf result ReadEnd.Fault ↔ (failures_of tap.old < failures_of tap.new) }

    // What it takes of the input, and what it counts. Each read but the last one takes a byte.
    ensures taken { LosesAtMost (limit + 1) (bytes_left R.remaining tap.old)
        (bytes_left R.remaining tap.new) }
    ensures reads { (reads_of tap.old ≤ reads_of tap.new)
        × (reads_of tap.new ≤ reads_of tap.old + limit + 1) }
    ensures turns { IfOk result (λ bytes. reads_of tap.new ≤ reads_of tap.old + length bytes.items + 1) }
    ensures failures { (failures_of tap.old ≤ failures_of tap.new)
        × (failures_of tap.new ≤ failures_of tap.old + 1) }
{
    let Ok(mut buffer) = zeroes(alloc, PIECE) else {
        return Err(ReadEnd::Memory);
    };
    let piece = buffer.as_mut_slice();
    let mut bytes = Vec::new(alloc);
    loop {
        let room = limit - bytes.len();
        let asked = room.saturating_add(1).min(PIECE);
        let came = match tap.read(&mut piece[..asked]) {
            Ok(came) => came,
            Err(_) => return Err(ReadEnd::Fault),
        };
        if came == 0 {
            return Ok(bytes);
        }
        if came > room {
            return Err(ReadEnd::TooLarge);
        }
        if bytes.extend_from_slice(&piece[..came]).is_err() {
            return Err(ReadEnd::Memory);
        }
    }
}

// A buffer of `len` zero bytes.
fn zeroes(alloc: Global, len: usize) -> Result<Vec<u8>, AllocError>
    ensures { IfOk result (λ buffer. vec_len buffer ≡ len) }
{
    vec![in alloc; 0; len]
}
