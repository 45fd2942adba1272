ghost use Rattle.std.specs.Prelude.{◌≡◌, ◌+◌, ◌<◌, ◌↔◌, IfErr, IfOk};
ghost use Rattle.mt_lists.specs.Tap.{bytes_left, failures_of, reads_of};
ghost use Rattle.mt_terms.specs.declared.codes.TheConstants.{READ_FAULT};
ghost use Rattle.mt_input.specs.Files.{most_bytes};
ghost use Rattle.mt_input.specs.Left.{AreRead, TakesFile};
ghost use Rattle.mt_input.specs.Refusals.{CannotRead, code_of};

use mt_lists::{ReadEnd, Tap, read_all};
use mt_terms::codes::{OUT_OF_MEMORY, READ_FAULT, TOO_LARGE};
use mt_terms::{LIMITS, Refusal};
use std::alloc::Global;
use std::io::Read;

/// All bytes that a reader gives, which are no more than a file may have. The error is a refusal that names no record:
/// there are too many, a read failed, or memory was refused.
pub fn bytes_of<R: Read>(alloc: Global, tap: &mut Tap<R>) -> Result<Vec<u8>, Refusal>
    requires { reads_of tap.old + most_bytes < u64.MAX }
    ensures bytes { IfOk result (λ bytes. AreRead (bytes_left R.remaining tap.old) bytes.items) }
    ensures refused { IfErr result (CannotRead (bytes_left R.remaining tap.old)) }
    ensures fault { (code_of result ≡ READ_FAULT) ↔ (failures_of tap.old < failures_of tap.new) }
    ensures tap { TakesFile R.remaining tap.old tap.new }
{
    match read_all(alloc, tap, LIMITS.bytes) {
        Ok(bytes) => Ok(bytes),
        Err(ReadEnd::TooLarge) => Err(Refusal::alone(TOO_LARGE)),
        Err(ReadEnd::Fault) => Err(Refusal::alone(READ_FAULT)),
        Err(ReadEnd::Memory) => Err(Refusal::alone(OUT_OF_MEMORY)),
    }
}
