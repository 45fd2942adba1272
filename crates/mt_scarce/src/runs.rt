//! Whole runs.
ghost use Rattle.std.specs.Prelude.{◌≤◌};

use mt_lists::Tap;
use mt_report::Drain;
use mt_run::{Options, run};
use mt_samples::markets::SampleError;
use mt_terms::codes::OUT_OF_MEMORY;
use std::alloc::Global;
use std::io::{self, Write};
use std::sync::Wait;
use std::thread::Threads;

/// What a run writes when memory is refused.
const OUT_OF_MEMORY_LINE: &[u8] = b"match,1,refused,30,OutOfMemory,0,-\n";

/// A writer with room for a small text.
#[derive(Drop)]
struct Page {
    bytes: [u8; 256],
    len: usize,
    ghost within: { len ≤ 256 },
}

impl Write for Page {
    fn write(&mut self, buf: &[u8]) -> io::Result<usize> {
        let count = buf.len().min(256 - self.len);
        let end = self.len + count;
        self.bytes[self.len..end].copy_from_slice(&buf[..count]);
        self.len = end;
        Ok(count)
    }

    fn flush(&mut self) -> io::Result<()> {
        Ok(())
    }
}

/// Whether a run by this number of workers writes this text. If memory is refused it has to write the line of that
/// refusal.
pub(crate) fn runs<T: Threads + Wait + Sync>(
    rt: &T,
    alloc: Global,
    input: &[u8],
    text: &[u8],
    workers: u32,
) -> Result<bool, SampleError>
    requires { (1 ≤ workers) × (workers ≤ 64) }
{
    let mut page = Page {
        bytes: [0; 256],
        len: 0,
    };
    let mut drain = Drain::new(&mut page);
    let options = Options { workers, budget: 5 };
    let ended = run(rt, alloc, &mut Tap::new(input), &mut drain, options);
    let written = &page.bytes[..page.len];
    if ended.code == OUT_OF_MEMORY && ended.whole && written == OUT_OF_MEMORY_LINE {
        return Err(SampleError::Memory);
    }
    Ok(ended.code == 0 && ended.whole && written == text)
}
