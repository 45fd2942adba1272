ghost use Rattle.std.specs.Prelude.{◌≡◌, ◌≤◌, ◌<◌, ◌+◌, if◌then◌else◌};

use std::io::Read;
use thiserror::Error;

/// A read that failed. What the reader said of it is not kept.
#[derive(Clone, Copy, Debug, PartialEq, Eq, Error)]
#[error("a read failed")]
pub struct SourceFault;

/// A reader, with a count of its reads and a count of those that failed.
#[derive(Drop)]
pub struct Tap<R> {
    reader: R,
    reads: u64,
    failures: u64,
    pub ghost failures_are_reads: { failures ≤ reads },
}

impl<R: Read> Tap<R> {
    ghost use Rattle.std.specs.Io.{ReadsAtMost};
    ghost use Rattle.std.specs.Io.KnownBytes.{ReadConsumes};
    ghost use Rattle.std.specs.Result.{is_err};
    ghost use Rattle.mt_lists.specs.Tap.{bytes_left, failures_of, reader_of, reads_of};

    /// A tap on a reader that it has not read from yet.
    pub fn new(reader: R) -> Self
        ensures reader { reader_of result ≡ reader }
        ensures reads { reads_of result ≡ 0 }
        ensures failures { failures_of result ≡ 0 }
    {
        Tap {
            reader,
            reads: 0,
            failures: 0,
        }
    }

    /// Asks the reader once for the next bytes, at most as many as the buffer holds, and gives how many came. The
    /// error is a read that failed. A read that was interrupted counts as one.
    pub fn read(&mut self, buf: &mut [u8]) -> Result<usize, SourceFault>
        requires { reads_of self.old < u64.MAX }
        ensures reads { reads_of self.new ≡ reads_of self.old + 1 }
        ensures failures { failures_of self.new ≡ failures_of self.old + (if is_err result then 1 else 0) }

        // The answer of the reader itself: these are the clauses of its `read`.
        ensures within { ReadsAtMost result buf.new }
        ensures bytes { ReadConsumes (bytes_left R.remaining self.old)
            (bytes_left R.remaining self.new) result buf.new }
    {
        self.reads += 1;
        match self.reader.read(buf) {
            Ok(count) => Ok(count),
            Err(_) => {
                self.failures += 1;
                Err(SourceFault)
            }
        }
    }

    /// How many reads were made.
    pub fn reads(&self) -> u64
        ensures { result ≡ reads_of self.now }
    {
        self.reads
    }

    /// How many of the reads failed.
    pub fn failures(&self) -> u64
        ensures { result ≡ failures_of self.now }
    {
        self.failures
    }
}
