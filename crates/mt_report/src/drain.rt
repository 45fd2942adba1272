ghost use Rattle.std.specs.Prelude.{◌≡◌, ◌==◌, ◌+◌, ◌<◌, ◌≤◌, ◌^◌, ◌&&◌, ◌||◌, [], true, length, take, if◌then◌else◌};
ghost use Rattle.std.specs.Io.KnownBytes.{Appends};
ghost use Rattle.mt_report.specs.Drains.{contents_of, failures_of, is_flushed};

use std::io::Write;

/// A writer, how often it failed, and whether it was flushed since it last took a byte. A write that takes no
/// byte of a piece that isn't empty is a failure, as is a flush that fails.
#[derive(Drop)]
pub struct Drain<W: Write> {
    writer: W,
    failures: u64,
    flushed: bool,
}

impl<W: Write> Drain<W> {
    /// A drain whose writer hasn't failed yet.
    pub fn new(writer: W) -> Self
        ensures failures { failures_of result ≡ 0 }
        ensures flushed { is_flushed result ≡ true }
        ensures contents { contents_of W.contents result ≡ W.contents writer }
    {
        Drain {
            writer,
            failures: 0,
            flushed: true,
        }
    }

    /// How often the writer failed.
    pub fn failures(&self) -> u64
        ensures { result ≡ failures_of self.now }
    {
        self.failures
    }

    /// Offers a piece to the writer once. At 0 the writer failed.
    pub(crate) fn offer(&mut self, piece: &[u8]) -> usize
        requires room { failures_of self.old + 1 < 2 ^ 64 }
        requires some { 0 < length piece.now }
        ensures bound { result ≤ length piece.now }
        ensures appended { Appends (contents_of W.contents self.old)
            (contents_of W.contents self.new) (take result piece.now) }
        ensures failures { failures_of self.new
            ≡ failures_of self.old + (if result == 0 then 1 else 0) }
        ensures flushed { is_flushed self.new ≡ ((result == 0) && is_flushed self.old) }
    {
        match self.writer.write(piece) {
            Ok(taken) if taken > 0 => {
                self.flushed = false;
                taken
            }
            _ => {
                self.failures += 1;
                0
            }
        }
    }

    /// Flushes the writer, and says whether that succeeded.
    pub(crate) fn flush(&mut self) -> bool
        requires { failures_of self.old + 1 < 2 ^ 64 }
        ensures appended { Appends (contents_of W.contents self.old)
            (contents_of W.contents self.new) (take 0 []) }
        ensures failures { failures_of self.new ≡ failures_of self.old + (if result then 0 else 1) }
        ensures flushed { is_flushed self.new ≡ (result || is_flushed self.old) }
    {
        let succeeded = self.writer.flush().is_ok();
        if succeeded {
            self.flushed = true;
        } else {
            self.failures += 1;
        }
        succeeded
    }
}
