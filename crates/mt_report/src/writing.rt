ghost use Rattle.std.specs.Prelude.{◌≡◌, ◌+◌, ◌<◌, ◌^◌, if◌then◌else◌, IsTrue};
ghost use Rattle.mt_report.specs.Drains.{IsWritten, contents_of, failures_of, is_flushed};

use crate::drain::Drain;
use std::io::Write;

/// How much of a text was written.
#[derive(Clone, Copy, Debug, PartialEq, Eq)]
pub struct Wrote {
    /// How many bytes the writer took, from the first on.
    pub written: u64,
    /// Whether it took all of them, and its flush succeeded.
    pub whole: bool,
}

/// Writes bytes in turns, and stops at the writer's first failure. It flushes once, if all were taken.
pub fn put_all<W: Write>(drain: &mut Drain<W>, bytes: &[u8]) -> Wrote
    requires { failures_of drain.old + 1 < 2 ^ 64 }
    ensures written { IsWritten bytes.now (contents_of W.contents drain.old)
        (contents_of W.contents drain.new)
        result.written result.whole }
    ensures failures { failures_of drain.new
        ≡ failures_of drain.old + (if result.whole then 0 else 1) }
    ensures flushed { IsTrue result.whole → IsTrue (is_flushed drain.new) }
{
    let mut written = 0;
    while written < bytes.len() {
        let taken = drain.offer(&bytes[written..]);
        if taken == 0 {
            return Wrote {
                written: written as u64,
                whole: false,
            };
        }
        written += taken;
    }
    Wrote {
        written: written as u64,
        whole: drain.flush(),
    }
}
