ghost use Rattle.std.specs.Prelude.{◌≡◌, ◌+◌, ◌<◌, ◌^◌, if◌then◌else◌, IsTrue};
ghost use Rattle.mt_report.specs.Drains.{IsWritten, contents_of, failures_of, is_flushed};
ghost use Rattle.mt_report.specs.Status.{status_of};

use crate::drain::Drain;
use crate::writing::put_all;
use std::io::Write;

/// The code of a run that published a match in which some couples are set aside.
pub const SET_ASIDE: u16 = 6;

/// How a run or a check ended.
#[derive(Clone, Copy, Debug, PartialEq, Eq)]
pub struct Ended {
    /// 0 for a published match or a stable one, and 1 for a finding. [`SET_ASIDE`] is a match with couples set aside. Any
    /// other code is that of the refusal line.
    pub code: u16,
    /// How many bytes of the text were written.
    pub written: u64,
    /// Whether the whole text was written. If it wasn't, the writer failed.
    pub whole: bool,
}

impl Ended {
    /// The exit status of the program. Status 0 is a match that was published, or one that is stable, and 1 a finding
    /// against one. Status 2 is a file that was refused, and 3 a run whose budget was spent. Status 4 is want of memory,
    /// and 5 a read or a write that failed. Status 6 is a match that was published with couples set aside. If the writer
    /// failed, the status is 5 whatever the code.
    pub fn status(&self) -> u8
        ensures { result ≡ status_of self.now.code self.now.whole }
    {
        if !self.whole {
            return 5;
        }
        match self.code {
            0 => 0,
            1 => 1,
            6 => 6,
            30 => 4,
            31 => 5,
            41 => 3,
            _ => 2,
        }
    }
}

/// Writes the text with which a run or a check ends, and says how it ended.
pub fn end<W: Write>(drain: &mut Drain<W>, code: u16, text: &[u8]) -> Ended
    requires { failures_of drain.old + 1 < 2 ^ 64 }
    ensures code { result.code ≡ code }
    ensures written { IsWritten text.now (contents_of W.contents drain.old)
        (contents_of W.contents drain.new)
        result.written result.whole }
    ensures failures { failures_of drain.new
        ≡ failures_of drain.old + (if result.whole then 0 else 1) }
    ensures flushed { IsTrue result.whole → IsTrue (is_flushed drain.new) }
{
    let wrote = put_all(drain, text);
    Ended {
        code,
        written: wrote.written,
        whole: wrote.whole,
    }
}
