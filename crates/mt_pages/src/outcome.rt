ghost use Rattle.std.specs.Prelude.{◌≡◌};
ghost use Rattle.mt_report.specs.Status.{status_of};

use mt_report::Ended;

/// How the answer of a program ended.
#[derive(Clone, Copy, Debug, PartialEq, Eq)]
pub struct Outcome {
    /// The code of the answer.
    pub code: u16,
    /// Whether the whole text was written. If it wasn't, the writer failed.
    pub whole: bool,
}

impl Outcome {
    /// The exit status of the program: that of a check that ended so.
    pub fn status(&self) -> u8
        ensures { result ≡ status_of self.now.code self.now.whole }
    {
        let ended = Ended {
            code: self.code,
            written: 0,
            whole: self.whole,
        };
        ended.status()
    }
}
