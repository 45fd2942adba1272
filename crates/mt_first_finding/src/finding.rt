ghost use Rattle.std.specs.Prelude.{◌≡◌};
ghost use Rattle.mt_first_finding.specs.Findings.{finding_code};

use mt_terms::Verdict;

/// What a check finds: the match is stable and its counts agree with it, or the first finding against it.
#[derive(Clone, Copy)]
pub enum Finding {
    /// What the verifier says of the places. If it says that they are stable, the counts agree with them too.
    Of(Verdict),
    /// The record with this number is the first that says another count. `check` looks for it only if the places are
    /// stable.
    Differs(u64),
}

impl Finding {
    /// The code of a check that ends with it: 0 for a stable match, else 1.
    pub fn code(&self) -> u16
        ensures { result ≡ finding_code self.now }
    {
        match self {
            Finding::Of(Verdict::Stable) => 0,
            _ => 1,
        }
    }
}
