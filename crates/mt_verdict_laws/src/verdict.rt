ghost use Rattle.mt_verdict_laws.specs.Verdict.{VerdictInWords, StableVerdict, ChainIsBlocked};

/// The verdict of a match is that it is stable, or else the first finding against it. A finding is a place that isn't
/// allowed, a program over its quota, or an agent that blocks, with its first option.
pub fn verdict_in_words()
    ensures law { VerdictInWords }
    ensures example { ChainIsBlocked }
{}

/// The verdict is that a match is stable exactly if it is.
pub fn stable_verdict()
    ensures { StableVerdict }
{}
