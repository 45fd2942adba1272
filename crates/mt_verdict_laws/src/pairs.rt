ghost use Rattle.mt_verdict_laws.specs.Pairs.{StabilityByPairs};

/// A match of the singles is stable exactly if it fits and no applicant and program block it (Gusfield and Irving
/// 1989).
pub fn stability_by_pairs()
    ensures { StabilityByPairs }
{}
