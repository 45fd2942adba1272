ghost use Rattle.mt_floor_laws.specs.Rural.{SinglesFillAlike, FillAlikeWithoutCouples, LegalBest};
ghost use Rattle.mt_floor_laws.specs.Floors.{ChainHasStrictEnd};

/// Any two stable matches of the singles place the same applicants, and equally many at each program. A program with
/// a free post has the same applicants in both (the rural hospitals theorem).
pub fn rural()
    ensures singles { SinglesFillAlike }
    ensures without_couples { FillAlikeWithoutCouples }
{}

/// A legal floor on which no event is due has the best match as its result.
pub fn legal_best()
    ensures law { LegalBest }
    ensures example { ChainHasStrictEnd }
{}
