ghost use Rattle.mt_terms.specs.Examples.Rounds.{UnstableRounds, ThreeCouplesRounds, SameProgramRounds, PartnerRounds, OwnSeatRounds, HalfPairRounds, OutsideRounds};

/// No match is stable, and after four rounds all is as before.
pub fn rounds_of_unstable()
    ensures { UnstableRounds }
{}

/// The third couple takes out the first, which opens a pair for the second.
pub fn rounds_of_three_couples()
    ensures { ThreeCouplesRounds }
{}

/// A pair that names one program twice is taken for both members or not at all.
pub fn rounds_of_same_program()
    ensures { SameProgramRounds }
{}

/// A displaced member takes its partner out.
pub fn rounds_of_partner()
    ensures { PartnerRounds }
{}

/// The couple that moved is looked at itself.
pub fn rounds_of_own_seat()
    ensures { OwnSeatRounds }
{}

/// A pair may leave one member unplaced.
pub fn rounds_of_half_pair()
    ensures { HalfPairRounds }
{}

/// A couple that is still outside is not looked at.
pub fn rounds_of_couple_outside()
    ensures { OutsideRounds }
{}
