ghost use Rattle.mt_terms.specs.Examples.Stability.{CrossedWishes, RejectionChain, ClosedProgram, OneSided, TwoPosts, SingleBetween, CoupleShutOut, NoneStable, OwnSeat, AllWellFormed, IllFormed};

/// Of two stable matches one is best.
pub fn crossed_wishes()
    ensures { CrossedWishes }
{}

/// A third applicant changes the places of two others, and gets none.
pub fn rejection_chain()
    ensures { RejectionChain }
{}

/// A program without posts.
pub fn closed_program()
    ensures { ClosedProgram }
{}

/// Entries that are not mutual.
pub fn one_sided()
    ensures { OneSided }
{}

/// Two posts for three applicants.
pub fn two_posts()
    ensures { TwoPosts }
{}

/// A single between the members of a couple.
pub fn single_between()
    ensures { SingleBetween }
{}

/// A couple is never placed by half of a pair.
pub fn couple_shut_out()
    ensures { CoupleShutOut }
{}

/// A market with no stable match.
pub fn none_stable()
    ensures { NoneStable }
{}

/// A couple is judged with its members taken out.
pub fn own_seat()
    ensures { OwnSeat }
{}

/// The markets of the examples are well formed.
pub fn all_well_formed()
    ensures { AllWellFormed }
{}

/// Two markets that aren't.
pub fn ill_formed()
    ensures { IllFormed }
{}
