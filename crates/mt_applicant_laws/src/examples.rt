ghost use Rattle.mt_applicant_laws.specs.Examples.{LieThatDoesNotHelp, LieOfAProgram, LieOfTwo, ChangedChain, LongerListOfTheFirst, LieBesideACouple};

/// A lie of one applicant that leaves it unplaced.
pub fn lie_that_does_not_help()
    ensures { LieThatDoesNotHelp }
{}

/// A lie by which a program gains: the law speaks of applicants alone.
pub fn lie_of_a_program()
    ensures { LieOfAProgram }
{}

/// A lie of two applicants by which one of them gains: the law speaks of one applicant.
pub fn lie_of_two()
    ensures { LieOfTwo }
{}

/// The rejection chain with a post more, with an applicant less, and with a list added.
pub fn changed_chain()
    ensures { ChangedChain }
{}

/// A placed applicant's list with a program added.
pub fn longer_list_of_the_first()
    ensures { LongerListOfTheFirst }
{}

/// A lie by which a single gains beside a couple: the law speaks of singles alone.
pub fn lie_beside_a_couple()
    ensures { LieBesideACouple }
{}
