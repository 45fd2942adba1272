//! How the numbers of a match add up. Each function does nothing. Its contract is the law.

ghost use Rattle.mt_statistics.specs.Laws.{CouplesAddUp, LaterChoicesAddUp, LaterPairsAddUp, PostsAddUp, ProgramsAddUp, SinglesAddUp};

/// The singles at each choice and the unmatched ones are all singles.
pub fn singles_add_up()
    ensures { SinglesAddUp }
{}

/// The singles with a certain choice or a later one are those of the counts from there on.
pub fn later_choices_add_up()
    ensures { LaterChoicesAddUp }
{}

/// The couples with a certain pair or a later one are those of the counts from there on.
pub fn later_pairs_add_up()
    ensures { LaterPairsAddUp }
{}

/// Couples with both, one and none of their members placed are all couples.
pub fn couples_add_up()
    ensures { CouplesAddUp }
{}

/// Full programs, partly filled ones and empty ones are all programs.
pub fn programs_add_up()
    ensures { ProgramsAddUp }
{}

/// Filled posts and open ones are all posts.
pub fn posts_add_up()
    ensures { PostsAddUp }
{}
