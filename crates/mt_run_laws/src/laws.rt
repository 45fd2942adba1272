//! Laws of the answer: each is the contract of a function that does nothing.

ghost use Rattle.mt_run_laws.specs.Examples.{ProgramOptimalIsNoAnswer};
ghost use Rattle.mt_run_laws.specs.Laws.{OneAnswer, PublishedIsNoRefusal, PublishedIsStable, RefusalIsOneRecord};
ghost use Rattle.mt_run_laws.specs.WayLaws.{OneAnswerIn, OneWayIsAnswer, PublishedInIsStable};

/// The answer depends on the bytes and the budget alone.
pub fn one_answer()
    ensures { OneAnswer }
{}

/// A published text is that of a match stable by the lists in the bytes. If no couple is entered, the match gives
/// each applicant at least what every stable match gives it.
pub fn published_is_stable()
    ensures { PublishedIsStable }
{}

/// No published text is a refusal line.
pub fn published_is_no_refusal()
    ensures { PublishedIsNoRefusal }
{}

/// A refusal line is one record of seven fields and no line of an applicant.
pub fn refusal_is_one_record()
    ensures { RefusalIsOneRecord }
{}

/// If wishes cross, the match that is best for the programs is stable, and still no answer.
pub fn program_optimal_is_no_answer()
    ensures { ProgramOptimalIsNoAnswer }
{}

/// The answer depends on the bytes, the budget and the ways in which couples may enter alone.
pub fn one_answer_in()
    ensures { OneAnswerIn }
{}

/// With one order, and no couple set aside, the answer is the usual one.
pub fn one_way_is_answer()
    ensures { OneWayIsAnswer }
{}

/// A published text is that of a match stable by the lists in the bytes. If couples are set aside, they want nothing
/// in it.
pub fn published_in_is_stable()
    ensures { PublishedInIsStable }
{}
