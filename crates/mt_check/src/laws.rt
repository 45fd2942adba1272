//! Laws of the answer: each is the contract of a function that does nothing.

ghost use Rattle.mt_check.specs.Laws.{AnswersAreSo, JudgedByAllLists, OneAnswer};

/// The answer depends on the bytes of the two files alone.
pub fn one_answer()
    ensures { OneAnswer }
{}

/// An answer says that a match is stable and its counts agree with it exactly if both are so. Any other answer is the
/// line of the first finding, or one named refusal line.
pub fn answers_are_so()
    ensures { AnswersAreSo }
{}

/// A match that sets no couple aside is judged by all lists of the market.
pub fn judged_by_all_lists()
    ensures { JudgedByAllLists }
{}
