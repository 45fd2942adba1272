//! Laws of the answer: each is the contract of a function that does nothing.

ghost use Rattle.mt_reported.specs.Laws.{AnswersAreSo, OneAnswer};

/// The answer depends on the bytes of the two files alone.
pub fn one_answer()
    ensures { OneAnswer }
{}

/// An answer with code 0 has the numbers of the match, which add up. Any other answer is one named refusal line.
pub fn answers_are_so()
    ensures { AnswersAreSo }
{}
