ghost use Rattle.mt_answer_laws.specs.Examples.{AnswersOfCrossed, ChangesOfChain};

/// The answers to three matches of a small file.
pub fn answers_of_crossed()
    ensures { AnswersOfCrossed }
{}

/// The rejection chain as a file, and what is published for it with one record changed.
pub fn changes_of_chain()
    ensures { ChangesOfChain }
{}
