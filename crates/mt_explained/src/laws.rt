//! A law of the answer: it is the contract of a function that does nothing.

ghost use Rattle.mt_explained.specs.Laws.{ExplainedByAllLists};

/// A match that sets no couple aside is explained by all lists of the market.
pub fn explained_by_all_lists()
    ensures { ExplainedByAllLists }
{}
