//! What the lines of explanations say. Each function does nothing. Its contract is the law.

ghost use Rattle.mt_explain.specs.Laws.{EachBetterOptionOnce, OpenIfBlocks, OpenIfTaken, StableIfNoneOpen};

/// An explanation has each better option once, and nothing else.
pub fn each_better_option_once()
    ensures { EachBetterOptionOnce }
{}

/// The lines of an option are all open exactly if the option would be taken.
pub fn open_if_taken()
    ensures { OpenIfTaken }
{}

/// An explanation has an option with open lines alone exactly if its agent blocks.
pub fn open_if_blocks()
    ensures { OpenIfBlocks }
{}

/// A match that fits is stable exactly if no explanation has an option with open lines alone.
pub fn stable_if_none_open()
    ensures { StableIfNoneOpen }
{}
