//! Laws of the lines on which records begin: what the functions here promise holds of every text.
ghost use Rattle.mt_line_numbers.specs.Examples.{WorkedLines};
ghost use Rattle.mt_line_numbers.specs.Laws.{EachTextSplits};

/// The lines of a worked text.
pub fn worked_lines()
    ensures { WorkedLines }
{}

/// Each text splits where a record begins.
pub fn splits()
    ensures { EachTextSplits }
{}
