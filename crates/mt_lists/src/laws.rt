//! What the definition of an input's rows gives on worked inputs.

ghost use Rattle.mt_lists.specs.Examples.{DoubledQuoteIsOne, SecondMarkIsRefused, SpreadsheetIsRead};

/// The rows of an export of a spreadsheet, of an input with two marks, and of one with a quote inside a field.
pub fn worked_inputs()
    ensures spreadsheet { SpreadsheetIsRead }
    ensures second_mark { SecondMarkIsRefused }
    ensures doubled_quote { DoubledQuoteIsOne }
{}
