//! The text of a report: a line for each number of a match.
#![tactic(auto)]

mod line;
mod text;

pub use text::report_text;
