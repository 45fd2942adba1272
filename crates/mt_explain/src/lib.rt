//! Why each applicant and couple of a residency match has what it has: a line for each place that a better option names,
//! in numbers that are in the lists. Any program may have made the match.
#![tactic(auto)]

pub mod examples;
pub mod laws;
mod line;
mod options;

pub use line::{Line, Why};
pub use options::{OptionLines, option_lines};
