//! The numbers of a match that services publish.
#![tactic(auto)]

mod counts;
mod held;
pub mod laws;
mod statistics;

pub use counts::{ProgramCounts, Standing};
pub use statistics::Statistics;
