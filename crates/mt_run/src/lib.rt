//! The whole run: bytes in, the text of a match or one refusal line out.
#![tactic(auto)]

mod in_ways;
mod whole;

pub use in_ways::{EndedInWays, run_in_ways};
pub use mt_answer::{Entering, Ways};
pub use mt_report::Ended;
pub use mt_terms::Options;
pub use whole::run;
