//! The answer to a market: the text of its match, or a refusal.
#![tactic(auto)]

mod answer;
mod in_ways;
pub mod laws;
mod singles;
mod ways;

pub use answer::answer_to_market;
pub use in_ways::answer_in_ways;
pub use ways::{Answer, Entering, Unanswered, Ways};
