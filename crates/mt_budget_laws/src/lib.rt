//! Laws of the budget of rounds: each is the contract of a function that does nothing.
#![tactic(auto)]

mod returning;
mod rounds;

pub use returning::{returning_in_examples, returning_never_ends, returning_stage_never_ends};
pub use rounds::{premises_of_rounds, stage_rounds};
