//! One program's holding: the ranks of its list from which it has received a proposal. It holds its choice from all
//! that it received.
#![tactic(auto)]

mod holding;
pub mod laws;

pub use holding::{Hold, Taken};
