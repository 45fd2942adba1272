//! A finding on a match that was read, and the counts of its places.
#![tactic(auto)]

mod counts;
mod finding;

pub use counts::{Tally, first_differing};
pub use finding::Finding;
