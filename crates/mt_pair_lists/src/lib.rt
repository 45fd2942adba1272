//! Couples' lists of pairs, read by the numbers of programs.
#![tactic(auto)]

mod duplicates;
mod pairs;

pub use pairs::{FoundPairs, PairReader};
