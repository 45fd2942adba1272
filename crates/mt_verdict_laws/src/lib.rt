//! Laws of blocking pairs and of the verdict: each is the contract of a function that does nothing.
#![tactic(auto)]

mod pairs;
mod verdict;

pub use pairs::stability_by_pairs;
pub use verdict::{stable_verdict, verdict_in_words};
