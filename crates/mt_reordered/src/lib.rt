//! A market as a value with its couples in another order, or with some of them set aside.
#![tactic(auto)]

mod copies;
mod couples;
mod markets;

pub use couples::all_couples;
pub use markets::{reordered, set_aside};
