//! Why each agent of a match has what it has: the bytes of a market and of a match in, the lines of the agents out.
#![tactic(auto)]

mod agents;
mod asked;
pub mod codes;
pub mod laws;
mod sending;
mod whole;

pub use asked::Asked;
pub use mt_pages::Outcome;
pub use whole::explain;
