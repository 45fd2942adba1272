//! Every finding against a match, whatever program made it: the bytes of a market and of a match in, a line for each
//! finding out.
#![tactic(auto)]

mod allowed;
pub mod laws;
mod lines;
mod pushing;
mod taken;
mod whole;
mod writing;

pub use whole::check_all;
