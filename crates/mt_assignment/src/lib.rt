//! A match beside its market, while couples enter: who is placed where, what each agent may take, and what a move of one
//! changes.
#![tactic(auto)]

mod assignment;
mod moves;
mod options;

pub use assignment::{Assignment, no_ranks};
pub use moves::Moved;
