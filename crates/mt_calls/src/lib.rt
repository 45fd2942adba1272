//! Calls that may want memory, for tests: each says whether it answered what it should. The error of each is that
//! memory was refused, or that its file has a fault.
#![tactic(auto)]

mod floors;
mod lists;
mod stages;

pub use floors::{closes, deals, finishes, works, works_alone};
pub use lists::{asks, holds, ranks, reads, registers, splits};
pub use stages::{answers, enters, explains, judges, publishes, publishes_aside};
