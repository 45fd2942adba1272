//! The first fault of a file's records, by two passes over them, and a table of pairs of ids.
#![tactic(auto)]

mod fault;
mod first;
mod pair_table;
mod register;
mod repeats;
mod second;
mod unknown;

pub use fault::first_fault;
pub use pair_table::PairTable;
