//! What `nrcheck` writes of one file: the bytes of a market in, a line for each of its faults out.
#![tactic(auto)]

mod accepted;
mod front;
mod lines;
mod mutual;
mod named;
mod seed;
mod sending;
mod sink;
mod whole;

pub use whole::check_market;
