//! Laws of the couples' rounds: each is the contract of a function that does nothing.
#![tactic(auto)]

mod rounds;

pub use rounds::{
    first_couple_waits, last_list_is_stable, next_couple_waits, round_fits, round_keeps,
    stage_fits, stage_is_stable,
};
