//! Laws of choice, stability and the best match: each is the contract of a function that does nothing.
#![tactic(auto)]

mod singles;
mod taken;

pub use singles::{
    best_is_at_least, best_is_unique, choice_in_words, chosen_for_two_posts, excluded_in_chain,
    exclusion, exclusion_by_quota, growing_choice, none_comes_back, stability_of_singles,
    well_formed_test,
};
pub use taken::{
    half_pair_taken, never_twice_at_one, pair_taken, same_program_taken, single_taken,
    taken_in_examples,
};
