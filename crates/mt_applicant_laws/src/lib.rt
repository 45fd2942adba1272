//! Laws of what a change of one list, or of one quota, does to the applicants: each is the contract of a function
//! that does nothing.
#![tactic(auto)]

mod examples;
mod laws;

pub use examples::{
    changed_chain, lie_beside_a_couple, lie_of_a_program, lie_of_two, lie_that_does_not_help,
    longer_list_of_the_first,
};
pub use laws::{
    longer_list_keeps_best, more_posts_hurt_none, none_gains_by_another_list,
    shorter_list_hurts_no_other,
};
