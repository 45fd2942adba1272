//! Laws of the order in which couples enter, and of couples that are set aside: each is the contract of a function that
//! does nothing.
#![tactic(auto)]

mod aside;
mod examples;
mod order;

pub use aside::{
    anew_is_going_on, entering_in_words, entries_before_alike, none_aside, others_are_order,
    others_end, registration_aside, well_formed_aside,
};
pub use examples::{aside_in_examples, orders_in_examples};
pub use order::{
    best_in_any_order, couple_blocks_in_any_order, fits_in_any_order, orders_are_orders,
    registration_in_any_order, single_blocks_in_any_order, stable_in_any_order,
    well_formed_in_any_order,
};
