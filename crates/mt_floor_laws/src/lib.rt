//! Laws of floors, of live lists and of all stable matches: each is the contract of a function that does nothing.
#![tactic(auto)]

mod floors;
mod live;
mod rural_law;

pub use floors::{
    best_exists, due_at_most, due_proposals_are_made, event_due, event_keeps_legal,
    event_keeps_recorded, event_keeps_strict, event_not_due, events_keep_legal,
    events_keep_recorded, events_keep_strict, legal_from_passed, made_at_most, opening_is_strict,
    order_free, quiet_counts, quiet_is_reached, result_of_floor, strict_best,
};
pub use live::live_market_agrees;
pub use rural_law::{legal_best, rural};
