//! Laws of what the two programs write: each is the contract of a function that does nothing.
#![tactic(auto)]

mod examples;
mod laws;

pub use examples::{answers_of_crossed, changes_of_chain};
pub use laws::{
    higher_quota_in_file_hurts_none, none_gains_by_another_record, one_less_in_file_hurts_no_other,
    published_aside_is_judged, published_is_called_stable,
};
