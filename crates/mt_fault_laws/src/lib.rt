//! Laws of all faults of a file: each is the contract of a function that does nothing.
#![tactic(auto)]

mod accepted;
mod complete;
mod reasons;

pub use accepted::{named_fault_is_among, no_fault_means_accepted};
pub use complete::{
    repeated_entries_have_faults, unknown_entries_have_faults, unread_records_have_faults,
};
pub use reasons::faults_are_so;
