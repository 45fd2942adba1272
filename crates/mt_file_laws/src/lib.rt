//! Laws of the file, of its faults and of refusal lines: each is the contract of a function that does nothing.
#![tactic(auto)]

mod faults;
mod registration;
mod text;

pub use faults::{fault_codes, fault_ids};
pub use registration::{accepted_is_registration, versions_agree};
pub use text::refusal_is_one_record;
