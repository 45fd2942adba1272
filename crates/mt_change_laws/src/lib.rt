//! Laws of files that differ in one record: what the change does to the market.
#![tactic(auto)]

mod laws;

pub use laws::{one_list_changes, one_quota_changes};
