//! All faults of a file of records: their definitions are in `specs/`, and their examples are contracts.
#![tactic(auto)]

mod examples;
