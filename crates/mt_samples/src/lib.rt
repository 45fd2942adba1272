//! What the tests of several crates are made on: markets with the text that is published for each, and devices that give
//! or take little. Each small market is also a case in `tests/cases`.
#![tactic(auto)]

pub mod couples;
pub mod devices;
pub mod large;
pub mod markets;
pub mod places;
pub mod singles;
pub mod tables;
pub mod withdrawn;
pub mod without_couples;
pub mod work_list;
