//! The market as a value: programs, singles and couples with their rank order lists, quotas and ids.
#![tactic(auto)]

mod tables;

pub use mt_flat::{ChunkedLists, FlatLists};
pub use tables::{ByApplicants, ByPrograms, Roster, Tables};
