//! The records of rows without a fault of their own, and the ids that they register. Whether a list stands is not asked
//! here.
#![tactic(auto)]

mod draft;
mod drafts;
mod names;

pub use drafts::{Drafts, drafts_of};
pub use names::NameLists;
