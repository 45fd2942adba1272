//! Numbered ids, and the readers of applicants' and programs' lists by them.
#![tactic(auto)]

mod batch;
mod numbered;
mod pieces;

pub use numbered::{Numbered, begin_list};
pub use pieces::read_id_lists;
