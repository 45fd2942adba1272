//! The numbers of a match, whatever program made it: the bytes of a market and of a match in, a text out.
#![tactic(auto)]

mod form;
pub mod laws;
mod whole;

pub use form::Form;
pub use mt_files::{Source, refused};
pub use mt_report::Ended;
pub use whole::report;
