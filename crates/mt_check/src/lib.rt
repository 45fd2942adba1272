//! Whether a match is stable, whatever program made it: the bytes of a market and of a match in, one line out.
#![tactic(auto)]

mod found;
mod judging;
pub mod laws;
mod text;
mod whole;

pub use mt_files::{Source, refused};
pub use mt_report::Ended;
pub use whole::check;
