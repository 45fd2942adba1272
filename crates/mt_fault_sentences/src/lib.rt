//! The sentences for the faults of a file. Each has the file's name and the place, and says what to do.
#![tactic(auto)]

mod bad_id;
mod cursor;
mod field;
mod lines;
mod sentence;
mod shape;
mod teller;
mod version;

pub use cursor::Cursor;
pub use sentence::{tell_alone, tell_fault, warn_of_none};
pub use teller::Teller;
