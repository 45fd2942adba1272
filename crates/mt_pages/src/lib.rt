//! Lines that wait on a page of fixed size, and how they go to a writer.
#![tactic(auto)]

mod outcome;
mod page;
mod sending;

pub use outcome::Outcome;
pub use page::{LINE_LEN, PAGE_LEN, Page};
pub use sending::{Unwritten, make_room, send};
