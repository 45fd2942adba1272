//! The page of a report: the numbers of a match as one page of HTML, with a bar beside each count.
#![tactic(auto)]

mod charts;
pub mod laws;
mod markup;
mod page;
mod pieces;

pub use page::report_page;
