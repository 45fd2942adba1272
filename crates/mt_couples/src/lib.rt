//! How couples enter the match of the singles, one at a time.
#![tactic(auto)]

mod entering;
mod recheck;
mod rounds;

pub use entering::{RothPeranson, enter_all, enter_from};
pub use mt_entry::{CoupleEnd, Entered, Reached, Spent};
