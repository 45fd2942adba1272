//! Records to market: the roster of a residency match.
#![tactic(auto)]

mod fault;
mod reading;

pub use fault::RosterError;
pub use mt_market::Roster;
pub use mt_terms::{IdText, Refusal as RosterFault};
pub use reading::{faultless_roster, roster};
