//! Deferred acceptance for all singles, one event at a time and in any order: how far each applicant is on
//! its live list, and whom each program holds.
#![tactic(auto)]

mod end;
mod floor;
pub mod laws;
mod settle;
mod step;

pub use end::{quiet, result};
pub use floor::{Floor, made, received};
pub use mt_terms::{Event, Reply};
pub use settle::{finish, run};
pub use step::apply;
