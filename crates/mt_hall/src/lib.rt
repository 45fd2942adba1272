//! The floor behind locks: each applicant's desk and each program's door has a lock of its own. So any number of
//! threads can make the events of deferred acceptance. The audit says what they made.
#![tactic(auto)]

mod answer;
mod audit;
mod hall;

pub use answer::Answer;
pub use audit::Audit;
pub use hall::Hall;
pub use mt_desks::{Desk, Door, HallName, Pass, Till, step};
