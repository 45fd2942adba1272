//! The parts of a floor behind locks: the desk of an applicant, the door of a program, the pass of a worker, and the till
//! of all credits. A step makes one event of deferred acceptance on parts that were lent to it.
#![tactic(auto)]

mod desk;
mod door;
mod entries;
mod name;
mod opening;
mod pass;
mod steps;
mod till;

pub use desk::Desk;
pub use door::Door;
pub use entries::{entry_at, is_single, live_len};
pub use name::HallName;
pub use opening::{deal_out, open_doors};
pub use pass::Pass;
pub use steps::step;
pub use till::Till;
