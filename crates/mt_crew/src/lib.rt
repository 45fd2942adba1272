//! Workers that match the singles. Each takes tickets from its own deque or steals them, and acts on the floor behind
//! locks. Which worker acts on whom, and when, changes nothing: the match is the best one.
#![tactic(auto)]

mod crew;
mod gate;
mod seats;
mod singles;

pub use crew::work;
pub use gate::{Closing, Gate, Open};
pub use singles::{Singles, work_alone};
