//! A fault of a file's record, and the sink that takes such faults one after another.
#![tactic(auto)]

mod fault;
mod sink;

pub use fault::{Fault, FaultEnd};
pub use sink::{FaultSink, Stop};
