//! Lists read by numbers, in chunks side by side if they are long. What reads a list is a parameter.
#![tactic(auto)]

mod chunks;
mod met;
mod number;
mod parallel;
mod reader;

pub use chunks::read_lists;
pub use met::Met;
pub use number::Number;
pub use reader::ListReader;
