//! The command line of `nrmatch`: from the words after the program's name to what is asked for.
#![tactic(auto)]

mod answer;
mod command;
pub mod examples;
pub mod laws;
mod parsing;

pub use answer::{AskEnd, Asked};
pub use parsing::asked;
