//! The lines that explain a match, agent by agent, on a page of fixed size.
#![tactic(auto)]

mod fields;
mod lines;

pub use lines::AgentLines;
