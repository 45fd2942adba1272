//! What the programs share that judge or explain a match: its market, the agents there, and the refusal of a file.
#![tactic(auto)]

mod agents;
mod files;

pub use agents::all_agents;
pub use files::{judged, refuse_file};
