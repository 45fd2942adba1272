//! From records to a match: where each applicant of a market is placed, by a match's text, whatever program wrote it.
#![tactic(auto)]

mod agents;
mod aside;
pub mod codes;
pub mod examples;
mod fault;
mod fields;
mod ids;
pub mod laws;
mod line;
mod reading;
mod so_far;
mod submitted_match;

pub use agents::{NamedAgents, named_agents};
pub use fault::MatchError;
pub use mt_terms::{IdText, Refusal as MatchFault};
pub use reading::read_match;
pub use submitted_match::{Count, Counted, SubmittedMatch};
