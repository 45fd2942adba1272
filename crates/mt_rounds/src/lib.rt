//! What holds between two rounds, what a round keeps, and how a state is seen that comes back.
#![tactic(auto)]

mod returning;

pub use returning::Returning;
