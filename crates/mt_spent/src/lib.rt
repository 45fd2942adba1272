//! What `nrmatch` says of a spent budget on standard error.
#![tactic(auto)]

mod spent;

pub use spent::say_spent;
