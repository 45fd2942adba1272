//! A law of published texts: a text is read back as the match that it publishes.
#![tactic(auto)]

mod laws;

pub use laws::{published_aside_is_read, published_is_read};
