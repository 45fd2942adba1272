//! An index of who may block while couples enter, and for which of them a program has a post.
#![tactic(auto)]

mod posts;
mod watch;

pub use posts::{are_singles_quiet, first_with_post};
pub use watch::Watch;
