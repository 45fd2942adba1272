//! The plain forms of the public calls, by the words of `docs/FORMAT.md`: on one thread, by whole scans, with no table
//! and no index. They are for these tests alone, and share no code with the calls.

pub(crate) mod market;
pub(crate) mod rounds;
pub(crate) mod tables;
mod taken;
pub(crate) mod text;
pub(crate) mod verdict;
