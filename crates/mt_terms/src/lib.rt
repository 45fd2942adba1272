//! The residency match in the terms of the literature: the numbers of applicants, programs and couples, the limits of
//! an input, and a match. The definitions that every contract cites are in `specs/`.
#![tactic(auto)]

pub mod codes;
mod events;
pub mod examples;
mod limits;
mod matching;
mod numbers;
mod options;
mod refusal;
mod verdict;

pub use events::{Event, Reply};
pub use limits::{LIMITS, LIMITS_2, Limits};
pub use matching::{Match, Places};
pub use numbers::{Agent, AppNo, CoupleNo, ProgNo};
pub use options::Options;
pub use refusal::{IdText, Refusal};
pub use verdict::{Blocker, Verdict};
