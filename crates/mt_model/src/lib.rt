//! The residency match as a theory: the terms of `mt_terms`, and their laws.
#![tactic(auto)]

pub use mt_terms::{
    Agent, AppNo, Blocker, CoupleNo, Event, IdText, LIMITS, LIMITS_2, Limits, Match, Options,
    Places, ProgNo, Refusal, Reply, Verdict, codes, examples,
};

/// The laws of the terms: each is the contract of a function that does nothing.
pub mod laws;
