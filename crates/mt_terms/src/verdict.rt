use crate::numbers::{Agent, AppNo, ProgNo};

/// An agent that blocks a match, and the option with which it does.
#[derive(Clone, Copy, Debug, PartialEq, Eq)]
pub struct Blocker {
    /// The agent.
    pub agent: Agent,
    /// The place from 0 on its list of its first better option that would be taken.
    pub option: u32,
}

/// The verdict on a match: that it is stable, or the first finding against it.
#[derive(Clone, Copy, Debug, PartialEq, Eq)]
pub enum Verdict {
    /// The match is stable.
    Stable,
    /// The applicant's place is not on its agent's list, or its program doesn't list it.
    Unlisted(AppNo),
    /// More applicants are placed at the program than its quota.
    Over(ProgNo),
    /// The agent has a better option that would be taken.
    Blocks(Blocker),
}
