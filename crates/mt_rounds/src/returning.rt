ghost use Rattle.std.specs.Prelude.{◌≡◌, ◌↔◌, ◌⊎◌, IfOk, IsTrue, None, OnOk, Some};
ghost use Rattle.mt_rounds.specs.Running.{work_of};
ghost use Rattle.mt_rounds.specs.Returning.{kept_state, state_in};

use mt_assignment::Assignment;
use mt_stage_tables::WorkList;
use mt_terms::{Agent, ProgNo};
use std::alloc::{AllocError, Global};

/// How many rounds a couple's entry makes before a state is kept. Few entries make as many, so copies take no time that
/// counts. With 45,000 applicants and 1,200 couples, 5 of 988 entries that end make more. Of the first 40 that don't end,
/// 16 come back to a state within 374 to 9,137 rounds, and the others not in 950,000.
const FIRST_KEPT: u32 = 1024;

/// A state between two rounds: the place of each applicant, and the agents that wait.
#[derive(Drop)]
struct Kept {
    places: Vec<Option<ProgNo>>,
    waiting: Vec<Agent>,
}

impl Kept {
    /// A copy of the state. The error is want of memory.
    fn of(
        alloc: Global,
        assignment: &Assignment<'_>,
        waiting: &WorkList,
    ) -> Result<Self, AllocError>
        ensures { IfOk result (λ k. kept_state k ≡ work_of assignment.now waiting.now) }
    {
        let (front, back) = waiting.parts();
        let mut agents = Vec::from_slice(alloc, front)?;
        agents.extend_from_slice(back)?;
        Ok(Kept {
            places: Vec::from_slice(alloc, assignment.places())?,
            waiting: agents,
        })
    }

    /// Whether the state is this one. Work lists differ sooner than matches, so they are compared first.
    fn is(&self, assignment: &Assignment<'_>, waiting: &WorkList) -> bool
        ensures { IsTrue result ↔ (kept_state self.now ≡ work_of assignment.now waiting.now) }
    {
        let (front, back) = waiting.parts();
        match self.waiting.as_slice().strip_prefix(front) {
            Some(rest) => rest == back && self.places.as_slice() == assignment.places(),
            None => false,
        }
    }
}

/// What is kept of the rounds of a couple's entry to see whether a state comes back: one state, with which each later one
/// is compared. It is kept anew whenever the number of rounds has doubled (Brent 1980), so it is one that comes back
/// before long if any does.
#[derive(Drop)]
pub struct Returning {
    kept: Option<Kept>,
    /// How many rounds were made.
    rounds: u32,
    /// After how many rounds a state is kept next.
    next: u32,
}

impl Returning {
    /// No round was made.
    pub fn new() -> Self
        ensures { state_in result ≡ None }
    {
        Returning {
            kept: None,
            rounds: 0,
            next: FIRST_KEPT,
        }
    }

    /// Whether the state after one more round is the one that was kept. If it isn't, it may be kept instead. The error is
    /// want of memory.
    pub fn comes_back(
        &mut self,
        alloc: Global,
        assignment: &Assignment<'_>,
        waiting: &WorkList,
    ) -> Result<bool, AllocError>
        ensures back { IfOk result (λ back. IsTrue back
            ↔ (state_in self.old ≡ Some (work_of assignment.now waiting.now))) }
        ensures keeps { OnOk result ((state_in self.new ≡ state_in self.old)
            ⊎ (state_in self.new ≡ Some (work_of assignment.now waiting.now))) }
    {
        if let Some(kept) = &self.kept
            && kept.is(assignment, waiting)
        {
            return Ok(true);
        }
        self.rounds = self.rounds.saturating_add(1);
        if self.rounds == self.next {
            self.kept = Some(Kept::of(alloc, assignment, waiting)?);
            self.next = self.next.saturating_mul(2);
        }
        Ok(false)
    }
}
