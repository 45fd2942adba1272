ghost use Rattle.std.specs.Prelude.{◌≡◌, ◌<◌, length, IsTrue, is_some, position};
ghost use Rattle.mt_terms.specs.Registration.Accepted.{IsRegistration};
ghost use Rattle.mt_terms.specs.Market.{applicants};
ghost use Rattle.mt_terms.specs.Matching.{placed_ranks};
ghost use Rattle.mt_terms.specs.Places.{ArePlaces};
ghost use Rattle.mt_terms.specs.Verdict.{is_over, is_unlisted, verdict_of};
ghost use Rattle.mt_ranks.specs.Ranked.{rank_of, ranked_of};
ghost use Rattle.mt_verify.specs.Judged.{AreAllowed, first_found, first_over, first_unlisted, is_found, is_listed_at, is_place_listed};
ghost use Rattle.mt_verify.specs.Listed.{HoldRanks, is_off_own_list};

mod blocking;
mod options;
mod prospects;
mod taken;

use crate::listed::{is_own_pair, is_own_place};
use mt_market::Roster;
use mt_ranks::Ranks;
use mt_terms::{Agent, AppNo, Match, ProgNo, Verdict};
use rayon::prelude::*;
use std::thread::Threads;

/// From twice as many applicants on, threads judge the market's applicants side by side. That a thread pays for
/// itself with this number is an estimate.
pub(crate) const LEAST_APPLICANTS: usize = 1024;

/// A match beside the market that it is judged by, with the ranks of those placed at each program.
#[derive(Drop)]
pub(crate) struct Verifier<'a> {
    pub(crate) roster: &'a Roster,
    pub(crate) ranks: &'a Ranks<'a>,
    pub(crate) matched: &'a Match,
    pub(crate) placed: Vec<Vec<u32>>,
    ghost is_registration: { IsRegistration roster.now },
    ghost one_market: { ranks.now ≡ ranked_of roster.now.market },
    ghost are_places: { ArePlaces roster.now.market matched.now.places },
    ghost placed_there: { HoldRanks roster.now.market matched.now.places placed.items },
}

impl<'a> Verifier<'a> {
    ghost use Rattle.mt_verify.specs.View.{judged};

    /// The applicant's rank on the program's list, its position from 0, if the list has it.
    fn rank(&self, program: ProgNo, applicant: AppNo) -> Option<u32>
        requires program { program < length (judged self.now).registered.market.programs }
        requires applicant { applicant < applicants (judged self.now).registered.market }
        ensures position { result ≡ rank_of (judged self.now).registered.market program applicant }
        ensures listed { is_some result ≡ is_listed_at (judged self.now) program applicant }
    {
        self.ranks.rank(program, applicant)
    }

    /// Whether the program is on the applicant's live list, so it lists the applicant. It needn't be there, as couples'
    /// members have none.
    fn is_live(&self, program: ProgNo, applicant: AppNo) -> bool
        requires { applicant < applicants (judged self.now).registered.market }
        ensures { IsTrue result → IsTrue (is_listed_at (judged self.now) program applicant) }
    {
        for entry in self.ranks.live(applicant) {
            if entry.unpacked().program == program {
                return true;
            }
        }
        false
    }

    /// Whether the applicant is unplaced, or its program lists it.
    fn is_listed(&self, applicant: AppNo) -> bool
        requires { applicant < applicants (judged self.now).registered.market }
        ensures { result ≡ is_place_listed (judged self.now) applicant }
    {
        match self.matched.place(applicant) {
            None => true,
            // A single's live list is read by the next check anyway, and is shorter than what `rank` searches.
            Some(program) => {
                self.is_live(program, applicant) || self.rank(program, applicant).is_some()
            }
        }
    }

    /// Whether the applicant has the lowest number of its agent, and the agent neither has an option of its
    /// list nor is unplaced.
    fn is_off_own_list(&self, applicant: AppNo) -> bool
        requires { applicant < applicants (judged self.now).registered.market }
        ensures { let j = judged self.now in
            result ≡ is_off_own_list j.registered.market j.places applicant }
    {
        match self.roster.agent_of(applicant) {
            Agent::Single(_) => {
                !is_own_place(
                    self.roster.single_list(applicant),
                    self.matched.place(applicant),
                )
            }
            Agent::Couple(couple) => {
                let (first, second) = self.roster.members(couple);
                applicant.0 == first.0.min(second.0)
                    && !is_own_pair(
                        self.roster.couple_list(couple),
                        self.matched.place(first),
                        self.matched.place(second),
                    )
            }
        }
    }

    /// Whether the applicant's place isn't allowed, by its agent's list, which is reported at the agent's
    /// lowest number, or by its program's list.
    fn is_unlisted(&self, applicant: AppNo) -> bool
        requires { applicant < applicants (judged self.now).registered.market }
        ensures { let j = judged self.now in
            result ≡ is_unlisted j.registered.market j.places applicant }
    {
        self.is_off_own_list(applicant) || !self.is_listed(applicant)
    }

    /// Whether the applicant's place isn't allowed or, if blocking counts too, it leads an agent that blocks.
    fn is_found(&self, applicant: AppNo, with_blocking: bool) -> bool
        requires { applicant < applicants (judged self.now).registered.market }
        ensures { result ≡ is_found (judged self.now) with_blocking applicant }
    {
        if with_blocking {
            self.has_finding(applicant)
        } else {
            self.is_unlisted(applicant)
        }
    }

    /// The first such applicant. Threads ask at each one, and are started once for both questions.
    fn first_found<R: Threads + Sync>(&self, rt: &R, with_blocking: bool) -> Option<AppNo>
        ensures { result ≡ first_found (judged self.now) with_blocking }
    {
        let found = (0..self.roster.applicants())
            .into_par_iter()
            .with_min_len(LEAST_APPLICANTS)
            .find_first(
                rt,
                |number: &u32| -> bool
                    requires { number.now < applicants (judged self.now).registered.market }
                    ensures { result ≡ is_found (judged self.entry.now) with_blocking number.now }
                { self.is_found(AppNo(*number), with_blocking) },
            )?;
        Some(AppNo(found))
    }

    /// The first applicant whose place isn't allowed.
    fn first_unlisted<R: Threads + Sync>(&self, rt: &R) -> Option<AppNo>
        ensures { result ≡ first_unlisted (judged self.now) }
    {
        self.first_found(rt, false)
    }

    /// The ranks of those that are placed at the program, in rising order.
    pub(crate) fn placed_at(&self, program: ProgNo) -> &[u32]
        requires { program < length (judged self.now).registered.market.programs }
        ensures { let j = judged self.now in
            result.now ≡ placed_ranks j.registered.market j.places program }
    {
        &self.placed[program.index()]
    }

    /// Whether more applicants are placed at the program than its quota. Each of them is on its list.
    fn is_over(&self, program: ProgNo) -> bool
        requires within { program < length (judged self.now).registered.market.programs }
        requires listed { AreAllowed (judged self.now) }
        ensures { let j = judged self.now in result ≡ is_over j.registered.market j.places program }
    {
        self.placed_at(program).len() > self.roster.quota(program) as usize
    }

    /// The first program with more applicants than its quota.
    fn first_over(&self) -> Option<ProgNo>
        requires { AreAllowed (judged self.now) }
        ensures { result ≡ first_over (judged self.now) }
    {
        for number in 0..self.roster.programs() {
            if self.is_over(ProgNo(number)) {
                return Some(ProgNo(number));
            }
        }
        None
    }

    /// The first finding against the match, or that it is stable.
    pub(crate) fn verdict<R: Threads + Sync>(&self, rt: &R) -> Verdict
        ensures { let j = judged self.now in result ≡ verdict_of j.registered.market j.places }
    {
        let Some(found) = self.first_found(rt, true) else {
            return match self.first_over() {
                Some(program) => Verdict::Over(program),
                None => Verdict::Stable,
            };
        };
        if let Some(applicant) = self.first_unlisted(rt) {
            return Verdict::Unlisted(applicant);
        }
        if let Some(program) = self.first_over() {
            return Verdict::Over(program);
        }
        match self.first_blocker(found) {
            Some(blocker) => Verdict::Blocks(blocker),
            None => Verdict::Stable,
        }
    }
}
