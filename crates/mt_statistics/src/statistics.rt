ghost use Rattle.std.specs.Prelude.{◌≡◌, ◌<◌, length, map, IfOk};
ghost use Rattle.mt_terms.specs.Lists.{below};
ghost use Rattle.mt_terms.specs.Market.{applicants, IsAgentOf};
ghost use Rattle.mt_terms.specs.Matching.{filled};
ghost use Rattle.mt_terms.specs.Text.{all_filled};
ghost use Rattle.mt_terms.specs.declared.numbers.Agent.TheVariants.{Couple, Single};
ghost use Rattle.mt_verify.specs.Held.{held_option};
ghost use Rattle.mt_statistics.specs.Counts.{choice_counts, choices_from, couples_with, empty_programs, full_programs, has_choice_from, has_nobody, is_from, is_full, is_unmatched_single, last_rank, open_at, open_posts, pair_counts, pairs_from, partly_filled_programs, placed_members, standing, unmatched_singles};

use crate::counts::{ProgramCounts, Standing};
use crate::held::held_counts;
use mt_market::Roster;
use mt_report::{filled_counts, filled_total};
use mt_terms::{Agent, AppNo, CoupleNo, Match, ProgNo};
use mt_verify::MatchTables;
use std::alloc::{AllocError, Global};
use std::marker::Model;

/// Whether there is a number, and it is this one or a larger one.
fn is_from(least: u32, number: Option<u32>) -> bool
    ensures { result ≡ is_from least number }
{
    match number {
        Some(number) => least <= number,
        None => false,
    }
}

/// A match beside its market, ready to be counted.
#[derive(Drop)]
pub struct Statistics<'a> {
    tables: MatchTables<'a>,
    filled: Vec<u32>,
}

impl<'a> Model for Statistics<'a> {
    ghost use Rattle.mt_verify.specs.Judged.{Judged};
    ghost use Rattle.mt_statistics.specs.View.{AreCounted};

    ghost Value = { Judged };

    ghost view = { λ s. s.tables };

    ghost invariant = { AreCounted };
}

impl<'a> Statistics<'a> {
    /// The match of these tables. The only error is want of memory.
    pub fn new(alloc: Global, tables: MatchTables<'a>) -> Result<Self, AllocError>
        ensures { IfOk result (λ s. s ≡ tables.entry) }
    {
        let roster = tables.roster();
        roster.is_of_a_file();
        let places = tables.matched().places.as_slice();
        let filled = filled_counts(alloc, roster.programs() as usize, places)?;
        Ok(Statistics { tables, filled })
    }

    /// The market, with its ids.
    pub fn roster(&self) -> &'a Roster
        ensures { result.now ≡ self.now.registered }
    {
        self.tables.roster()
    }

    /// The match.
    fn matched(&self) -> &'a Match
        ensures { result.now.places ≡ self.now.places }
    {
        self.tables.matched()
    }

    /// For each choice up to the largest that a single has, how many singles have it. The only error is want of memory.
    pub fn choice_counts(&self, alloc: Global) -> Result<Vec<u32>, AllocError>
        ensures { IfOk result (λ v. v.items
            ≡ choice_counts self.now.registered.market self.now.places) }
    {
        self.roster().is_of_a_file();
        let held = self.held_choices(alloc)?;
        held_counts(alloc, &held)
    }

    /// For each pair's number up to the largest that a couple has, how many couples have it. The only error is want of
    /// memory.
    pub fn pair_counts(&self, alloc: Global) -> Result<Vec<u32>, AllocError>
        ensures { IfOk result (λ v. v.items
            ≡ pair_counts self.now.registered.market self.now.places) }
    {
        self.roster().is_of_a_file();
        let held = self.held_pairs(alloc)?;
        held_counts(alloc, &held)
    }

    /// How many singles have the choice with this number from 0, or a later one.
    pub fn choices_from(&self, choice: u32) -> u32
        ensures { result ≡ choices_from self.now.registered.market self.now.places choice }
    {
        let mut count = 0;
        for number in 0..self.roster().applicants() {
            if self.has_choice_from(AppNo(number), choice) {
                count += 1;
            }
        }
        count
    }

    /// How many couples have the pair with this number from 0, or a later one.
    pub fn pairs_from(&self, pair: u32) -> u32
        ensures { result ≡ pairs_from self.now.registered.market self.now.places pair }
    {
        let mut count = 0;
        for number in 0..self.roster().couples() {
            if is_from(pair, self.held_option(Agent::Couple(CoupleNo(number)))) {
                count += 1;
            }
        }
        count
    }

    /// How many singles have no place.
    pub fn unmatched_singles(&self) -> u32
        ensures { result ≡ unmatched_singles self.now.registered.market self.now.places }
    {
        let mut count = 0;
        for number in 0..self.roster().applicants() {
            if self.is_unmatched_single(AppNo(number)) {
                count += 1;
            }
        }
        count
    }

    /// How many couples have this number of members placed.
    pub fn couples_with(&self, placed: u32) -> u32
        ensures { result ≡ couples_with self.now.registered.market self.now.places placed }
    {
        let mut count = 0;
        for number in 0..self.roster().couples() {
            if self.placed_members(CoupleNo(number)) == placed {
                count += 1;
            }
        }
        count
    }

    /// How many programs are full, partly filled and empty.
    pub fn program_counts(&self) -> ProgramCounts
        ensures full { result.full ≡ full_programs self.now.registered.market self.now.places }
        ensures partly_filled { result.partly_filled
            ≡ partly_filled_programs self.now.registered.market self.now.places }
        ensures empty { result.empty ≡ empty_programs self.now.registered.market self.now.places }
    {
        let mut counts = ProgramCounts {
            full: 0,
            partly_filled: 0,
            empty: 0,
        };
        for number in 0..self.roster().programs() {
            let program = ProgNo(number);
            if self.is_full(program) {
                counts.full += 1;
            } else if self.has_nobody(program) {
                counts.empty += 1;
            } else {
                counts.partly_filled += 1;
            }
        }
        counts
    }

    /// How many applicants are placed, at all programs together.
    pub fn filled_posts(&self) -> u64
        ensures { result ≡ all_filled self.now.registered.market self.now.places }
    {
        filled_total(&self.filled)
    }

    /// How many posts are open. A program with more applicants than posts has none.
    pub fn open_posts(&self) -> u64
        ensures { result ≡ open_posts self.now.registered.market self.now.places }
    {
        let mut count = 0;
        for number in 0..self.roster().programs() {
            count += u64::from(self.open_at(ProgNo(number)));
        }
        count
    }

    /// How many applicants are placed at a program.
    fn filled(&self, program: ProgNo) -> u32
        requires { program < length self.now.registered.market.programs }
        ensures { result ≡ filled self.now.places program }
    {
        self.filled[program.index()]
    }

    /// The rank from 0 of the last one in at a program: of those placed there, the one that it ranks lowest. None if it
    /// lists nobody of them.
    fn last_rank(&self, program: ProgNo) -> Option<u32>
        requires { program < length self.now.registered.market.programs }
        ensures { result ≡ last_rank self.now.registered.market self.now.places program }
    {
        let ranks = self.tables.placed_at(program);
        let placed = ranks.len();
        if placed == 0 {
            return None;
        }
        Some(ranks[placed - 1])
    }

    /// Where a program stands.
    pub fn standing(&self, program: ProgNo) -> Standing
        requires { program < length self.now.registered.market.programs }
        ensures { result ≡ standing self.now.registered.market self.now.places program }
    {
        Standing {
            quota: self.roster().quota(program),
            filled: self.filled(program),
            listed: self.roster().program_list(program).len() as u64,
            last: self.last_rank(program),
        }
    }

    /// The number from 0 of the option that the agent has, if it has one of its list.
    fn held_option(&self, agent: Agent) -> Option<u32>
        requires { IsAgentOf self.now.registered.market agent }
        ensures { result ≡ held_option self.now.registered.market self.now.places agent }
    {
        self.tables.held_option(agent)
    }

    /// For each applicant the number of the choice that it has, none for a member of a couple.
    fn held_choices(&self, alloc: Global) -> Result<Vec<Option<u32>>, AllocError>
        ensures { let m = self.now.registered.market in IfOk result (λ v.
            v.items ≡ map (λ a. held_option m self.now.places (Single a)) (below (applicants m))) }
    {
        let mut held = Vec::new(alloc);
        for number in 0..self.roster().applicants() {
            held.push(self.held_option(Agent::Single(AppNo(number))))?;
        }
        Ok(held)
    }

    /// For each couple the number of the pair that it has.
    fn held_pairs(&self, alloc: Global) -> Result<Vec<Option<u32>>, AllocError>
        ensures { let m = self.now.registered.market in IfOk result (λ v.
            v.items ≡ map (λ c. held_option m self.now.places (Couple c)) (below (length m.couples))) }
    {
        let mut held = Vec::new(alloc);
        for number in 0..self.roster().couples() {
            held.push(self.held_option(Agent::Couple(CoupleNo(number))))?;
        }
        Ok(held)
    }

    /// Whether an applicant is a single that has the choice with this number from 0, or a later one.
    fn has_choice_from(&self, applicant: AppNo, choice: u32) -> bool
        requires { applicant < applicants self.now.registered.market }
        ensures { result ≡ has_choice_from self.now.registered.market self.now.places choice applicant }
    {
        match self.roster().agent_of(applicant) {
            Agent::Single(_) => is_from(choice, self.held_option(Agent::Single(applicant))),
            Agent::Couple(_) => false,
        }
    }

    /// Whether an applicant is a single without a place.
    fn is_unmatched_single(&self, applicant: AppNo) -> bool
        requires { applicant < applicants self.now.registered.market }
        ensures { result ≡ is_unmatched_single self.now.registered.market self.now.places applicant }
    {
        match self.roster().agent_of(applicant) {
            Agent::Single(_) => self.matched().place(applicant).is_none(),
            Agent::Couple(_) => false,
        }
    }

    /// How many members of a couple are placed.
    fn placed_members(&self, couple: CoupleNo) -> u32
        requires { couple < length self.now.registered.market.couples }
        ensures { result ≡ placed_members self.now.registered.market self.now.places couple }
    {
        let (first, second) = self.roster().members(couple);
        u32::from(self.matched().place(first).is_some())
            + u32::from(self.matched().place(second).is_some())
    }

    /// Whether a program has no open post.
    pub fn is_full(&self, program: ProgNo) -> bool
        requires { program < length self.now.registered.market.programs }
        ensures { result ≡ is_full self.now.registered.market self.now.places program }
    {
        self.roster().quota(program) <= self.filled(program)
    }

    /// Whether nobody is placed at a program.
    fn has_nobody(&self, program: ProgNo) -> bool
        requires { program < length self.now.registered.market.programs }
        ensures { result ≡ has_nobody self.now.places program }
    {
        self.filled(program) == 0
    }

    /// How many posts of a program are open.
    fn open_at(&self, program: ProgNo) -> u32
        requires { program < length self.now.registered.market.programs }
        ensures { result ≡ open_at self.now.registered.market self.now.places program }
    {
        self.roster()
            .quota(program)
            .saturating_sub(self.filled(program))
    }
}
