ghost use Rattle.std.specs.Prelude.{◌≡◌, ◌+◌, ◌<◌, ◌≤◌, length, IsTrue, IfErr, IfOk, OnOk, Some, []};
ghost use Rattle.mt_terms.specs.Places.{ArePlaces};
ghost use Rattle.mt_terms.specs.Stability.{fits};
ghost use Rattle.mt_ranks.specs.Ranked.{ranked_of};
ghost use Rattle.mt_assignment.specs.Assigned.{assignment, AreListed};
ghost use Rattle.mt_assignment.specs.Moves.{IsTaking};
ghost use Rattle.mt_entry.specs.Ended.{IfSpent};

use crate::recheck::Recheck;
use mt_assignment::{Assignment, no_ranks};
use mt_entry::{CoupleEnd, Spent};
use mt_market::Roster;
use mt_ranks::Ranks;
use mt_rounds::Returning;
use mt_stage_tables::WorkList;
use mt_terms::{Agent, AppNo, CoupleNo, Match, Places, ProgNo};
use mt_watch::{Watch, are_singles_quiet};
use std::alloc::{AllocError, Global};
use std::thread::Threads;

/// The couples' stage: a match beside its market, the index of who may block in it, the agents that are to be rechecked,
/// and the couple that entered last. A round that fails for want of memory leaves it half changed, and nobody uses it then.
pub(crate) struct Stage<'a> {
    assignment: Assignment<'a>,
    watch: Watch,
    waiting: WorkList,
    last: CoupleNo,
    /// Whether no single blocked before the first couple entered.
    quiet: bool,
}

impl Drop for Stage<'_> {
    fn drop(self) {
        let Stage {
            assignment: _,
            watch: _,
            waiting: _,
            last: _,
            quiet: _,
        } = self;
    }
}

impl<'a> Stage<'a> {
    ghost use Rattle.mt_couples.specs.Ended.{spent_by, IsSpentEntering, IsSpentFrom};
    ghost use Rattle.mt_couples.specs.Staged.{after_round, after_move, entered_within, settled_within, state_of, Begins, IsBeforeRoundOf, IsBetweenEntries, IsBetweenRounds, IsWatched, IsWatchedBut, KeepsStage};

    /// A stage that no couple has entered. The error is want of memory.
    fn new<R: Threads + Sync>(
        rt: &R,
        alloc: Global,
        roster: &'a Roster,
        ranks: &'a Ranks<'a>,
        singles: Match,
    ) -> Result<Self, AllocError>
        requires ranks { ranks.now ≡ ranked_of roster.now.market }
        requires places { ArePlaces roster.now.market singles.places }
        requires listed { AreListed roster.now.market singles.places }
        ensures { IfOk result (Begins roster.entry.now.market singles.places) }
    {
        let mut watched = no_ranks(alloc, roster)?;
        let assignment = Assignment::new(alloc, roster, ranks, singles, &mut watched)?;
        let watch = Watch::new(alloc, &assignment, watched)?;
        let waiting = WorkList::new(alloc, roster.applicants(), roster.couples())?;
        let quiet = are_singles_quiet(rt, &assignment, &watch);
        Ok(Stage {
            assignment,
            watch,
            waiting,
            last: CoupleNo(0),
            quiet,
        })
    }

    /// The match alone.
    pub(crate) fn into_match(self) -> Match
        ensures { result.places ≡ self.entry.assignment.places }
    {
        let Stage {
            assignment,
            watch: _,
            waiting: _,
            last: _,
            quiet: _,
        } = self;
        assignment.into_match()
    }

    /// Indexes the pairs that a couple which has entered wants more than what it has, and sees whether it blocks.
    fn note_entered(&mut self, couple: CoupleNo) -> Result<(), AllocError>
        requires couple { couple < length self.old.assignment.market.couples }
        requires entered { IsBetweenEntries couple self.old }
        ensures entered { OnOk result (IsBetweenEntries (couple + 1) self.new) }
        ensures assignment { OnOk result (self.new.assignment ≡ self.old.assignment) }
    {
        self.watch.index_better(&self.assignment, couple)?;
        if self.watch.blocks(&self.assignment, &Agent::Couple(couple)) {
            self.quiet = false;
        }
        Ok(())
    }

    /// A stage of a match that the couples below a number have entered. The error is want of memory.
    pub(crate) fn entered<R: Threads + Sync>(
        rt: &R,
        alloc: Global,
        roster: &'a Roster,
        ranks: &'a Ranks<'a>,
        matched: Match,
        couples: u32,
    ) -> Result<Self, AllocError>
        requires ranks { ranks.now ≡ ranked_of roster.now.market }
        requires fits { IsTrue (fits roster.now.market matched.places) }
        requires couples { couples ≤ length roster.now.market.couples }
        ensures assignment { IfOk result (λ t. t.assignment ≡ assignment roster.entry.now.market matched.places) }
        ensures entered { IfOk result (IsBetweenEntries couples) }
    {
        roster.is_of_a_file();
        let mut stage = Stage::new(rt, alloc, roster, ranks, matched)?;
        for number in 0..couples {
            stage.note_entered(CoupleNo(number))?;
        }
        Ok(stage)
    }

    /// A copy of the match. The error is want of memory.
    pub(crate) fn matched(&self, alloc: Global) -> Result<Match, AllocError>
        ensures { IfOk result (λ m. m.places ≡ self.now.assignment.places) }
    {
        let places = Vec::from_slice(alloc, self.assignment.places())?;
        Ok(Match {
            places: Places::new(places),
        })
    }

    /// Moves the agent to an option that would be taken, and puts on the work list who is to be rechecked then. These are
    /// the displaced agents, and the agent itself if it blocks now. Each program that was left adds the agents of its
    /// list that block now.
    fn take_option<R: Threads + Sync>(
        &mut self,
        rt: &R,
        alloc: Global,
        agent: Agent,
        sent: &[(AppNo, Option<ProgNo>)],
    ) -> Result<(), AllocError>
        requires taking { IsTaking self.old.assignment.market self.old.assignment.places agent sent.now }
        requires running { IsBeforeRoundOf agent self.old }
        requires watched { IsWatchedBut agent self.old }
        ensures keeps { OnOk result (KeepsStage self.old self.new) }
        ensures watched { OnOk result (IsWatched self.new) }
        ensures work { OnOk result (state_of self.new ≡ after_move self.old agent sent.now) }
    {
        let moved = self.assignment.move_to(alloc, sent)?;
        self.watch.follow_sent(&self.assignment, sent)?;
        self.watch
            .follow_displaced(&self.assignment, &moved.displaced)?;
        self.watch.index_mover(&self.assignment, &agent)?;
        let recheck = Recheck {
            assignment: &self.assignment,
            watch: &self.watch,
            alloc,
            last: self.last,
            quiet: self.quiet,
        };
        recheck.join_moved(&moved.displaced, agent, &mut self.waiting)?;
        recheck.recheck_left(rt, &moved.left, &mut self.waiting)
    }

    /// One round: the agent at the front of the work list, which was taken off it, takes its first better option
    /// that would be taken.
    fn round<R: Threads + Sync>(
        &mut self,
        rt: &R,
        alloc: Global,
        agent: Agent,
    ) -> Result<(), AllocError>
        requires running { IsBeforeRoundOf agent self.old }
        requires watched { IsWatchedBut agent self.old }
        ensures keeps { OnOk result (KeepsStage self.old self.new) }
        ensures watched { OnOk result (IsWatched self.new) }
        ensures work { OnOk result (state_of self.new ≡ after_round self.old agent) }
    {
        match &agent {
            Agent::Single(applicant) => {
                let Some(program) = self.assignment.first_program(*applicant) else {
                    return Ok(());
                };
                let sent = [(*applicant, Some(program))];
                self.take_option(rt, alloc, agent, &sent)
            }
            Agent::Couple(couple) => {
                let better = self.watch.better(*couple);
                let Some(pair) = self.assignment.first_pair(*couple, better) else {
                    return self.watch.index_better(&self.assignment, *couple);
                };
                let (first, second) = self.assignment.members(*couple);
                let sent = [(first, pair.0), (second, pair.1)];
                self.take_option(rt, alloc, agent, &sent)
            }
        }
    }

    /// The end of the rounds while the couple that entered last was entering.
    fn spent(&self, rounds: u32, comes_back: bool) -> CoupleEnd
        ensures { result ≡ spent_by self.now.last rounds comes_back }
    {
        CoupleEnd::BudgetSpent(Spent {
            couple: self.last,
            rounds,
            comes_back,
        })
    }

    /// Makes rounds until the work list is empty, at most as many as are left of the budget. The result is how many are
    /// left then. If a state comes back the rounds end at once, since they would never end.
    fn settle<R: Threads + Sync>(
        &mut self,
        rt: &R,
        alloc: Global,
        budget: u32,
        left: u32,
    ) -> Result<u32, CoupleEnd>
        requires running { IsBetweenRounds self.old }
        requires watched { IsWatched self.old }
        requires within { left ≤ budget }
        ensures settled { IfOk result (λ rest.
            settled_within self.old left ≡ Some (self.new.assignment.places, rest)) }
        ensures spent { IfErr result (λ e. IfSpent e (IsSpentFrom self.old budget left)) }
        ensures within { IfOk result (λ rest. rest ≤ left) }
        ensures keeps { OnOk result (KeepsStage self.old self.new) }
        ensures running { OnOk result (IsBetweenRounds self.new) }
        ensures watched { OnOk result (IsWatched self.new) }
        ensures empty { OnOk result (self.new.waiting.agents ≡ []) }
    {
        let mut rest = left;
        let mut returning = Returning::new();
        while let Some(agent) = self.waiting.take() {
            if rest == 0 {
                return Err(self.spent(budget, false));
            }
            rest -= 1;
            self.round(rt, alloc, agent)?;
            if returning.comes_back(alloc, &self.assignment, &self.waiting)? {
                return Err(self.spent(budget - rest, true));
            }
        }
        Ok(rest)
    }

    /// Lets a couple enter: it is put on the empty work list, and rounds are made until the list is empty, at most as
    /// many as are left of the budget. The result is how many are left then.
    pub(crate) fn let_in<R: Threads + Sync>(
        &mut self,
        rt: &R,
        alloc: Global,
        couple: CoupleNo,
        budget: u32,
        left: u32,
    ) -> Result<u32, CoupleEnd>
        requires couple { couple < length self.old.assignment.market.couples }
        requires entered { IsBetweenEntries couple self.old }
        requires within { left ≤ budget }
        ensures settled { IfOk result (λ rest.
            entered_within self.old couple left ≡ Some (self.new.assignment.places, rest)) }
        ensures spent { IfErr result (λ e. IfSpent e (IsSpentEntering self.old couple budget left)) }
        ensures within { IfOk result (λ rest. rest ≤ left) }
        ensures entered { OnOk result (IsBetweenEntries (couple + 1) self.new) }
        ensures market { OnOk result (self.new.assignment.market ≡ self.old.assignment.market) }
    {
        self.assignment.roster();
        self.last = couple;
        self.waiting.join(Agent::Couple(couple))?;
        self.settle(rt, alloc, budget, left)
    }
}
