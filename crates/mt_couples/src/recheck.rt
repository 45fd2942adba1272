ghost use Rattle.std.specs.Prelude.{◌≡◌, ◌<◌, length, [], ◌∷◌, IfOk, IsFalse, IsTrue, OnOk};
ghost use Rattle.std.specs.List.Sorted.{IsNonDecreasing};
ghost use Rattle.mt_terms.specs.Rounds.{has_entered};
ghost use Rattle.mt_terms.specs.WellFormed.{IsWellFormed};
ghost use Rattle.mt_terms.specs.Market.{IsAgentOf};
ghost use Rattle.mt_bits.specs.Members.{is_in};
ghost use Rattle.mt_stage_tables.specs.Named.{AreNamed};
ghost use Rattle.mt_assignment.specs.Assigned.{AreApplicantsOf, AreProgramsOf};
ghost use Rattle.mt_assignment.specs.Watched.{AreWatched};
ghost use Rattle.mt_rounds.specs.Looking.{Adds, AreRanksOf};
ghost use Rattle.mt_rounds.specs.Waiting.{Joins};
ghost use Rattle.mt_watch.specs.Watching.{AreCounted};

use mt_assignment::Assignment;
use mt_bits::RankRow;
use mt_stage_tables::{NamedPairs, WorkList};
use mt_terms::{Agent, AppNo, CoupleNo, ProgNo};
use mt_watch::{Watch, first_with_post};
use rayon::prelude::*;
use std::alloc::{AllocError, Global};
use std::thread::Threads;

/// From twice as many entries of a program on, they are asked side by side. One by one, 9,000 entries of couples with 20
/// pairs took 2.5 ms. Side by side, on four processors with other work, they took two thirds of that. 4,000 entries took
/// as long in either way.
const LEAST_ENTRIES: usize = 2048;

/// A match in which an agent has just moved, and the index of who may block in it: what is asked to recheck the agents
/// of the programs that it left.
pub(crate) struct Recheck<'s, 'a> {
    pub(crate) assignment: &'s Assignment<'a>,
    pub(crate) watch: &'s Watch,
    pub(crate) alloc: Global,
    /// The couple that entered last.
    pub(crate) last: CoupleNo,
    /// Whether no single blocked before the first couple entered. Then only the move can have opened an option.
    pub(crate) quiet: bool,
    ghost well_formed: { IsWellFormed assignment.now.market },
    ghost watched: { AreWatched assignment.now watch.now.singles },
    ghost named: { AreNamed assignment.now.market watch.now.couples },
    ghost counted: { AreCounted assignment.now watch.now.better.items },
}

impl Drop for Recheck<'_, '_> {
    fn drop(self) {
        let Recheck {
            assignment: _,
            watch: _,
            alloc: _,
            last: _,
            quiet: _,
        } = self;
    }
}

/// Whether the agent has entered, once this couple has.
fn has_entered(agent: &Agent, last: CoupleNo) -> bool
    ensures { result ≡ has_entered last agent.now }
{
    match agent {
        Agent::Single(_) => true,
        Agent::Couple(couple) => couple.0 <= last.0,
    }
}

/// The ranks of these applicants on a program's list, in rising order.
fn ranks_of(
    alloc: Global,
    assignment: &Assignment<'_>,
    program: ProgNo,
    applicants: &[AppNo],
) -> Result<Vec<u32>, AllocError>
    requires program { program < length assignment.now.market.programs }
    requires applicants { AreApplicantsOf assignment.now.market applicants.now }
    ensures ranks { IfOk result (λ v. AreRanksOf assignment.now.market program applicants.now v.items) }
    ensures sorted { IfOk result (λ v. IsNonDecreasing v.items) }
{
    let mut ranks = Vec::new(alloc);
    for applicant in applicants {
        if let Some(rank) = assignment.rank(program, *applicant) {
            ranks.push(rank)?;
        }
    }
    ranks.sort_unstable();
    Ok(ranks)
}

impl<'s, 'a> Recheck<'s, 'a> {
    ghost use Rattle.mt_couples.specs.Rechecks.{blockers_at, blockers_of_all, couple_at, is_reopened_at, joining_moved, market_of, reopened_couples, which_at, CoversAll, FindsSingles, HaveAll, IsIndexedFor, IsListFor, IsQuietAround, IsReadyFor};

    /// Whether the agent has entered, doesn't wait, and has a better option at one of these programs that would be
    /// taken. The work list is asked last: few agents have such an option.
    fn is_reopened(&self, agent: &Agent, left: &[ProgNo], waiting: &WorkList) -> bool
        requires agent { IsAgentOf (market_of self.now) agent.now }
        ensures { result ≡ is_reopened_at self.now left.now waiting.now agent.now }
    {
        has_entered(agent, self.last)
            && self.assignment.opens(agent, left)
            && !waiting.is_waiting(agent)
    }

    /// Adds the applicants of these ranks on a program's list for whom it has a post: all singles of them that are
    /// reopened by an option there.
    fn add_by_rank(
        &self,
        program: ProgNo,
        ranks: &RankRow<'_>,
        found: &mut Vec<AppNo>,
    ) -> Result<(), AllocError>
        requires { program < length (market_of self.now).programs }
        ensures adds { OnOk result (Adds (market_of self.now) found.old.items found.new.items) }
        ensures singles { OnOk result (FindsSingles self.now program (is_in ranks.now) found.new.items) }
    {
        let ranking = self.assignment.ranking(program);
        let mut next = 0;
        while let Some(rank) = first_with_post(self.assignment, program, ranks, next) {
            next = rank as usize + 1;
            found.push(ranking[rank as usize])?;
        }
        Ok(())
    }

    /// Whether a couple that is indexed at the program has entered, doesn't wait, and has a better pair there that would
    /// be taken. Its pairs are asked from the first indexed one up to the last, or up to its own.
    fn is_couple_reopened(&self, program: ProgNo, pairs: &NamedPairs, waiting: &WorkList) -> bool
        requires couple { pairs.now.couple < length (market_of self.now).couples }
        ensures { result ≡ which_at self.now program waiting.now pairs.now }
    {
        let from = pairs.from as usize;
        let end = pairs.end(self.watch.better(pairs.couple));
        let agent = Agent::Couple(pairs.couple);
        from < end
            && has_entered(&agent, self.last)
            && self
                .assignment
                .opens_between(pairs.couple, program, from, end)
            && !waiting.is_waiting(&agent)
    }

    /// The couples that are reopened by an option at the program, of those that are indexed there. Many are asked side by
    /// side.
    fn reopened_couples<R: Threads + Sync>(
        &self,
        rt: &R,
        program: ProgNo,
        waiting: &WorkList,
    ) -> Result<Vec<CoupleNo>, AllocError>
        ensures { IfOk result (λ v. v.items ≡ reopened_couples self.now program waiting.now) }
    {
        self.watch
            .couples(program)
            .par_iter()
            .with_min_len(LEAST_ENTRIES)
            .filter_map(
                |pairs: &NamedPairs| -> Option<CoupleNo>
                    requires { pairs.now.couple < length (market_of self.now).couples }
                    ensures { result ≡ couple_at self.entry.now program waiting.entry.now pairs.now }
                {
                    self.is_couple_reopened(program, pairs, waiting)
                        .then_some(pairs.couple)
                },
            )
            .collect(rt, self.alloc)
    }

    /// Adds all applicants whose agents are reopened by an option at the program.
    fn add_reopened<R: Threads + Sync>(
        &self,
        rt: &R,
        program: ProgNo,
        waiting: &WorkList,
        found: &mut Vec<AppNo>,
    ) -> Result<(), AllocError>
        requires program { program < length (market_of self.now).programs }
        requires indexed { IsIndexedFor self.now waiting.now }
        ensures adds { OnOk result (Adds (market_of self.now) found.old.items found.new.items) }
        ensures covers { OnOk result (CoversAll self.now (program ∷ []) waiting.now found.new.items) }
    {
        self.add_by_rank(program, &self.watch.singles(program), found)?;
        let couples = self.reopened_couples(rt, program, waiting)?;
        for couple in &couples {
            let (first, second) = self.assignment.members(*couple);
            found.push(first)?;
            found.push(second)?;
        }
        Ok(())
    }

    /// All applicants whose agents are reopened by an option at a program that was left.
    fn reopened_applicants<R: Threads + Sync>(
        &self,
        rt: &R,
        left: &[ProgNo],
        waiting: &WorkList,
    ) -> Result<Vec<AppNo>, AllocError>
        requires programs { AreProgramsOf (market_of self.now) left.now }
        requires indexed { IsIndexedFor self.now waiting.now }
        ensures found { IfOk result (λ v. AreApplicantsOf (market_of self.now) v.items) }
        ensures covers { IfOk result (λ v. CoversAll self.now left.now waiting.now v.items) }
    {
        let mut found = Vec::new(self.alloc);
        for program in left {
            self.add_reopened(rt, *program, waiting, &mut found)?;
        }
        Ok(found)
    }

    /// Puts those agents of a program's list on the work list that have entered and block now. At these ranks, in
    /// rising order, are all that can have been reopened. The error is want of memory.
    fn join_reopened(
        &self,
        program: ProgNo,
        ranks: &[u32],
        left: &[ProgNo],
        waiting: &mut WorkList,
    ) -> Result<(), AllocError>
        requires program { program < length (market_of self.now).programs }
        requires sorted { IsNonDecreasing ranks.now }
        requires ranks { HaveAll self.now program left.now waiting.old ranks.now }
        requires list { IsListFor self.now waiting.old }
        requires quiet { IsQuietAround self.now left.now waiting.old }
        ensures { OnOk result (Joins waiting.old waiting.new (blockers_at self.now program)) }
    {
        let ranking = self.assignment.ranking(program);
        let mut next = 0;
        for rank in ranks {
            let place = *rank as usize;
            if next <= place {
                next = place + 1;
                let agent = self.assignment.agent_of(ranking[place]);
                if self.is_reopened(&agent, left, waiting) {
                    waiting.join(agent)?;
                }
            }
        }
        Ok(())
    }

    /// Rechecks the one program that was left, if no couple is reopened there. The singles that block want the program
    /// more than what they have, so they have ranks that are watched there. If a couple is reopened, this does nothing,
    /// and the result is false.
    fn recheck_one_watched<R: Threads + Sync>(
        &self,
        rt: &R,
        program: ProgNo,
        waiting: &mut WorkList,
    ) -> Result<bool, AllocError>
        requires ready { IsReadyFor self.now (program ∷ []) waiting.old }
        requires quiet { IsTrue self.now.quiet }
        ensures done { IfOk result (λ b. IsTrue b → Joins waiting.old waiting.new (blockers_at self.now program)) }
        ensures not_done { IfOk result (λ b. IsFalse b → waiting.new ≡ waiting.old) }
    {
        let couples = self.reopened_couples(rt, program, waiting)?;
        if !couples.is_empty() {
            return Ok(false);
        }
        let ranking = self.assignment.ranking(program);
        let ranks = self.watch.singles(program);
        let mut next = 0;
        while let Some(rank) = first_with_post(self.assignment, program, &ranks, next) {
            next = rank as usize + 1;
            waiting.join(Agent::Single(ranking[rank as usize]))?;
        }
        Ok(true)
    }

    /// Rechecks several programs that were left: all applicants that are reopened at any of them are found first.
    fn recheck_several<R: Threads + Sync>(
        &self,
        rt: &R,
        left: &[ProgNo],
        waiting: &mut WorkList,
    ) -> Result<(), AllocError>
        requires ready { IsReadyFor self.now left.now waiting.old }
        requires quiet { IsTrue self.now.quiet }
        ensures { OnOk result (Joins waiting.old waiting.new (blockers_of_all self.now left.now)) }
    {
        let found = self.reopened_applicants(rt, left, waiting)?;
        for program in left {
            let ranks = ranks_of(self.alloc, self.assignment, *program, &found)?;
            self.join_reopened(*program, &ranks, left, waiting)?;
        }
        Ok(())
    }

    /// Rechecks every agent of a program's list.
    fn recheck_listed(&self, program: ProgNo, waiting: &mut WorkList) -> Result<(), AllocError>
        requires program { program < length (market_of self.now).programs }
        requires list { IsListFor self.now waiting.old }
        ensures { OnOk result (Joins waiting.old waiting.new (blockers_at self.now program)) }
    {
        for applicant in self.assignment.ranking(program) {
            let agent = self.assignment.agent_of(*applicant);
            if has_entered(&agent, self.last) && self.watch.blocks(self.assignment, &agent) {
                waiting.join(agent)?;
            }
        }
        Ok(())
    }

    /// Rechecks every agent of the lists of the programs that were left.
    fn recheck_every_listed(
        &self,
        left: &[ProgNo],
        waiting: &mut WorkList,
    ) -> Result<(), AllocError>
        requires programs { AreProgramsOf (market_of self.now) left.now }
        requires list { IsListFor self.now waiting.old }
        ensures { OnOk result (Joins waiting.old waiting.new (blockers_of_all self.now left.now)) }
    {
        for program in left {
            self.recheck_listed(*program, waiting)?;
        }
        Ok(())
    }

    /// Puts those agents of the lists of the programs that were left on the work list that have entered and block now.
    /// After a quiet start the index names all of them. Otherwise every agent of those lists is asked.
    pub(crate) fn recheck_left<R: Threads + Sync>(
        &self,
        rt: &R,
        left: &[ProgNo],
        waiting: &mut WorkList,
    ) -> Result<(), AllocError>
        requires ready { IsReadyFor self.now left.now waiting.old }
        ensures { OnOk result (Joins waiting.old waiting.new (blockers_of_all self.now left.now)) }
    {
        if !self.quiet {
            return self.recheck_every_listed(left, waiting);
        }
        if left.len() == 1 {
            if self.recheck_one_watched(rt, left[0], waiting)? {
                return Ok(());
            }
        }
        self.recheck_several(rt, left, waiting)
    }

    /// Puts the agents of displaced applicants on the work list, and then the agent that moved, if it has a better
    /// option still.
    pub(crate) fn join_moved(
        &self,
        displaced: &[AppNo],
        agent: Agent,
        waiting: &mut WorkList,
    ) -> Result<(), AllocError>
        requires displaced { AreApplicantsOf (market_of self.now) displaced.now }
        requires agent { IsAgentOf (market_of self.now) agent }
        requires list { IsListFor self.now waiting.old }
        ensures { OnOk result (Joins waiting.old waiting.new (joining_moved self.now displaced.now agent)) }
    {
        for applicant in displaced {
            waiting.join(self.assignment.agent_of(*applicant))?;
        }
        if self.watch.blocks(self.assignment, &agent) {
            waiting.join(agent)?;
        }
        Ok(())
    }
}
