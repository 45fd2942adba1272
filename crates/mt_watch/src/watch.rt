ghost use Rattle.std.specs.Prelude.{◌≡◌, ◌<◌, length, slice_index_or, IfOk, OnOk};
ghost use Rattle.mt_terms.specs.Market.{applicants, IsAgentOf};
ghost use Rattle.mt_terms.specs.Stability.{blocks};
ghost use Rattle.mt_bits.specs.Members.{is_in};
ghost use Rattle.mt_stage_tables.specs.Named.{row_at, AreNamed};
ghost use Rattle.mt_assignment.specs.Assigned.{AreApplicantsOf, AreSent};
ghost use Rattle.mt_assignment.specs.Watched.{better_pairs, ranks_at, AreWatched, Follows, Unwatches, Watches};
ghost use Rattle.mt_watch.specs.Watching.{sent_ones, AreCounted, Counts, CountsAll, CountsCouple, FollowsAll, IndexesAgent, IndexesCouple};

use mt_assignment::Assignment;
use mt_bits::{RankRow, RankTable};
use mt_ranks::PackedLive;
use mt_stage_tables::{NamedPairs, PairIndex};
use mt_terms::{Agent, AppNo, CoupleNo, ProgNo};
use std::alloc::{AllocError, Global};

/// An index of who may block once somebody leaves a program. For each program it has the ranks of the singles that want
/// it more than what they have, and the couples that have an indexed pair there.
pub struct Watch {
    /// For each program the ranks of the singles that want it more than what they have.
    pub singles: RankTable,
    /// The pairs of couples that are indexed.
    pub couples: PairIndex,
    /// For each couple how many pairs it wants more than what it has.
    pub better: Vec<usize>,
}

impl Drop for Watch {
    fn drop(self) {
        let Watch {
            singles: _,
            couples: _,
            better: _,
        } = self;
    }
}

/// For each couple how many pairs it wants more than what it has.
fn better_counts(alloc: Global, assignment: &Assignment<'_>) -> Result<Vec<usize>, AllocError>
    ensures { IfOk result (λ v. AreCounted assignment.now v.items) }
{
    let mut counts = Vec::new(alloc);
    for number in 0..assignment.roster().couples() {
        counts.push(assignment.better_pairs(CoupleNo(number)).len())?;
    }
    Ok(counts)
}

/// Watches the rank of each of these entries at its program.
fn watch_each(table: &mut RankTable, entries: &[PackedLive]) -> Result<(), AllocError>
    ensures { OnOk result (Watches table.old table.new entries.now) }
{
    for entry in entries {
        let entry = entry.unpacked();
        let program = entry.program.index();
        if program < table.len() {
            table.insert(program, entry.rank)?;
        }
    }
    Ok(())
}

/// Watches none of these entries' ranks any more.
fn unwatch_each(table: &mut RankTable, entries: &[PackedLive])
    ensures { Unwatches table.old table.new entries.now }
{
    for entry in entries {
        let entry = entry.unpacked();
        let program = entry.program.index();
        if program < table.len() {
            table.remove(program, entry.rank);
        }
    }
}

impl Watch {
    /// Each single is watched at the programs that it wants more than what it has. No couple has entered.
    pub fn new(
        alloc: Global,
        assignment: &Assignment<'_>,
        singles: RankTable,
    ) -> Result<Self, AllocError>
        requires { AreWatched assignment.now singles }
        ensures watched { IfOk result (λ w. AreWatched assignment.now w.singles) }
        ensures named { IfOk result (λ w. AreNamed assignment.now.market w.couples) }
        ensures counted { IfOk result (λ w. AreCounted assignment.now w.better.items) }
    {
        let roster = assignment.roster();
        Ok(Watch {
            singles,
            couples: PairIndex::new(alloc, roster.programs(), roster.couples())?,
            better: better_counts(alloc, assignment)?,
        })
    }

    /// The ranks that are watched at a program.
    pub fn singles(&self, program: ProgNo) -> RankRow<'_>
        requires { program < length self.now.singles }
        ensures { is_in result ≡ ranks_at self.now.singles program }
    {
        self.singles.row(program.index())
    }

    /// The couples of which indexed pairs name a program.
    pub fn couples(&self, program: ProgNo) -> &[NamedPairs]
        ensures { result.now ≡ row_at self.now.couples.rows program }
    {
        self.couples.row(program)
    }

    /// How many pairs the couple wants more than what it has.
    pub fn better(&self, couple: CoupleNo) -> usize
        ensures { result ≡ slice_index_or self.now.better.items couple 0 }
    {
        self.better.get(couple.index()).copied().unwrap_or(0)
    }

    /// Whether the agent has a better option that would be taken.
    pub fn blocks(&self, assignment: &Assignment<'_>, agent: &Agent) -> bool
        requires agent { IsAgentOf assignment.now.market agent.now }
        requires counted { AreCounted assignment.now self.now.better.items }
        ensures { result ≡ blocks assignment.now.market assignment.now.places agent.now }
    {
        match agent {
            Agent::Single(single) => assignment.first_program(*single).is_some(),
            Agent::Couple(couple) => assignment
                .first_pair(*couple, self.better(*couple))
                .is_some(),
        }
    }

    /// Counts again how many pairs a couple wants more than what it has.
    fn count(&mut self, assignment: &Assignment<'_>, couple: CoupleNo)
        requires { couple < length assignment.now.market.couples }
        ensures singles { self.new.singles ≡ self.old.singles }
        ensures couples { self.new.couples ≡ self.old.couples }
        ensures better { CountsCouple assignment.now self.old.better.items self.new.better.items couple }
    {
        let better = assignment.better_pairs(couple).len();
        if couple.index() < self.better.len() {
            self.better[couple.index()] = better;
        }
    }

    /// Watches an applicant by the place that it has now, and counts again for its couple.
    pub fn follow(
        &mut self,
        assignment: &Assignment<'_>,
        applicant: AppNo,
    ) -> Result<(), AllocError>
        requires { applicant < applicants assignment.now.market }
        ensures couples { OnOk result (self.new.couples ≡ self.old.couples) }
        ensures singles { OnOk result (Follows assignment.now self.old.singles self.new.singles applicant) }
        ensures better { OnOk result (Counts assignment.now self.old self.new applicant) }
    {
        let (better, rest) = assignment.live_parts(applicant);
        unwatch_each(&mut self.singles, rest);
        watch_each(&mut self.singles, better)?;
        if let Agent::Couple(couple) = assignment.agent_of(applicant) {
            self.count(assignment, couple);
        }
        Ok(())
    }

    /// Indexes the pairs that a couple wants more than what it has, as far as they aren't indexed.
    pub fn index_better(
        &mut self,
        assignment: &Assignment<'_>,
        couple: CoupleNo,
    ) -> Result<(), AllocError>
        requires couple { couple < length assignment.now.market.couples }
        requires counted { AreCounted assignment.now self.old.better.items }
        requires named { AreNamed assignment.now.market self.old.couples }
        ensures singles { OnOk result (self.new.singles ≡ self.old.singles) }
        ensures better { OnOk result (self.new.better ≡ self.old.better) }
        ensures named { OnOk result (AreNamed assignment.now.market self.new.couples) }
        ensures indexed { OnOk result (IndexesCouple self.old self.new couple) }
    {
        let end = self.better(couple);
        self.couples
            .index_up_to(couple, assignment.pairs(couple), end)
    }

    /// Watches the applicants that are sent somewhere.
    pub fn follow_sent(
        &mut self,
        assignment: &Assignment<'_>,
        sent: &[(AppNo, Option<ProgNo>)],
    ) -> Result<(), AllocError>
        requires { AreSent assignment.now.market sent.now }
        ensures couples { OnOk result (self.new.couples ≡ self.old.couples) }
        ensures singles { OnOk result (FollowsAll assignment.now self.old.singles self.new.singles (sent_ones sent.now)) }
        ensures better { OnOk result (CountsAll assignment.now self.old self.new (sent_ones sent.now)) }
    {
        for seat in sent {
            self.follow(assignment, seat.0)?;
        }
        Ok(())
    }

    /// Watches these applicants, which are displaced.
    pub fn follow_displaced(
        &mut self,
        assignment: &Assignment<'_>,
        applicants: &[AppNo],
    ) -> Result<(), AllocError>
        requires { AreApplicantsOf assignment.now.market applicants.now }
        ensures couples { OnOk result (self.new.couples ≡ self.old.couples) }
        ensures singles { OnOk result (FollowsAll assignment.now self.old.singles self.new.singles applicants.now) }
        ensures better { OnOk result (CountsAll assignment.now self.old self.new applicants.now) }
    {
        for applicant in applicants {
            self.follow(assignment, *applicant)?;
        }
        Ok(())
    }

    /// Indexes the pairs that the agent which moved wants more than what it has, if it is a couple.
    pub fn index_mover(
        &mut self,
        assignment: &Assignment<'_>,
        agent: &Agent,
    ) -> Result<(), AllocError>
        requires agent { IsAgentOf assignment.now.market agent.now }
        requires counted { AreCounted assignment.now self.old.better.items }
        requires named { AreNamed assignment.now.market self.old.couples }
        ensures singles { OnOk result (self.new.singles ≡ self.old.singles) }
        ensures better { OnOk result (self.new.better ≡ self.old.better) }
        ensures named { OnOk result (AreNamed assignment.now.market self.new.couples) }
        ensures indexed { OnOk result (IndexesAgent self.old self.new agent.now) }
    {
        match agent {
            Agent::Single(_) => Ok(()),
            Agent::Couple(couple) => self.index_better(assignment, *couple),
        }
    }
}
