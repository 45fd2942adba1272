ghost use Rattle.std.specs.Prelude.{◌≡◌, ◌++◌, ◌<◌, ℕ, Some, None, [], is_some, length, slice_index, IfOk, IfSome, IsTrue, OnOk, nat_lt};
ghost use Rattle.mt_terms.specs.Registration.Accepted.{IsRegistration};
ghost use Rattle.mt_terms.specs.Lists.{has};
ghost use Rattle.mt_terms.specs.Market.{agent_of, applicants, couple_of, program_of, IsAgentOf};
ghost use Rattle.mt_terms.specs.Matching.{place_of, ranks_by_program};
ghost use Rattle.mt_ranks.specs.Ranked.{rank_of, ranked_of};
ghost use Rattle.mt_terms.specs.Places.{ArePlaces};
ghost use Rattle.mt_assignment.specs.Watched.{better_entries, entries_until, has_entry_at, other_entries, AreUnwatched, AreWatched, IsRankAtPlace, Watches};
ghost use Rattle.mt_stage_tables.specs.Ranks.{HavePlaced};
ghost use Rattle.mt_assignment.specs.Assigned.{ahead, assignment, displaced_from, with_place, with_ranks, AreApplicantsOf, AreListed, IsAssigned};

use mt_bits::RankTable;
use mt_market::Roster;
use mt_ranks::{PackedLive, Ranks};
use mt_stage_tables::{Pair, PlacedRanks};
use mt_terms::{Agent, AppNo, CoupleNo, Match, Places, ProgNo};
use std::alloc::{AllocError, Global};
use std::marker::Model;

/// Where the applicant is placed.
fn place_in(places: &[Option<ProgNo>], applicant: AppNo) -> Option<ProgNo>
    ensures { result ≡ place_of places.now applicant }
{
    places.get(applicant.index()).copied().flatten()
}

/// A set of ranks for each program's list, with none in it. The error is want of memory.
pub fn no_ranks(alloc: Global, roster: &Roster) -> Result<RankTable, AllocError>
    ensures { IfOk result (λ t. AreUnwatched roster.now.market t) }
{
    let mut table = RankTable::new(alloc);
    for number in 0..roster.programs() {
        table.push_list(roster.program_list(ProgNo(number)).len())?;
    }
    Ok(table)
}

/// How many may be at a program with this quota and a list of this length in the midst of a round. Two come before
/// others go.
fn most_placed(quota: u32, listed: usize) -> usize {
    listed.min((quota as usize).saturating_add(2))
}

/// Watches the applicant at the programs of its live list before its place, or at all of them if its place isn't on
/// it. The result is its rank at its place, if that was found on the way.
fn watch_wanted(
    ranks: &Ranks<'_>,
    applicant: AppNo,
    place: Option<ProgNo>,
    watched: &mut RankTable,
) -> Result<Option<u32>, AllocError>
    requires applicant { applicant < applicants ranks.now.market }
    requires one_each { length watched.old ≡ length ranks.now.market.programs }
    ensures watched { OnOk result (Watches watched.old watched.new (entries_until ranks.now.market applicant place)) }
    ensures is_found { IfOk result (λ o. is_some o ≡ has_entry_at ranks.now.market applicant place) }
    ensures found { IfOk result (λ o. IfSome o (IsRankAtPlace ranks.now.market applicant place)) }
{
    for entry in ranks.live(applicant) {
        let entry = entry.unpacked();
        if place == Some(entry.program) {
            return Ok(Some(entry.rank));
        }
        watched.insert(entry.program.index(), entry.rank)?;
    }
    Ok(None)
}

/// The applicant's rank on a program's list, which may have been found before. A single that is placed there has it
/// among its live entries, mostly near the front. If they don't have it, the list is asked.
fn placed_rank(
    ranks: &Ranks<'_>,
    program: ProgNo,
    applicant: AppNo,
    found: Option<u32>,
) -> Option<u32>
    requires program { program < length ranks.now.market.programs }
    requires applicant { applicant < applicants ranks.now.market }
    requires found { IfSome found (λ r. rank_of ranks.now.market program applicant ≡ Some r) }
    ensures { result ≡ rank_of ranks.now.market program applicant }
{
    match found {
        Some(rank) => Some(rank),
        None => ranks.rank(program, applicant),
    }
}

/// The applicant's rank on a program's list. A single that moves has the program among its live entries, mostly near
/// the front, and these were read a moment ago. If they don't have it, the list is asked.
fn live_rank(ranks: &Ranks<'_>, program: ProgNo, applicant: AppNo) -> Option<u32>
    requires program { program < length ranks.now.market.programs }
    requires applicant { applicant < applicants ranks.now.market }
    ensures position { result ≡ rank_of ranks.now.market program applicant }
{
    for entry in ranks.live(applicant) {
        let entry = entry.unpacked();
        if entry.program == program {
            return Some(entry.rank);
        }
    }
    ranks.rank(program, applicant)
}

/// The set of the ranks that are placed at each program. The singles are also watched at the programs that they want
/// more than what they have. Each applicant is asked where it is, and its live list is read once up to there. No
/// program's list is read.
fn placed_ranks(
    alloc: Global,
    roster: &Roster,
    ranks: &Ranks<'_>,
    places: &[Option<ProgNo>],
    watched: &mut RankTable,
) -> Result<RankTable, AllocError>
    requires ranks { ranks.now ≡ ranked_of roster.now.market }
    requires places { ArePlaces roster.now.market places.now }
    requires listed { AreListed roster.now.market places.now }
    requires unwatched { AreUnwatched roster.now.market watched.old }
    ensures placed { IfOk result (λ t. HavePlaced roster.now.market places.now t) }
    ensures watched { OnOk result (AreWatched (assignment roster.now.market places.now) watched.new) }
{
    let mut table = no_ranks(alloc, roster)?;
    for number in 0..roster.applicants() {
        let applicant = AppNo(number);
        let place = place_in(places, applicant);
        let found = watch_wanted(ranks, applicant, place, watched)?;
        if let Some(program) = &place {
            if let Some(rank) = placed_rank(ranks, *program, applicant, found) {
                table.insert(program.index(), rank)?;
            }
        }
    }
    Ok(table)
}

/// The ranks of those that are placed at each program, in rising order. The singles are also watched.
fn placed_rows(
    alloc: Global,
    roster: &Roster,
    ranks: &Ranks<'_>,
    places: &[Option<ProgNo>],
    watched: &mut RankTable,
) -> Result<Vec<PlacedRanks>, AllocError>
    requires ranks { ranks.now ≡ ranked_of roster.now.market }
    requires places { ArePlaces roster.now.market places.now }
    requires listed { AreListed roster.now.market places.now }
    requires unwatched { AreUnwatched roster.now.market watched.old }
    ensures rows { IfOk result (λ v. v.items ≡ ranks_by_program roster.now.market places.now) }
    ensures watched { OnOk result (AreWatched (assignment roster.now.market places.now) watched.new) }
    ensures roster { IsRegistration roster.now }
{
    let programs = roster.programs();
    let table = placed_ranks(alloc, roster, ranks, places, watched)?;
    let mut rows = Vec::with_capacity(alloc, programs as usize)?;
    for number in 0..programs {
        let program = ProgNo(number);
        let room = most_placed(roster.quota(program), roster.program_list(program).len());
        rows.push(PlacedRanks::of_row(alloc, &table.row(program.index()), room)?)?;
    }
    Ok(rows)
}

/// Adds the applicants that have these ranks on a program's list.
fn add_ranked(ranking: &[AppNo], ranks: &[u32], out: &mut Vec<AppNo>) -> Result<(), AllocError>
    requires { (i : ℕ) → i < length ranks.now → slice_index ranks.now i < length ranking.now }
    ensures { OnOk result (out.new.items ≡ out.old.items ++ with_ranks ranking.now ranks.now) }
{
    for rank in ranks {
        out.push(ranking[*rank as usize])?;
    }
    Ok(())
}

/// A match beside the market that it is of: where each applicant is placed, and for each program the ranks of
/// those that are placed there.
pub struct Assignment<'a> {
    roster: &'a Roster,
    ranks: &'a Ranks<'a>,
    places: Vec<Option<ProgNo>>,
    rows: Vec<PlacedRanks>,
}

impl Drop for Assignment<'_> {
    fn drop(self) {
        let Assignment {
            roster: _,
            ranks: _,
            places: _,
            rows: _,
        } = self;
    }
}

impl<'a> Model for Assignment<'a> {
    ghost use Rattle.mt_terms.specs.Matching.{placed_ranks};
    ghost use Rattle.mt_assignment.specs.Assigned.{Assigned};

    ghost Value = { Assigned };

    ghost use Rattle.mt_assignment.specs.View.{assigned_of, AreTables};

    ghost view = { assigned_of };

    ghost invariant = { AreTables };
}

impl<'a> Assignment<'a> {
    /// The match beside its market. The singles are watched at the programs that they want more than what they have.
    /// The error is want of memory.
    pub fn new(
        alloc: Global,
        roster: &'a Roster,
        ranks: &'a Ranks<'a>,
        matched: Match,
        watched: &mut RankTable,
    ) -> Result<Self, AllocError>
        requires ranks { ranks.now ≡ ranked_of roster.now.market }
        requires places { ArePlaces roster.now.market matched.places }
        requires listed { AreListed roster.now.market matched.places }
        requires unwatched { AreUnwatched roster.now.market watched.old }
        ensures assignment { IfOk result (λ s. s ≡ assignment roster.entry.now.market matched.places) }
        ensures watched { OnOk result (AreWatched (assignment roster.entry.now.market matched.places) watched.new) }
    {
        let rows = placed_rows(alloc, roster, ranks, matched.places.as_slice(), watched)?;
        Ok(Assignment {
            roster,
            ranks,
            places: matched.places.into_vec(),
            rows,
        })
    }

    /// The match alone.
    pub fn into_match(self) -> Match
        ensures { result.places ≡ self.entry.places }
    {
        let Assignment {
            roster: _,
            ranks: _,
            places,
            rows: _,
        } = self;
        Match {
            places: Places::new(places),
        }
    }

    /// The market.
    pub fn roster(&self) -> &'a Roster
        ensures market { result.now.market ≡ self.now.market }
        ensures roster { IsRegistration result.now }
        ensures assigned { IsAssigned self.now }
    {
        self.roster
    }

    /// The agent that the applicant belongs to.
    pub fn agent_of(&self, applicant: AppNo) -> Agent
        requires { applicant < applicants self.now.market }
        ensures agent { result ≡ agent_of self.now.market applicant }
        ensures within { IsAgentOf self.now.market result }
    {
        self.roster.agent_of(applicant)
    }

    /// The couple's two members.
    pub fn members(&self, couple: CoupleNo) -> (AppNo, AppNo)
        requires { couple < length self.now.market.couples }
        ensures first { result.0 ≡ (couple_of self.now.market couple).first }
        ensures second { result.1 ≡ (couple_of self.now.market couple).second }
        ensures first_within { result.0 < applicants self.now.market }
        ensures second_within { result.1 < applicants self.now.market }
    {
        self.roster.members(couple)
    }

    /// Where each applicant is placed, by number.
    pub fn places(&self) -> &[Option<ProgNo>]
        ensures { result.now ≡ self.now.places }
    {
        &self.places
    }

    /// Where the applicant is placed.
    pub(crate) fn place(&self, applicant: AppNo) -> Option<ProgNo>
        ensures { result ≡ place_of self.now.places applicant }
    {
        place_in(&self.places, applicant)
    }

    /// The pairs of the couple's list, the most wanted first.
    pub fn pairs(&self, couple: CoupleNo) -> &'a [Pair]
        requires { couple < length self.now.market.couples }
        ensures { result.now ≡ (couple_of self.now.market couple).pairs }
    {
        self.roster.couple_list(couple)
    }

    /// The live entries of the single, with its rank on each: those that are better than what it has, and the others.
    pub fn live_parts(&self, single: AppNo) -> (&'a [PackedLive], &'a [PackedLive])
        requires { single < applicants self.now.market }
        ensures better { result.0.now ≡ better_entries self.now single }
        ensures others { result.1.now ≡ other_entries self.now single }
        ensures assigned { IsAssigned self.now }
    {
        let live = self.ranks.live(single);
        let Some(place) = self.place(single) else {
            return (live, &[]);
        };
        for (end, entry) in live.iter().enumerate() {
            if place == entry.unpacked().program {
                return live.split_at(end);
            }
        }
        (live, &[])
    }

    /// The live entries of the single that are better than what it has, with its rank on each.
    pub(crate) fn better_live(&self, single: AppNo) -> &'a [PackedLive]
        requires { single < applicants self.now.market }
        ensures list { result.now ≡ better_entries self.now single }
        ensures assigned { IsAssigned self.now }
    {
        self.live_parts(single).0
    }

    /// The applicants that the program lists, the most wanted first.
    pub fn ranking(&self, program: ProgNo) -> &'a [AppNo]
        requires { program < length self.now.market.programs }
        ensures list { result.now ≡ (program_of self.now.market program).ranking }
        ensures within { AreApplicantsOf self.now.market result.now }
        ensures assigned { IsAssigned self.now }
    {
        self.ranks.by_rank(program)
    }

    /// How many posts the program has.
    pub(crate) fn quota(&self, program: ProgNo) -> u32
        requires { program < length self.now.market.programs }
        ensures { result ≡ (program_of self.now.market program).quota }
    {
        self.ranks.quota(program)
    }

    /// The applicant's rank on the program's list, its position from 0. A number that no program has lists
    /// nobody.
    pub fn rank(&self, program: ProgNo, applicant: AppNo) -> Option<u32>
        requires { applicant < applicants self.now.market }
        ensures position { result ≡ rank_of self.now.market program applicant }
        ensures assigned { IsAssigned self.now }
    {
        if program.0 < self.ranks.programs() {
            self.ranks.rank(program, applicant)
        } else {
            None
        }
    }

    /// Whether fewer than `most` of those at the program have a rank below this one.
    pub(crate) fn has_fewer_ahead(&self, program: ProgNo, rank: u32, most: usize) -> bool
        requires { program < length self.now.market.programs }
        ensures fewer { result ≡ nat_lt (ahead self.now program rank) most }
        ensures assigned { IsAssigned self.now }
    {
        let row = &self.rows[program.index()];
        row.has_fewer_below(rank, most)
    }

    /// Unplaces the applicant.
    pub(crate) fn unplace(&mut self, applicant: AppNo)
        requires { applicant < applicants self.old.market }
        ensures moved { self.new ≡ with_place self.old applicant None }
        ensures unplaced { place_of self.new.places applicant ≡ None }
    {
        if let Some(program) = place_in(&self.places, applicant) {
            if let Some(rank) = live_rank(self.ranks, program, applicant) {
                let row = &mut self.rows[program.index()];
                row.remove(rank);
            }
        }
        self.places[applicant.index()] = None;
    }

    /// Places the applicant, which is unplaced, at a program that lists it.
    pub(crate) fn put(&mut self, applicant: AppNo, program: ProgNo) -> Result<(), AllocError>
        requires applicant { applicant < applicants self.old.market }
        requires program { program < length self.old.market.programs }
        requires listed { IsTrue (has (program_of self.old.market program).ranking applicant) }
        requires unplaced { place_of self.old.places applicant ≡ None }
        ensures { OnOk result (self.new ≡ with_place self.old applicant (Some program)) }
    {
        if let Some(rank) = live_rank(self.ranks, program, applicant) {
            let row = &mut self.rows[program.index()];
            row.insert(rank)?;
        }
        self.places[applicant.index()] = Some(program);
        Ok(())
    }

    /// Adds those at the program that it doesn't choose, by its list.
    pub(crate) fn add_displaced(
        &self,
        program: ProgNo,
        out: &mut Vec<AppNo>,
    ) -> Result<(), AllocError>
        requires { program < length self.now.market.programs }
        ensures { OnOk result (out.new.items ≡ out.old.items ++ displaced_from self.now program) }
    {
        let quota = self.ranks.quota(program) as usize;
        let row = &self.rows[program.index()];
        add_ranked(self.ranks.by_rank(program), row.beyond(quota), out)
    }
}
