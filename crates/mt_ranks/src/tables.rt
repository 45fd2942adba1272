ghost use Rattle.std.specs.Prelude.{◌≡◌, ℕ, ◌+◌, ◌<◌, ◌≤◌, false, [], All, length, is_some, slice_index_or, sum, ◌^◌, IfOk, IfSome};
ghost use Rattle.mt_terms.specs.Lists.{has};
ghost use Rattle.mt_terms.specs.Market.{applicants, program_of};
ghost use Rattle.mt_ranks.specs.Entries.{AscendFrom, all_times};
ghost use Rattle.mt_ranks.specs.Ranked.{IsRank, IsEntry, IsRanked, is_single_agent, rank_of, ranked_list, ranked_of, ranking_of};
ghost use Rattle.mt_ranks.specs.Stamps.{ProgramsWithin};
ghost use Rattle.mt_ranks.specs.Parts.{live_among, row_among, AreFirstParts, AreParts, HaveApplicant, IsPart};
ghost use Rattle.mt_ranks.specs.Rows.{listed_rows, row_of};

use crate::blocks::{BLOCKS, Block, block_of, block_size};
use crate::entries::{push_live, rank_at};
use crate::packed::PackedLive;
use crate::rows::Rows;
use crate::stamps::RankStamp;
use crate::transpose::{listed, of_block, transpose};
use mt_market::{FlatLists, Roster};
use mt_terms::{Agent, AppNo, ProgNo};
use rayon::{current_num_threads, join};
use std::alloc::{AllocError, Global};
use std::marker::Model;
use std::thread::Threads;

/// From how many entries on programs' lists on the blocks are made side by side.
const FEWEST: usize = 8192;

/// The tables of a block of applicants: its live lists with ranks, and all its ranks on the programs' lists.
#[derive(Drop)]
struct Part {
    rows: Rows,
    lists: FlatLists<PackedLive>,
}

/// The rank tables of a market, beside its roster, which keeps the programs' lists: live lists with ranks, and
/// every rank on the programs' lists. They show the singles' market with live lists alone, and who is a single.
#[derive(Drop)]
pub struct Ranks<'m> {
    roster: &'m Roster,
    size: usize,
    parts: Vec<Part>,
}

impl<'m> Model for Ranks<'m> {
    ghost use Rattle.mt_ranks.specs.Ranked.{Ranked};

    ghost Value = { Ranked };

    ghost use Rattle.mt_ranks.specs.View.{ranked_in, AreTables};

    ghost view = { ranked_in };

    ghost invariant = { AreTables };
}

/// Whether the agent is a single.
fn is_single(agent: Agent) -> bool
    ensures { result ≡ is_single_agent agent }
{
    match agent {
        Agent::Single(_) => true,
        Agent::Couple(_) => false,
    }
}

/// The live lists of the singles of a block, and an empty one for each member.
fn live_lists(
    alloc: Global,
    roster: &Roster,
    block: Block,
    rows: &Rows,
) -> Result<FlatLists<PackedLive>, AllocError>
    requires block { block.first + block.size ≤ applicants roster.now.market }
    requires rows { length rows.now.lists ≡ block.size }
    requires ascend { (k : ℕ) → AscendFrom 0 (row_of rows.now k) }
    requires within { (k : ℕ) → ProgramsWithin (length roster.now.market.programs) (row_of rows.now k) }
    ensures { IfOk result (λ lists. lists ≡ listed_rows roster.now.market block.first block.size rows.now) }
{
    let mut lists = FlatLists::with_capacity(alloc, block.size, rows.room())?;
    let mut stamps = Vec::from_elem(
        alloc,
        RankStamp { turn: 0, rank: 0 },
        roster.programs() as usize,
    )?;
    for place in 0..block.size {
        let applicant = AppNo((block.first + place) as u32);
        let turn = place as u32 + 1;
        push_live(
            &mut lists,
            &mut stamps,
            turn,
            roster.single_list(applicant),
            rows.row(place),
        )?;
    }
    Ok(lists)
}

/// The tables of the block of applicants with this number, in blocks of this size. `times` says how often the
/// programs list each applicant.
fn part_numbered(
    alloc: Global,
    roster: &Roster,
    times: &[usize],
    size: usize,
    number: usize,
) -> Result<Part, AllocError>
    requires times { times.now ≡ all_times roster.now.market }
    requires few { sum times.now < 2 ^ 64 }
    ensures { IfOk result (IsPart roster.now.market size number) }
{
    roster.is_of_a_file();
    let block = Block::numbered(number, size, times.len());
    let rows = transpose(alloc, roster, block, of_block(times, block))?;
    let lists = live_lists(alloc, roster, block, &rows)?;
    Ok(Part { rows, lists })
}

/// Whether the programs list the applicants with enough entries for threads. `times` says how often they list each.
fn are_many(times: &[usize]) -> bool {
    let mut entries: usize = 0;
    for count in times {
        entries = entries.saturating_add(*count);
    }
    entries >= FEWEST
}

/// The tables of all blocks of this size, made in turn.
fn parts_in_turn(
    alloc: Global,
    roster: &Roster,
    times: &[usize],
    size: usize,
) -> Result<Vec<Part>, AllocError>
    requires times { times.now ≡ all_times roster.now.market }
    requires few { sum times.now < 2 ^ 64 }
    ensures { IfOk result (λ v. AreParts roster.now.market size v.items) }
{
    let mut parts = Vec::new(alloc);
    for number in 0..BLOCKS {
        parts.push(part_numbered(alloc, roster, times, size, number)?)?;
    }
    Ok(parts)
}

/// The tables of the first `count` blocks of this size. This thread starts one for each block but the first, which it
/// makes itself. No new thread starts another: Linux may keep that one waiting on the processor of its starter.
#[cycle(parts)]
fn parts_below<R: Threads + Sync>(
    rt: &R,
    alloc: Global,
    roster: &Roster,
    times: &[usize],
    size: usize,
    count: usize,
) -> Result<Vec<Part>, AllocError>
    requires some { 0 < count }
    requires times { times.now ≡ all_times roster.now.market }
    requires few { sum times.now < 2 ^ 64 }
    ensures { IfOk result (λ v. AreFirstParts roster.now.market size count v.items) }
{
    let last = count - 1;
    if last == 0 {
        let mut parts = Vec::new(alloc);
        parts.push(part_numbered(alloc, roster, times, size, last)?)?;
        return Ok(parts);
    }
    let one = || -> Result<Part, AllocError>
        requires { (times.now ≡ all_times roster.now.market) × (sum times.now < 2 ^ 64) }
        ensures { IfOk result (IsPart roster.entry.now.market size last) }
    { part_numbered(alloc, roster, times, size, last) };
    let others = || -> Result<Vec<Part>, AllocError>
        requires { (0 < last) × (times.now ≡ all_times roster.now.market) × (sum times.now < 2 ^ 64) }
        ensures { IfOk result (λ v. AreFirstParts roster.entry.now.market size last v.items) }
    { parts_below(rt, alloc, roster, times, size, last) };
    let (part, parts) = join(rt, one, others);
    let mut parts = parts?;
    parts.push(part?)?;
    Ok(parts)
}

/// The tables of all blocks of this size, made side by side if the programs' lists are long.
fn all_parts<R: Threads + Sync>(
    rt: &R,
    alloc: Global,
    roster: &Roster,
    size: usize,
) -> Result<Vec<Part>, AllocError>
    ensures { IfOk result (λ v. AreParts roster.now.market size v.items) }
{
    let times = listed(alloc, roster)?;
    if are_many(&times) && current_num_threads(rt) > 1 {
        // Linux may keep the first thread that a young process starts on the processor of its starter, which waits for
        // it there. So the first one has nothing to do.
        let nothing = || {};
        let parts = || -> Result<Vec<Part>, AllocError>
            requires { (times.items ≡ all_times roster.now.market) × (sum times.items < 2 ^ 64) }
            ensures { IfOk result (λ v. AreParts roster.entry.now.market size v.items) }
        { parts_below(rt, alloc, roster, &times, size, BLOCKS) };
        let (_, parts) = join(rt, nothing, parts);
        parts
    } else {
        parts_in_turn(alloc, roster, &times, size)
    }
}

/// The live list of an applicant, among the tables of all blocks of this size.
fn live_among(size: usize, parts: &[Part], applicant: AppNo) -> &[PackedLive]
    requires { HaveApplicant size parts.now applicant }
    ensures { result.now ≡ live_among size parts.now applicant }
{
    let index = applicant.index();
    let block = block_of(size, index);
    parts[block].lists.list(index - block * size)
}

/// The row of an applicant, among the tables of all blocks of this size.
fn row_among(size: usize, parts: &[Part], applicant: AppNo) -> &[PackedLive]
    requires { HaveApplicant size parts.now applicant }
    ensures { result.now ≡ row_among size parts.now applicant }
{
    let index = applicant.index();
    let block = block_of(size, index);
    parts[block].rows.row(index - block * size)
}

impl<'m> Ranks<'m> {
    /// The rank tables of a roster. The only error is want of memory.
    pub fn build<R: Threads + Sync>(
        rt: &R,
        alloc: Global,
        roster: &'m Roster,
    ) -> Result<Ranks<'m>, AllocError>
        ensures { IfOk result (λ ranks. ranks ≡ ranked_of roster.now.market) }
    {
        let size = block_size(roster.applicants() as usize, current_num_threads(rt));
        let parts = all_parts(rt, alloc, roster, size)?;
        Ok(Ranks {
            roster,
            size,
            parts,
        })
    }

    /// How many applicants there are, members of couples included.
    pub fn applicants(&self) -> u32
        ensures count { result ≡ applicants self.now.market }
        ensures ranked { IsRanked self.now }
    {
        self.roster.applicants()
    }

    /// How many programs there are.
    pub fn programs(&self) -> u32
        ensures count { result ≡ length self.now.market.programs }
        ensures ranked { IsRanked self.now }
    {
        self.roster.programs()
    }

    /// How many posts the program has.
    pub fn quota(&self, program: ProgNo) -> u32
        requires { program < length self.now.market.programs }
        ensures { result ≡ (program_of self.now.market program).quota }
    {
        self.roster.quota(program)
    }

    /// Whether the applicant is a single, and no member of a couple. A number that no applicant has is not
    /// one.
    pub fn is_single(&self, applicant: AppNo) -> bool
        ensures { result ≡ slice_index_or self.now.singles applicant false }
    {
        applicant.0 < self.roster.applicants() && is_single(self.roster.agent_of(applicant))
    }

    /// The applicant's live list: the programs on its list that list it too, the most wanted first, with its
    /// rank on each. It is empty for a couple's member.
    pub fn live(&self, applicant: AppNo) -> &[PackedLive]
        requires { applicant < applicants self.now.market }
        ensures list { result.now ≡ ranked_list self.now.market applicant }
        ensures entries { All (IsEntry self.now.market applicant) result.now }
        ensures member { slice_index_or self.now.singles applicant false ≡ false → result.now ≡ [] }
    {
        live_among(self.size, &self.parts, applicant)
    }

    /// The applicants that the program lists, by their ranks: the most wanted first.
    pub fn by_rank(&self, program: ProgNo) -> &[AppNo]
        requires { program < length self.now.market.programs }
        ensures { result.now ≡ (program_of self.now.market program).ranking }
    {
        self.roster.program_list(program)
    }

    /// The applicant's rank on the program's list, its position from 0, if the list has it.
    pub fn rank(&self, program: ProgNo, applicant: AppNo) -> Option<u32>
        requires program { program < length self.now.market.programs }
        requires applicant { applicant < applicants self.now.market }
        ensures position { result ≡ rank_of self.now.market program applicant }
        ensures listed { is_some result ≡ has (ranking_of self.now.market program) applicant }
        ensures found { IfSome result (IsRank (ranking_of self.now.market program) applicant) }
    {
        rank_at(row_among(self.size, &self.parts, applicant), program)
    }
}
