ghost use Rattle.std.specs.Prelude.{◌≡◌, ℕ, ◌+◌, ◌<◌, ◌≤◌, ◌^◌, length, map, slice_range, sum, IfOk, IsTrue};
ghost use Rattle.mt_terms.specs.Lists.{has, below};
ghost use Rattle.mt_terms.specs.Market.{applicants};
ghost use Rattle.mt_ranks.specs.Entries.{all_times, own_entries, CanBeCounted, IsCounted, ListedTimes};
ghost use Rattle.mt_ranks.specs.Rows.{HasRoomFor, IsEnteredFor};

use crate::blocks::Block;
use crate::packed::PackedLive;
use crate::rows::Rows;
use mt_market::Roster;
use mt_terms::{AppNo, ProgNo};
use std::alloc::{AllocError, Global};

/// Counts each applicant that a program lists.
fn count_listed(counts: &mut [usize], ranking: &[AppNo])
    requires within { (a : ℕ) → IsTrue (has ranking.now a) → a < length counts.old }
    requires fits { CanBeCounted counts.old ranking.now }
    ensures { IsCounted counts.old counts.new ranking.now }
{
    for applicant in ranking {
        counts[applicant.index()] += 1;
    }
}

/// How many programs list each applicant.
pub(crate) fn listed(alloc: Global, roster: &Roster) -> Result<Vec<usize>, AllocError>
    ensures few { IfOk result (λ v. sum v.items < 2 ^ 64) }
    ensures times { IfOk result (λ v. v.items ≡ all_times roster.now.market) }
{
    let mut counts = Vec::from_elem(alloc, 0usize, roster.applicants() as usize)?;
    for program in 0..roster.programs() {
        count_listed(&mut counts, roster.program_list(ProgNo(program)));
    }
    Ok(counts)
}

/// The numbers for the applicants of a block, among those for all applicants.
pub(crate) fn of_block(numbers: &[usize], block: Block) -> &[usize]
    requires { block.first + block.size ≤ length numbers.now }
    ensures { result.now ≡ slice_range numbers.now block.first (block.first + block.size) }
{
    let end = block.first + block.size;
    &numbers[block.first..end]
}

/// Adds to the rows of those applicants of a block that a program lists their ranks there.
fn add_ranking(rows: &mut Rows, block: Block, program: ProgNo, ranking: &[AppNo])
    requires size { length rows.old.lists ≡ block.size }
    requires block { block.first + block.size ≤ 2 ^ 64 }
    requires room { HasRoomFor block.first rows.old ranking.now }
    requires program { program < 2 ^ 15 }
    requires short { length ranking.now ≤ 2 ^ 17 }
    ensures sizes { rows.new.sizes ≡ rows.old.sizes }
    ensures len { length rows.new.lists ≡ length rows.old.lists }
    ensures rows { IsEnteredFor block.first rows.old rows.new program ranking.now }
{
    for (rank, applicant) in ranking.iter().enumerate() {
        if let Some(place) = block.place(*applicant) {
            rows.push(place, PackedLive::of(program, rank as u32));
        }
    }
}

/// For each applicant of a block the programs that list it, in their order, with its rank on each. `sizes` says how
/// many programs list each applicant.
pub(crate) fn transpose(
    alloc: Global,
    roster: &Roster,
    block: Block,
    sizes: &[usize],
) -> Result<Rows, AllocError>
    requires sizes { ListedTimes roster.now.market block.first block.size sizes.now }
    requires block { block.first + block.size ≤ applicants roster.now.market }
    requires few { sum sizes.now < 2 ^ 64 }
    ensures { let m = roster.now.market in
        IfOk result (λ v. v.lists ≡ map (λ k. own_entries m (block.first + k)) (below block.size)) }
{
    let mut rows = Rows::with_sizes(alloc, sizes)?;
    if block.size == 0 {
        return Ok(rows);
    }
    for program in 0..roster.programs() {
        let program = ProgNo(program);
        add_ranking(&mut rows, block, program, roster.program_list(program));
    }
    Ok(rows)
}
