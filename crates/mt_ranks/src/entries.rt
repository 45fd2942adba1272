ghost use Rattle.std.specs.Prelude.{◌≡◌, ℕ, ◌+◌, ◌<◌, ◌≤◌, ◌^◌, ◌++◌, ◌∷◌, [], length, IsTrue, OnOk};
ghost use Rattle.mt_ranks.specs.Entries.{AscendFrom, rank_among, entries_among};
ghost use Rattle.mt_ranks.specs.Stamps.{AreBefore, AreShort, ProgramsWithin};
ghost use Rattle.mt_terms.specs.Lists.{has};

use crate::packed::PackedLive;
use crate::stamps::{RankStamp, rank_stamped_at, stamp_ranks};
use mt_market::FlatLists;
use mt_terms::ProgNo;
use std::alloc::AllocError;

/// An entry of a live list: a program that lists the applicant, and the applicant's rank there, its position
/// from 0 on the program's list.
#[derive(Clone, Copy)]
pub struct Live {
    pub program: ProgNo,
    pub rank: u32,
}

/// The rank at the program, among entries in the order of their programs.
pub(crate) fn rank_at(entries: &[PackedLive], program: ProgNo) -> Option<u32>
    requires { AscendFrom 0 entries.now }
    ensures { result ≡ rank_among entries.now program }
{
    match entries.binary_search_by_key(&program.index(), |entry| entry.program().index()) {
        Ok(place) => Some(entries[place].rank()),
        Err(_) => None,
    }
}

/// Adds, as a list of its own, the entries of those programs on an applicant's list that list it too. They are noted
/// in a turn of their own.
pub(crate) fn push_live(
    lists: &mut FlatLists<PackedLive>,
    stamps: &mut [RankStamp],
    turn: u32,
    list: &[ProgNo],
    entries: &[PackedLive],
) -> Result<(), AllocError>
    requires ascend { AscendFrom 0 entries.now }
    requires entries { ProgramsWithin (length stamps.old) entries.now }
    requires list { (p : ℕ) → IsTrue (has list.now p) → p < length stamps.old }
    requires earlier { AreBefore turn stamps.old }
    requires few { length stamps.old ≤ 2 ^ 15 }
    requires short { AreShort stamps.old }
    ensures listed { OnOk result (lists.new ≡ lists.old ++ entries_among entries.now list.now ∷ []) }
    ensures len { length stamps.new ≡ length stamps.old }
    ensures before { AreBefore (turn + 1) stamps.new }
    ensures short { AreShort stamps.new }
{
    stamp_ranks(stamps, turn, entries);
    lists.begin()?;
    for program in list {
        if let Some(rank) = rank_stamped_at(stamps, turn, *program) {
            lists.push(PackedLive::of(*program, rank))?;
        }
    }
    Ok(())
}
