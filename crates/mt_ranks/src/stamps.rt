ghost use Rattle.std.specs.Prelude.{◌≡◌, ℕ, ◌+◌, ◌<◌, ◌^◌, length, IfSome};
ghost use Rattle.mt_ranks.specs.Entries.{AscendFrom, rank_among};
ghost use Rattle.mt_ranks.specs.Stamps.{AreBefore, AreShort, ProgramsWithin, rank_stamped};

use crate::packed::PackedLive;
use mt_terms::ProgNo;

/// A rank that was noted at a program, and in which turn, from 1. It holds in that turn alone.
#[derive(Clone, Copy)]
pub(crate) struct RankStamp {
    pub(crate) turn: u32,
    pub(crate) rank: u32,
}

/// Notes at each entry's program the entry's rank.
pub(crate) fn stamp_ranks(stamps: &mut [RankStamp], turn: u32, entries: &[PackedLive])
    requires ascend { AscendFrom 0 entries.now }
    requires within { ProgramsWithin (length stamps.old) entries.now }
    requires earlier { AreBefore turn stamps.old }
    requires short { AreShort stamps.old }
    ensures len { length stamps.new ≡ length stamps.old }
    ensures before { AreBefore (turn + 1) stamps.new }
    ensures short { AreShort stamps.new }
    ensures noted { (p : ℕ) → p < length stamps.old → rank_stamped stamps.new turn p ≡ rank_among entries.now p }
{
    for entry in entries {
        stamps[entry.program().index()] = RankStamp {
            turn,
            rank: entry.rank(),
        };
    }
}

/// The rank that was noted at the program in this turn.
pub(crate) fn rank_stamped_at(stamps: &[RankStamp], turn: u32, program: ProgNo) -> Option<u32>
    requires program { program < length stamps.now }
    requires short { AreShort stamps.now }
    ensures rank { result ≡ rank_stamped stamps.now turn program }
    ensures short { IfSome result (λ rank. rank < 2 ^ 17) }
{
    let stamp = stamps[program.index()];
    if stamp.turn == turn {
        Some(stamp.rank)
    } else {
        None
    }
}
