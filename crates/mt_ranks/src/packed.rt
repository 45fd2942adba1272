ghost use Rattle.std.specs.Prelude.{◌≡◌, ◌<◌, ◌^◌};

use crate::entries::Live;
use mt_terms::ProgNo;
use std::marker::Model;

/// How many ranks a word has room for. A program lists at most 100,000 applicants.
const RANKS: u32 = 1 << 17;

/// An entry of a live list in one word, with the program above the rank. A market may have millions of entries, and a
/// word takes half the room of two numbers.
#[derive(Clone, Copy)]
pub struct PackedLive {
    word: u32,
}

impl Model for PackedLive {
    ghost use Rattle.mt_ranks.specs.declared.entries.Live.{Live};
    ghost use Rattle.mt_ranks.specs.Packed.{live_in, word_of};
    ghost use Rattle.std.specs.Prelude.{ℕ};
    ghost use Rattle.std.proofs.Common.{ap};
    ghost use Rattle.std.proofs.lemmas.Nat.{div-add-mod'};
    ghost use Rattle.mt_ranks.specs.declared.packed.TheConstants.{RANKS};

    ghost Value = { Live };

    ghost view = { λ packed. live_in packed.word };

    ghost inverse = { λ entry. record { word = word_of entry } };

    ghost inverse_ok = { λ packed valid. ap (λ (w : ℕ). record { word = w }) (div-add-mod' packed.word RANKS) };
}

impl PackedLive {
    /// The entry of the first program at its first rank.
    pub(crate) fn nothing() -> Self
        ensures { result ≡ record { program = 0; rank = 0 } }
    {
        PackedLive { word: 0 }
    }

    /// The entry of a program and a rank on its list.
    pub(crate) fn of(program: ProgNo, rank: u32) -> Self
        requires program { program < 2 ^ 15 }
        requires rank { rank < 2 ^ 17 }
        ensures { result ≡ record { program = program; rank = rank } }
    {
        PackedLive {
            word: program.0 * RANKS + rank,
        }
    }

    /// The program.
    pub(crate) fn program(self) -> ProgNo
        ensures { result ≡ self.program }
    {
        ProgNo(self.word / RANKS)
    }

    /// The rank on its list.
    pub(crate) fn rank(self) -> u32
        ensures rank { result ≡ self.rank }
        ensures short { result < 2 ^ 17 }
    {
        self.word % RANKS
    }

    /// The program and the rank apart.
    #[inline]
    pub fn unpacked(self) -> Live
        ensures { result ≡ self }
    {
        Live {
            program: self.program(),
            rank: self.rank(),
        }
    }
}
