ghost use Rattle.std.specs.Prelude.{◌≡◌, ◌==◌, ◌||◌, ◌<◌, ℕ, length};
ghost use Rattle.mt_terms.specs.Market.{program_of};
ghost use Rattle.mt_terms.specs.WellFormed.{IsWellFormed};
ghost use Rattle.mt_hold.specs.Holding.{received_count};
ghost use Rattle.mt_ranks.specs.Ranked.{IsRank, ranking_of};
ghost use Rattle.mt_hold.specs.Replies.{reply_to};
ghost use Rattle.mt_desks.specs.Parts.{IsComer, IsDoor, RefusedAreExcluded, received_at, held_at};
ghost use Rattle.mt_desks.specs.Steps.{is_kept, ShowsExcluded};

use crate::name::HallName;
use mt_hold::{Hold, Taken};
use mt_ranks::Ranks;
use mt_terms::{AppNo, ProgNo, Reply};
use std::marker::{Model, PhantomData};

/// The door of a program: from whom it received a proposal, and whom it holds.
#[derive(Drop)]
pub struct Door<K: HallName> {
    pub(crate) program: ProgNo,
    pub(crate) hold: Hold,
    pub(crate) name: PhantomData<K>,
}

impl<K: HallName> Model for Door<K> {
    ghost use Rattle.mt_desks.specs.Parts.{DoorView, IsDoor};

    ghost Value = { DoorView };

    ghost view = { λ d. record { program = d.program; holding = d.hold } };

    ghost invariant = { λ d. IsDoor K.ranked.market (record { program = d.program; holding = d.hold }) };
}

impl<K: HallName> Door<K> {
    /// Whose door it is.
    pub fn program(&self) -> ProgNo
        ensures { result ≡ self.now.program }
    {
        self.program
    }

    /// How many applicants the program has received a proposal from. For each of them all live entries above the program
    /// are excluded. So the program itself is excluded for those that it doesn't hold.
    pub fn received(&self) -> u32
        ensures received { result ≡ received_count self.now.holding }
        ensures keeps { IsDoor K.ranked.market self.now }
        ensures refused { let m = K.ranked.market in
            IsWellFormed m → RefusedAreExcluded m self.now }
    {
        self.hold.count()
    }

    /// Receives the applicant, who has this rank on the program's list, unless the door did so before. The reply
    /// says, as an event would, whether the program then holds the applicant, and which one it displaced for that.
    pub(crate) fn meet(&mut self, ranks: &Ranks, applicant: AppNo, rank: u32) -> Reply
        requires ranks { ranks.now ≡ K.ranked }
        requires program { self.old.program < length K.ranked.market.programs }
        requires rank { IsRank (ranking_of K.ranked.market self.old.program) applicant rank }
        requires comer { IsComer K.ranked.market applicant self.old.program }
        ensures program { self.new.program ≡ self.old.program }
        ensures received { (b : ℕ) → received_at K.ranked.market self.new b
            ≡ ((b == applicant) || received_at K.ranked.market self.old b) }
        ensures reply { let m = K.ranked.market in
            result ≡ reply_to (program_of m self.old.program) (received_at m self.old) applicant }
        ensures held { held_at K.ranked.market self.new applicant ≡ is_kept result }
        ensures excluded { ShowsExcluded K.ranked.market applicant self.old.program result }
    {
        ranks.applicants();
        if self.hold.received(rank) {
            return if self.hold.holds(rank) {
                Reply::Kept
            } else {
                Reply::Refused
            };
        }
        match self.hold.propose(rank) {
            Taken::Kept => Reply::Kept,
            Taken::KeptInstead(other) => {
                Reply::KeptInstead(ranks.by_rank(self.program)[other as usize])
            }
            Taken::Refused => Reply::Refused,
        }
    }
}
