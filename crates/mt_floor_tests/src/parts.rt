//! What a caller with threads of its own knows of the parts of a hall that it has in hand, from public clauses alone.
ghost use Rattle.std.specs.Prelude.{◌≡◌, ℕ, IsTrue};
ghost use Rattle.mt_desks.specs.Parts.{AllAboveExcluded, RefusedAreExcluded, received_at};

use mt_hall::{Door, HallName, Pass};
use mt_ranks::Ranks;
use mt_terms::ProgNo;

// How many proposals the pass has, added up program by program.
pub(crate) fn sum_by_program<K: HallName>(ranks: &Ranks, pass: &Pass<K>) -> u64
    requires { ranks.now ≡ K.ranked }
    ensures { result ≡ pass.now.proposals }
{
    pass.proposals();
    let mut all = 0;
    for program in 0..ranks.programs() {
        all += pass.proposed(ProgNo(program));
    }
    all
}

// How many applicants have come to the door. For each of them all live entries above the program are excluded. The
// program itself is excluded for those that it doesn't hold.
pub(crate) fn came_to<K: HallName>(ranks: &Ranks, door: &Door<K>) -> u32
    requires { ranks.now ≡ K.ranked }
    ensures above { (a : ℕ) → IsTrue (received_at K.ranked.market door.now a)
        → AllAboveExcluded K.ranked.market a door.now.program }
    ensures refused { RefusedAreExcluded K.ranked.market door.now }
{
    ranks.applicants();
    door.received()
}
