//! The best match of the singles, which the couples enter after.
ghost use Rattle.std.specs.Prelude.{◌≡◌, IfOk, IsTrue};
ghost use Rattle.mt_terms.specs.Best.{IsBest};
ghost use Rattle.mt_terms.specs.Stability.{fits};
ghost use Rattle.mt_ranks.specs.Ranked.{ranked_of};

use mt_core::{Floor, finish, result};
use mt_market::Roster;
use mt_ranks::Ranks;
use mt_terms::Match;
use std::alloc::{AllocError, Global};

/// The best match of the singles, made by one thread. The error is want of memory.
pub fn singles(alloc: Global, roster: &Roster, ranks: &Ranks) -> Result<Match, AllocError>
    requires { ranks.now ≡ ranked_of roster.now.market }
    ensures fits { IfOk result (λ m. IsTrue (fits roster.now.market m.places)) }
    ensures best { IfOk result (λ m. IsBest roster.now.market m.places) }
{
    roster.is_of_a_file();
    let mut floor = Floor::open(alloc, ranks)?;
    finish(&mut floor, ranks);
    let matched = result(alloc, &floor, ranks)?;
    Ok(matched)
}
