//! Rank tables of small markets.
ghost use Rattle.std.specs.Prelude.{◌≡◌};
ghost use Rattle.mt_ranks.specs.Ranked.{ranked_of};

use crate::markets::{SampleError, roster_of};
use mt_market::Roster;
use mt_ranks::Ranks;
use std::alloc::{AllocError, Global};
use std::thread::Threads;

/// Lends the market of a file that has no fault, and its rank tables, to a function, and gives what that gives.
pub fn with_ranks<R: Threads + Sync, A, F: FnOnce(&Roster, &Ranks<'_>) -> Result<A, AllocError>>(
    rt: &R,
    alloc: Global,
    file: &[u8],
    body: F,
) -> Result<A, SampleError>
    requires { (roster : _) (ranks : _) → ranks.now ≡ ranked_of roster.now.market → F.pre body roster ranks }
{
    let roster = roster_of(rt, alloc, file)?;
    let ranks = Ranks::build(rt, alloc, &roster)?;
    Ok(body(&roster, &ranks)?)
}
