ghost use Rattle.std.specs.Prelude.{◌≡◌, ◌<◌, ◌≤◌, length, IsTrue, IfErr, IfOk, None, Some};
ghost use Rattle.std.specs.Thread.{IsSync};
ghost use Rattle.mt_terms.specs.Rounds.{stage};
ghost use Rattle.mt_terms.specs.Stability.{fits};
ghost use Rattle.mt_entry.specs.Ended.{IfSpent, IsSpent};
ghost use Rattle.mt_entry.specs.Reaching.{IsStuck, Leads, MayEnter};

use crate::ends::{CoupleEnd, Entered, Reached};
use crate::market::RankedMarket;
use mt_terms::Match;
use std::alloc::{AllocError, Global};
use std::thread::Threads;

/// What lets couples enter a match of the singles, in order of their numbers (Roth and Peranson 1999).
pub trait CouplesStage {
    /// Lets all couples enter. One error is that more rounds than `budget` would be needed, and the other is want of
    /// memory. In both the given match is gone.
    fn enter_all<R: Threads + Sync>(
        rt: &R,
        alloc: Global,
        market: RankedMarket<'_>,
        singles: Match,
        budget: u32,
    ) -> Result<Entered, CoupleEnd>
        requires sync { IsSync R.row }
        requires market { MayEnter market singles.places }
        ensures entered { IfOk result (λ e.
            stage market.entry.roster.now.market singles.places budget ≡ Some (e.matched.places, e.rounds)) }
        ensures spent { IfErr result (λ e.
            IfSpent e (λ _. stage market.entry.roster.now.market singles.places budget ≡ None)) }
        ensures far { IfErr result (λ e.
            IfSpent e (IsSpent market.entry.roster.now.market singles.places budget)) };

    /// Lets the couples below a number go on to enter, from a match that some of them have entered. It ends before the
    /// first couple whose rounds don't end within what is left of the budget. The only error is want of memory.
    fn enter_from<R: Threads + Sync>(
        rt: &R,
        alloc: Global,
        market: RankedMarket<'_>,
        start: Reached,
        until: u32,
    ) -> Result<Reached, AllocError>
        requires sync { IsSync R.row }
        requires market { MayEnter market start.matched.places }
        requires order { start.entered ≤ until }
        requires couples { until ≤ length market.roster.now.market.couples }
        ensures leads { IfOk result (Leads market.entry.roster.now.market start) }
        ensures within { IfOk result (λ r. r.entered ≤ until) }
        ensures stuck { IfOk result (λ r. r.entered < until → IsStuck market.entry.roster.now.market r) }
        ensures fits { IfOk result (λ r. IsTrue (fits market.entry.roster.now.market r.matched.places)) };
}
