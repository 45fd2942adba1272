ghost use Rattle.std.specs.Prelude.{◌≡◌, ◌<◌, ◌≤◌, length, IsTrue, IfErr, IfOk, Some, None};
ghost use Rattle.mt_terms.specs.Rounds.{stage};
ghost use Rattle.mt_terms.specs.Best.{IsBest};
ghost use Rattle.mt_terms.specs.Stability.{fits, stable};
ghost use Rattle.mt_ranks.specs.Ranked.{ranked_of};
ghost use Rattle.mt_entry.specs.Ended.{IfSpent, IsSpent};
ghost use Rattle.mt_entry.specs.Reaching.{IsStuck, Leads};

use crate::rounds::Stage;
use mt_entry::{CoupleEnd, CouplesStage, Entered, RankedMarket, Reached};
use mt_market::Roster;
use mt_ranks::Ranks;
use mt_terms::{CoupleNo, Match};
use std::alloc::{AllocError, Global};
use std::thread::Threads;

/// Lets the couples enter a match of the singles, in order of their numbers (Roth and Peranson 1999). The order of the
/// rounds is this project's own rule.
///
/// A couple is put on the empty work list, and rounds are made until that is empty. The first agent on it takes its first
/// better option that would be taken. An applicant that it displaces leaves with its whole couple. Agents for which that
/// may open an option are rechecked.
///
/// One error is that more rounds than `budget` would be needed. It names the couple that was entering, and comes at once
/// if a state of its rounds comes back. The other is want of memory. In both the given match is gone.
pub fn enter_all<'a, R: Threads + Sync>(
    rt: &R,
    alloc: Global,
    roster: &'a Roster,
    ranks: &'a Ranks<'a>,
    singles: Match,
    budget: u32,
) -> Result<Entered, CoupleEnd>
    requires ranks { ranks.now ≡ ranked_of roster.now.market }
    requires fits { IsTrue (fits roster.now.market singles.places) }
    ensures entered { IfOk result (λ e.
        stage roster.now.market singles.places budget ≡ Some (e.matched.places, e.rounds)) }
    ensures spent { IfErr result (λ e.
        IfSpent e (λ _. stage roster.now.market singles.places budget ≡ None)) }
    ensures far { IfErr result (λ e. IfSpent e (IsSpent roster.now.market singles.places budget)) }
    ensures fits { IfOk result (λ e. IsTrue (fits roster.now.market e.matched.places)) }
    ensures stable { IsBest roster.now.market singles.places
        → IfOk result (λ e. IsTrue (stable roster.now.market e.matched.places)) }
{
    let couples = roster.couples();
    if couples == 0 {
        return Ok(Entered {
            matched: singles,
            rounds: 0,
        });
    }
    let mut stage = Stage::entered(rt, alloc, roster, ranks, singles, 0)?;
    let mut left = budget;
    for number in 0..couples {
        left = stage.let_in(rt, alloc, CoupleNo(number), budget, left)?;
    }
    Ok(Entered {
        matched: stage.into_match(),
        rounds: budget - left,
    })
}

/// Lets the couples below a number go on to enter, as `enter_all` does, from a match that some of them have entered. It
/// ends before the first couple whose rounds don't end within what is left of the budget. The result has the match before
/// the entry of that couple, and what was left then. If the rounds of all end, it is the match that all have entered. The
/// only error is want of memory.
pub fn enter_from<'a, R: Threads + Sync>(
    rt: &R,
    alloc: Global,
    roster: &'a Roster,
    ranks: &'a Ranks<'a>,
    start: Reached,
    until: u32,
) -> Result<Reached, AllocError>
    requires ranks { ranks.now ≡ ranked_of roster.now.market }
    requires fits { IsTrue (fits roster.now.market start.matched.places) }
    requires order { start.entered ≤ until }
    requires couples { until ≤ length roster.now.market.couples }
    ensures leads { IfOk result (Leads roster.now.market start) }
    ensures within { IfOk result (λ r. r.entered ≤ until) }
    ensures stuck { IfOk result (λ r. r.entered < until → IsStuck roster.now.market r) }
    ensures fits { IfOk result (λ r. IsTrue (fits roster.now.market r.matched.places)) }
{
    let from = start.entered;
    let mut left = start.left;
    let mut stage = Stage::entered(rt, alloc, roster, ranks, start.matched, from)?;
    for number in from..until {
        let before = stage.matched(alloc)?;
        match stage.let_in(rt, alloc, CoupleNo(number), left, left) {
            Ok(rest) => left = rest,
            Err(CoupleEnd::BudgetSpent(_)) => {
                return Ok(Reached {
                    matched: before,
                    entered: number,
                    left,
                });
            }
            Err(CoupleEnd::Memory) => return Err(AllocError),
        }
    }
    Ok(Reached {
        matched: stage.into_match(),
        entered: until,
        left,
    })
}

/// The rounds of Roth and Peranson (1999), as `enter_all` and `enter_from` make them.
pub struct RothPeranson;

impl CouplesStage for RothPeranson {
    fn enter_all<R: Threads + Sync>(
        rt: &R,
        alloc: Global,
        market: RankedMarket<'_>,
        singles: Match,
        budget: u32,
    ) -> Result<Entered, CoupleEnd> {
        enter_all(rt, alloc, market.roster, market.ranks, singles, budget)
    }

    fn enter_from<R: Threads + Sync>(
        rt: &R,
        alloc: Global,
        market: RankedMarket<'_>,
        start: Reached,
        until: u32,
    ) -> Result<Reached, AllocError> {
        enter_from(rt, alloc, market.roster, market.ranks, start, until)
    }
}
