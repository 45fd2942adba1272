ghost use Rattle.std.specs.Prelude.{◌≡◌, ◌+◌, ◌-◌, ◌≤◌, IsTrue, IfErr, IfOk, None};
ghost use Rattle.std.specs.List.{range_with_len};
ghost use Rattle.mt_terms.specs.Best.{IsBest};
ghost use Rattle.mt_terms.specs.Stability.{stable};
ghost use Rattle.mt_ranks.specs.Ranked.{ranked_of};
ghost use Rattle.mt_order_laws.specs.Orders.{first_order};
ghost use Rattle.mt_entry.specs.Ended.{IfSpent, IsSpent};
ghost use Rattle.mt_orders.specs.Tried.{first_some, EndsFirst, IsEnd, IsFirstEnd, IsTrial};

use crate::numbered::order_of;
use mt_entry::{CoupleEnd, CouplesStage, RankedMarket};
use mt_market::Roster;
use mt_ranks::Ranks;
use mt_reordered::reordered;
use mt_terms::{Match, Places};
use rayon::prelude::*;
use std::alloc::{AllocError, Global};
use std::thread::Threads;

/// How many orders are tried side by side. The later ones of them are tried in vain if an earlier one ends, and each has
/// a copy of the market.
pub(crate) const SIDE_BY_SIDE: u32 = 4;

/// How far the couples' stage goes before it gives up.
#[derive(Clone, Copy, Debug, PartialEq, Eq)]
pub struct Tries {
    /// How many rounds it may take in each order.
    pub budget: u32,
    /// How many orders of the couples are tried, from 1 to 1,000.
    pub orders: u32,
}

/// A copy of a match.
pub(crate) fn copied(alloc: Global, matched: &Match) -> Result<Match, AllocError>
    ensures { IfOk result (λ copy. copy.places ≡ matched.now.places) }
{
    let places = Vec::from_slice(alloc, matched.places.as_slice())?;
    Ok(Match {
        places: Places::new(places),
    })
}

/// The first match among these.
fn first_some(mut ends: Vec<Option<Match>>) -> Option<Match>
    ensures { result ≡ first_some ends.items }
{
    for place in 0..ends.len() {
        if ends[place].is_some() {
            return ends.swap_remove(place);
        }
    }
    None
}

/// What the orders of one try have in common.
pub(crate) struct Trial<'a> {
    alloc: Global,
    roster: &'a Roster,
    ranks: &'a Ranks<'a>,
    singles: &'a Match,
    budget: u32,
}

impl Drop for Trial<'_> {
    fn drop(self) {
        let Trial {
            alloc: _,
            roster: _,
            ranks: _,
            singles: _,
            budget: _,
        } = self;
    }
}

impl<'a> Trial<'a> {
    /// The match that the rounds end in by the order with a number, if they end within the budget. The only error is want
    /// of memory.
    fn end_of<S: CouplesStage + Sync, T: Threads + Sync>(
        &self,
        rt: &T,
        number: u32,
    ) -> Result<Option<Match>, AllocError>
        requires { IsTrial self.now }
        ensures { IfOk result (IsEnd self.now.roster.now.market self.now.singles.now.places self.now.budget number) }
    {
        let order = order_of(self.alloc, number, self.roster.couples())?;
        let market = reordered(self.alloc, self.roster, &order)?;
        let singles = copied(self.alloc, self.singles)?;
        let ranked = RankedMarket {
            roster: &market,
            ranks: self.ranks,
        };
        match S::enter_all(rt, self.alloc, ranked, singles, self.budget) {
            Ok(entered) => Ok(Some(entered.matched)),
            Err(CoupleEnd::BudgetSpent(_)) => Ok(None),
            Err(CoupleEnd::Memory) => Err(AllocError),
        }
    }

    /// The match of the first order in which the rounds end, of `count` orders from a number on, which are tried side by
    /// side.
    fn first_of<S: CouplesStage + Sync, T: Threads + Sync>(
        &self,
        rt: &T,
        from: u32,
        count: u32,
    ) -> Result<Option<Match>, AllocError>
        requires trial { IsTrial self.now }
        requires few { from + count ≤ 2000 }
        ensures { IfOk result (IsFirstEnd self.now.roster.now.market self.now.singles.now.places self.now.budget
            (range_with_len from count)) }
    {
        let ends = (from..from + count)
            .into_par_iter()
            .with_min_len(1)
            .map(
                |number: u32| -> Result<Option<Match>, AllocError>
                    requires { IsTrial self.now }
                    ensures { IfOk result (IsEnd self.entry.now.roster.now.market self.entry.now.singles.now.places
                        self.entry.now.budget number) }
                { self.end_of::<S, T>(rt, number) },
            )
            .collect::<Result<Vec<Option<Match>>, AllocError>>(rt, self.alloc)??;
        Ok(first_some(ends))
    }

    /// The match of the first order in which the rounds end, of those from 2 to `orders`.
    fn first_after_registration<S: CouplesStage + Sync, T: Threads + Sync>(
        &self,
        rt: &T,
        orders: u32,
    ) -> Result<Option<Match>, AllocError>
        requires trial { IsTrial self.now }
        requires few { orders ≤ 1000 }
        ensures { IfOk result (IsFirstEnd self.now.roster.now.market self.now.singles.now.places self.now.budget
            (range_with_len 2 (orders - 1))) }
    {
        let mut from = 2;
        'batches: while from <= orders {
            let count = SIDE_BY_SIDE.min(orders - from + 1);
            let found = self.first_of::<S, T>(rt, from, count)?;
            if found.is_some() {
                return Ok(found);
            }
            from += count;
        }
        Ok(None)
    }
}

/// Lets the couples enter a match of the singles as `enter_all` does, in the orders with the numbers 1 to `orders`. The
/// result is the match of the first order in which the rounds end within the budget. Order 1 is that of registration, and
/// is tried first. The others are tried side by side. If no order ends, the error is that of order 1. The other error is
/// want of memory.
pub fn enter_in_orders<'a, S: CouplesStage + Sync, T: Threads + Sync>(
    rt: &T,
    alloc: Global,
    roster: &'a Roster,
    ranks: &'a Ranks<'a>,
    singles: &'a Match,
    tries: Tries,
) -> Result<Match, CoupleEnd>
    requires ranks { ranks.now ≡ ranked_of roster.now.market }
    requires best { IsBest roster.now.market singles.now.places }
    requires some { 1 ≤ tries.orders }
    requires few { tries.orders ≤ 1000 }
    ensures first { IfOk result (λ e.
        EndsFirst roster.now.market singles.now.places tries.budget tries.orders e.places) }
    ensures stable { IfOk result (λ e. IsTrue (stable roster.now.market e.places)) }
    ensures none { IfErr result (λ e. IfSpent e (λ _.
        first_order roster.now.market singles.now.places tries.budget tries.orders ≡ None)) }
    ensures far { IfErr result (λ e. IfSpent e (IsSpent roster.now.market singles.now.places tries.budget)) }
{
    roster.is_of_a_file();
    let first = copied(alloc, singles)?;
    let market = RankedMarket { roster, ranks };
    let spent = match S::enter_all(rt, alloc, market, first, tries.budget) {
        Ok(entered) => return Ok(entered.matched),
        Err(CoupleEnd::Memory) => return Err(CoupleEnd::Memory),
        Err(CoupleEnd::BudgetSpent(spent)) => spent,
    };
    let trial = Trial {
        alloc,
        roster,
        ranks,
        singles,
        budget: tries.budget,
    };
    let found = trial.first_after_registration::<S, T>(rt, tries.orders)?;
    match found {
        Some(matched) => Ok(matched),
        None => Err(CoupleEnd::BudgetSpent(spent)),
    }
}
