ghost use Rattle.std.specs.Prelude.{◌≡◌, ◌+◌, ◌<◌, ◌≤◌, map, length, slice_index, All, IfOk, IsTrue};
ghost use Rattle.std.specs.List.{range_with_len, AllZip};
ghost use Rattle.mt_terms.specs.Best.{IsBest};
ghost use Rattle.mt_terms.specs.Places.{ArePlaces};
ghost use Rattle.mt_terms.specs.Stability.{stable};
ghost use Rattle.mt_order_laws.specs.Reordered.{set_aside};
ghost use Rattle.mt_orders.specs.Fewest.{fewer, fewest_of, fewest_order, IsAsideInOrder};

use crate::numbered::order_of;
use crate::tried::{SIDE_BY_SIDE, Tries};
use crate::without::{Aside, enter_aside};
use mt_entry::CouplesStage;
use mt_market::Roster;
use mt_reordered::reordered;
use mt_terms::{CoupleNo, Match};
use rayon::prelude::*;
use std::alloc::{AllocError, Global};
use std::thread::Threads;

/// The couples at these places of an order.
fn couples_at(
    alloc: Global,
    order: &[CoupleNo],
    places: &[CoupleNo],
) -> Result<Vec<CoupleNo>, AllocError>
    requires { All (λ k. k < length order.now) places.now }
    ensures { IfOk result (λ couples. couples.items ≡ map (slice_index order.now) places.now) }
{
    let mut couples = Vec::with_capacity(alloc, places.len())?;
    for place in places {
        couples.push(order[place.index()])?;
    }
    Ok(couples)
}

/// The second of two if fewer couples are set aside in it.
fn fewer(first: Aside, second: Aside) -> Aside
    ensures { result ≡ fewer first second }
{
    if second.couples.len() < first.couples.len() {
        second
    } else {
        first
    }
}

/// The first of these in which the fewest couples are set aside.
fn fewest_of(first: Aside, others: Vec<Aside>) -> Aside
    ensures { result ≡ fewest_of first others.items }
{
    let mut fewest = first;
    for other in others {
        fewest = fewer(fewest, other);
    }
    fewest
}

/// What the orders in which couples are set aside have in common.
struct AsideTrial<'a> {
    alloc: Global,
    roster: &'a Roster,
    singles: &'a Match,
    budget: u32,
}

impl Drop for AsideTrial<'_> {
    fn drop(self) {
        let AsideTrial {
            alloc: _,
            roster: _,
            singles: _,
            budget: _,
        } = self;
    }
}

impl<'a> AsideTrial<'a> {
    /// The couples that are set aside in the order with a number, and the match of the others. The only error is want of
    /// memory.
    fn aside_of<S: CouplesStage + Sync, T: Threads + Sync>(
        &self,
        rt: &T,
        number: u32,
    ) -> Result<Aside, AllocError>
        requires { IsBest self.now.roster.now.market self.now.singles.now.places }
        ensures { IfOk result (IsAsideInOrder self.now.roster.now.market self.now.singles.now.places
            self.now.budget number) }
    {
        let order = order_of(self.alloc, number, self.roster.couples())?;
        let market = reordered(self.alloc, self.roster, &order)?;
        let aside = enter_aside::<S, T>(rt, self.alloc, &market, self.singles, self.budget)?;
        let couples = couples_at(self.alloc, &order, &aside.couples)?;
        Ok(Aside {
            matched: aside.matched,
            couples,
        })
    }

    /// The same in each of `count` orders from a number on, side by side.
    fn asides_of<S: CouplesStage + Sync, T: Threads + Sync>(
        &self,
        rt: &T,
        from: u32,
        count: u32,
    ) -> Result<Vec<Aside>, AllocError>
        requires best { IsBest self.now.roster.now.market self.now.singles.now.places }
        requires few { from + count ≤ 2000 }
        ensures { IfOk result (λ asides. AllZip (IsAsideInOrder self.now.roster.now.market self.now.singles.now.places
            self.now.budget) (range_with_len from count) asides.items) }
    {
        (from..from + count)
            .into_par_iter()
            .with_min_len(1)
            .map(
                |number: u32| -> Result<Aside, AllocError>
                    requires { IsBest self.now.roster.now.market self.now.singles.now.places }
                    ensures { IfOk result (IsAsideInOrder self.entry.now.roster.now.market
                        self.entry.now.singles.now.places self.entry.now.budget number) }
                { self.aside_of::<S, T>(rt, number) },
            )
            .collect::<Result<Vec<Aside>, AllocError>>(rt, self.alloc)?
    }

    /// The same in the first of the orders from 1 to `orders` in which the fewest couples are set aside.
    fn fewest<S: CouplesStage + Sync, T: Threads + Sync>(
        &self,
        rt: &T,
        orders: u32,
    ) -> Result<Aside, AllocError>
        requires best { IsBest self.now.roster.now.market self.now.singles.now.places }
        requires some { 1 ≤ orders }
        requires few { orders ≤ 1000 }
        ensures { IfOk result (IsAsideInOrder self.now.roster.now.market self.now.singles.now.places self.now.budget
            (fewest_order self.now.roster.now.market self.now.singles.now.places self.now.budget orders)) }
    {
        let mut fewest = self.aside_of::<S, T>(rt, 1)?;
        let mut from = 2;
        'batches: while from <= orders {
            let count = SIDE_BY_SIDE.min(orders - from + 1);
            let others = self.asides_of::<S, T>(rt, from, count)?;
            fewest = fewest_of(fewest, others);
            from += count;
        }
        Ok(fewest)
    }
}

/// Lets the couples enter a match of the singles as `enter_all` does, in each of the orders with the numbers 1 to
/// `orders`. In each order, while the rounds don't end within the budget, the couple that is entering is set aside, and
/// the others begin anew. The result is that of the first order in which the fewest couples are set aside. The only
/// error is want of memory.
pub fn enter_aside_in_orders<S: CouplesStage + Sync, T: Threads + Sync>(
    rt: &T,
    alloc: Global,
    roster: &Roster,
    singles: &Match,
    tries: Tries,
) -> Result<Aside, AllocError>
    requires best { IsBest roster.now.market singles.now.places }
    requires some { 1 ≤ tries.orders }
    requires few { tries.orders ≤ 1000 }
    ensures fewest { IfOk result (IsAsideInOrder roster.now.market singles.now.places tries.budget
        (fewest_order roster.now.market singles.now.places tries.budget tries.orders)) }
    ensures stable { IfOk result (λ a.
        IsTrue (stable (set_aside a.couples.items roster.now.market) a.matched.places)) }
    ensures places { IfOk result (λ a. ArePlaces roster.now.market a.matched.places) }
{
    roster.is_of_a_file();
    let trial = AsideTrial {
        alloc,
        roster,
        singles,
        budget: tries.budget,
    };
    trial.fewest::<S, T>(rt, tries.orders)
}
