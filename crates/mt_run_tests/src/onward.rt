//! The couples go on to enter from a match that some of them have entered, and in which orders they are tried.
ghost use Rattle.std.specs.Prelude.{◌≡◌};
ghost use Rattle.mt_ranks.specs.Ranked.{ranked_of};

use crate::expect::same_for;
use crate::orders::{FIRST_TWO_PLACED, LAST_TWO_PLACED};
use mt_couples::{Reached, enter_from};
use mt_orders::order_of;
use mt_ranks::Ranks;
use mt_roster::Roster;
use mt_samples::markets::{THREE_COUPLES, roster_of};
use mt_samples::singles::singles;
use mt_terms::{CoupleNo, ProgNo};
use std::alloc::{AllocError, Global};
use std::process::Abort;
use std::thread::Threads;

// How far the couples enter within a budget, and then how far they go on with this many rounds.
fn twice<R: Threads + Sync>(
    rt: &R,
    alloc: Global,
    roster: &Roster,
    ranks: &Ranks,
    budget: u32,
    left: u32,
) -> Result<(u32, u32, Reached), AllocError>
    requires { ranks.now ≡ ranked_of roster.now.market }
{
    let start = Reached {
        matched: singles(alloc, roster, ranks)?,
        entered: 0,
        left: budget,
    };
    let first = enter_from(rt, alloc, roster, ranks, start, roster.couples())?;
    let (entered, rest) = (first.entered, first.left);
    let next = Reached {
        matched: first.matched,
        entered,
        left,
    };
    let second = enter_from(rt, alloc, roster, ranks, next, roster.couples())?;
    Ok((entered, rest, second))
}

// How many of the three couples enter within a budget and what is left, then the same once they go on, and the places.
fn expect_twice<R: Abort + Threads + Sync>(
    rt: &R,
    alloc: Global,
    rounds: (u32, u32),
    first: (u32, u32),
    second: (u32, u32),
    places: &[Option<ProgNo>],
) {
    let roster = roster_of(rt, alloc, THREE_COUPLES).expect(rt, "a market");
    let ranks = Ranks::build(rt, alloc, &roster).expect(rt, "rank tables");
    let found = twice(rt, alloc, &roster, &ranks, rounds.0, rounds.1).expect(rt, "a match");
    let (entered, left, last) = found;
    same_for(rt, entered, first.0, rounds.0);
    same_for(rt, left, first.1, rounds.0);
    same_for(rt, last.entered, second.0, rounds.1);
    same_for(rt, last.left, second.1, rounds.1);
    same_for(rt, last.matched.places.as_slice(), places, rounds.1);
}

// D and A enter in one round each. E displaces D, which finds no other pair, and A takes the place that D leaves. So E
// needs three rounds. With fewer the couples end before its entry.
#[test]
fn couples_go_on_from_the_match_before_an_entry(rt: HostRuntime) {
    let alloc = rt.alloc();
    expect_twice(&rt, alloc, (4, 2), (2, 2), (2, 2), &FIRST_TWO_PLACED);
    expect_twice(&rt, alloc, (4, 3), (2, 2), (3, 0), &LAST_TWO_PLACED);
    expect_twice(&rt, alloc, (2, 9), (2, 0), (3, 6), &LAST_TWO_PLACED);
    expect_twice(&rt, alloc, (5, 0), (3, 0), (3, 0), &LAST_TWO_PLACED);
    expect_twice(&rt, alloc, (0, 2), (0, 0), (2, 0), &FIRST_TWO_PLACED);
}

// That the order of five couples with a number is this one.
fn expect_order(rt: &impl Abort, alloc: Global, number: u32, wanted: &[CoupleNo]) {
    let order = order_of(alloc, number, 5).expect(rt, "an order");
    same_for(rt, order.as_slice(), wanted, number);
}

// A plain program gives the same numbers.
#[test]
fn five_couples_in_five_orders(rt: HostRuntime) {
    let alloc = rt.alloc();
    let couples = [
        CoupleNo(0),
        CoupleNo(1),
        CoupleNo(2),
        CoupleNo(3),
        CoupleNo(4),
    ];
    let [a, b, c, d, e] = couples;
    expect_order(&rt, alloc, 1, &couples);
    expect_order(&rt, alloc, 2, &[d, b, e, a, c]);
    expect_order(&rt, alloc, 3, &[b, c, d, a, e]);
    expect_order(&rt, alloc, 4, &[b, e, a, d, c]);
    expect_order(&rt, alloc, 5, &[d, b, e, a, c]);
}

#[test]
fn no_couple_and_one_couple_in_another_order(rt: HostRuntime) {
    let none = order_of(rt.alloc(), 2, 0).expect(&rt, "an order");
    same_for(&rt, none.len(), 0, 2);
    let one = order_of(rt.alloc(), 2, 1).expect(&rt, "an order");
    same_for(&rt, one.as_slice(), [CoupleNo(0)].as_slice(), 2);
}
