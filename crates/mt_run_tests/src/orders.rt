//! The couples enter in other orders, and without some of them.
ghost use Rattle.std.specs.Prelude.{◌≤◌};

use crate::expect::same_for;
use mt_couples::{CoupleEnd, RothPeranson, Spent};
use mt_orders::{Aside, Tries, enter_aside_in_orders, enter_in_orders};
use mt_ranks::Ranks;
use mt_roster::Roster;
use mt_samples::couples::NO_STABLE_MATCH;
use mt_samples::markets::{THREE_COUPLES, roster_of};
use mt_samples::singles::singles;
use mt_terms::{CoupleNo, Match, ProgNo};
use std::alloc::{AllocError, Global};
use std::process::Abort;
use std::thread::Threads;

// The match of the couples in some orders, after the best match of the singles.
fn in_orders<R: Threads + Sync>(
    rt: &R,
    alloc: Global,
    roster: &Roster,
    tries: Tries,
) -> Result<Match, CoupleEnd>
    requires some { 1 ≤ tries.orders }
    requires few { tries.orders ≤ 1000 }
{
    let ranks = Ranks::build(rt, alloc, roster)?;
    let singles = singles(alloc, roster, &ranks)?;
    enter_in_orders::<RothPeranson, R>(rt, alloc, roster, &ranks, &singles, tries)
}

// The match of the others once couples are set aside in the order in which the fewest are.
fn aside<R: Threads + Sync>(
    rt: &R,
    alloc: Global,
    roster: &Roster,
    tries: Tries,
) -> Result<Aside, AllocError>
    requires some { 1 ≤ tries.orders }
    requires few { tries.orders ≤ 1000 }
{
    let ranks = Ranks::build(rt, alloc, roster)?;
    let singles = singles(alloc, roster, &ranks)?;
    enter_aside_in_orders::<RothPeranson, R>(rt, alloc, roster, &singles, tries)
}

// Of the three couples D, A and E the first one stays unplaced. A is at p and q, and E at r and t.
pub(crate) const LAST_TWO_PLACED: [Option<ProgNo>; 6] = [
    None,
    None,
    Some(ProgNo(0)),
    Some(ProgNo(1)),
    Some(ProgNo(2)),
    Some(ProgNo(3)),
];

// D is at p and r, and A at u and v.
pub(crate) const FIRST_TWO_PLACED: [Option<ProgNo>; 6] = [
    Some(ProgNo(0)),
    Some(ProgNo(2)),
    Some(ProgNo(4)),
    Some(ProgNo(5)),
    None,
    None,
];

// D is at p and r.
const FIRST_PLACED: [Option<ProgNo>; 6] = [
    Some(ProgNo(0)),
    Some(ProgNo(2)),
    None,
    None,
    None,
    None,
];

// The single is at x.
const SINGLE_PLACED: [Option<ProgNo>; 3] = [Some(ProgNo(0)), None, None];

// How the couples of the three couples' market end in this number of rounds and orders: in the match above, or while the
// third couple is entering.
fn expect_orders<R: Abort + Threads + Sync>(rt: &R, alloc: Global, tries: Tries, ends: bool)
    requires some { 1 ≤ tries.orders }
    requires few { tries.orders ≤ 1000 }
{
    let roster = roster_of(rt, alloc, THREE_COUPLES).expect(rt, "a market");
    match in_orders(rt, alloc, &roster, tries) {
        Ok(found) => {
            same_for(rt, found.places.as_slice(), &LAST_TWO_PLACED, tries);
            same_for(rt, true, ends, tries);
        }
        Err(end) => {
            let spent = Spent {
                couple: CoupleNo(2),
                rounds: tries.budget,
                comes_back: false,
            };
            same_for(rt, end, CoupleEnd::BudgetSpent(spent), tries);
            same_for(rt, false, ends, tries);
        }
    }
}

// That these couples are set aside, and that the match of the others is this one.
fn expect_aside<R: Abort + Threads + Sync>(
    rt: &R,
    alloc: Global,
    file: &[u8],
    tries: Tries,
    couples: &[CoupleNo],
    wanted: &[Option<ProgNo>],
)
    requires some { 1 ≤ tries.orders }
    requires few { tries.orders ≤ 1000 }
{
    let roster = roster_of(rt, alloc, file).expect(rt, "a market");
    let found = aside(rt, alloc, &roster, tries).expect(rt, "a match");
    same_for(rt, found.couples.as_slice(), couples, tries);
    same_for(rt, found.matched.places.as_slice(), wanted, tries);
}

// The third order of the three couples needs three rounds, the first two orders need more, and that of registration five.
#[test]
fn three_rounds_are_enough_in_the_third_order(rt: HostRuntime) {
    let alloc = rt.alloc();
    let within = |budget: u32, orders: u32| Tries { budget, orders };
    expect_orders(&rt, alloc, within(5, 1), true);
    expect_orders(&rt, alloc, within(4, 1), false);
    expect_orders(&rt, alloc, within(3, 2), false);
    expect_orders(&rt, alloc, within(3, 3), true);
    expect_orders(&rt, alloc, within(3, 10), true);
    expect_orders(&rt, alloc, within(2, 10), false);
    expect_orders(&rt, alloc, within(2, 1000), false);
}

// The couple without which there is a stable match, and then one or two of the three couples. A plain program gives the
// same.
#[test]
fn couples_are_set_aside_until_the_others_end(rt: HostRuntime) {
    let alloc = rt.alloc();
    let within = |budget: u32| Tries { budget, orders: 1 };
    let (first, third) = ([CoupleNo(0)], [CoupleNo(2)]);
    let last_two = [CoupleNo(1), CoupleNo(2)];
    expect_aside(
        &rt,
        alloc,
        NO_STABLE_MATCH,
        within(1000),
        &first,
        &SINGLE_PLACED,
    );
    expect_aside(&rt, alloc, THREE_COUPLES, within(5), &[], &LAST_TWO_PLACED);
    expect_aside(
        &rt,
        alloc,
        THREE_COUPLES,
        within(4),
        &third,
        &FIRST_TWO_PLACED,
    );
    expect_aside(
        &rt,
        alloc,
        THREE_COUPLES,
        within(1),
        &last_two,
        &FIRST_PLACED,
    );
}

// D enters in one round, and displaces s, which takes another. A and E take one each, and find no post. So D alone, or A
// and E without D, end within two rounds.
const FIRST_NEEDS_TWO_ROUNDS: &[u8] = b"match,1\n\
    program,p,1,d1,s\n\
    program,q,1,d2\n\
    applicant,s,p\n\
    couple,D,d1,d2,p,q\n\
    couple,A,a1,a2,q,p\n\
    couple,E,e1,e2,p,q\n";

const ONLY_THE_SINGLE_PLACED: [Option<ProgNo>; 7] = [
    Some(ProgNo(0)),
    None,
    None,
    None,
    None,
    None,
    None,
];

const ONLY_THE_FIRST_PLACED: [Option<ProgNo>; 7] = [
    None,
    Some(ProgNo(0)),
    Some(ProgNo(1)),
    None,
    None,
    None,
    None,
];

// The second order is A, D, E. Of orders in which as many are set aside the first is taken.
#[test]
fn fewest_couples_are_set_aside(rt: HostRuntime) {
    let alloc = rt.alloc();
    let within = |budget: u32, orders: u32| Tries { budget, orders };
    let (first, third) = ([CoupleNo(0)], [CoupleNo(2)]);
    let last_two = [CoupleNo(1), CoupleNo(2)];
    let file = FIRST_NEEDS_TWO_ROUNDS;
    expect_aside(
        &rt,
        alloc,
        file,
        within(2, 1),
        &last_two,
        &ONLY_THE_FIRST_PLACED,
    );
    expect_aside(
        &rt,
        alloc,
        file,
        within(2, 2),
        &first,
        &ONLY_THE_SINGLE_PLACED,
    );
    expect_aside(
        &rt,
        alloc,
        file,
        within(2, 10),
        &first,
        &ONLY_THE_SINGLE_PLACED,
    );
    expect_aside(
        &rt,
        alloc,
        THREE_COUPLES,
        within(2, 2),
        &third,
        &FIRST_TWO_PLACED,
    );
    expect_aside(
        &rt,
        alloc,
        THREE_COUPLES,
        within(3, 3),
        &[],
        &LAST_TWO_PLACED,
    );
}
