//! The couples enter after the best match of the singles.
ghost use Rattle.std.specs.Prelude.{◌≡◌};
ghost use Rattle.mt_ranks.specs.Ranked.{ranked_of};

use crate::expect::same_for;
use mt_couples::{CoupleEnd, Entered, Spent, enter_all};
use mt_ranks::Ranks;
use mt_roster::Roster;
use mt_samples::markets::{HALF_PAIR, roster_of};
use mt_samples::singles::singles;
use mt_terms::{CoupleNo, ProgNo};
use std::alloc::Global;
use std::process::Abort;
use std::thread::Threads;

// The couple drives the single out, and the single the couple. After four rounds all is as before.
const UNSTABLE: &[u8] = b"match,1\n\
    program,x,1,a,s\n\
    program,y,1,s,b\n\
    applicant,s,x,y\n\
    couple,c,a,b,x,y\n";

// The first couple was entering when the budget was spent.
fn spent(rounds: u32, comes_back: bool) -> CoupleEnd {
    CoupleEnd::BudgetSpent(Spent {
        couple: CoupleNo(0),
        rounds,
        comes_back,
    })
}

// How the couples' stage ends, after the best match of the singles.
fn enter<R: Threads + Sync>(
    rt: &R,
    alloc: Global,
    roster: &Roster,
    ranks: &Ranks,
    budget: u32,
) -> Result<Entered, CoupleEnd>
    requires { ranks.now ≡ ranked_of roster.now.market }
{
    let singles = singles(alloc, roster, ranks)?;
    enter_all(rt, alloc, roster, ranks, singles, budget)
}

fn entered<R: Threads + Sync>(
    rt: &R,
    alloc: Global,
    roster: &Roster,
    budget: u32,
) -> Result<Entered, CoupleEnd> {
    let ranks = Ranks::build(rt, alloc, roster)?;
    enter(rt, alloc, roster, &ranks, budget)
}

// How many rounds it takes until s is at y, a at x and b nowhere. The applicants s, a and b have the numbers 0, 1 and
// 2. The programs x and y have 0 and 1.
fn rounds_of<R: Abort + Threads + Sync>(
    rt: &R,
    alloc: Global,
    roster: &Roster,
    budget: u32,
) -> Result<u32, CoupleEnd> {
    let ended = entered(rt, alloc, roster, budget)?;
    let places = [Some(ProgNo(1)), Some(ProgNo(0)), None];
    same_for(rt, ended.matched.places.as_slice(), &places, budget);
    Ok(ended.rounds)
}

fn expect_rounds<R: Abort + Threads + Sync>(
    rt: &R,
    alloc: Global,
    roster: &Roster,
    budget: u32,
    wanted: Result<u32, CoupleEnd>,
) {
    same_for(rt, rounds_of(rt, alloc, roster, budget), wanted, budget);
}

// The couple takes x and y, s takes y and drives it out, the couple takes x alone, and s isn't taken there.
#[test]
fn a_couple_takes_half_a_pair_in_four_rounds(rt: HostRuntime) {
    let alloc = rt.alloc();
    let roster = roster_of(&rt, alloc, HALF_PAIR).expect(&rt, "a market");
    expect_rounds(&rt, alloc, &roster, 1_000_000, Ok(4));
    expect_rounds(&rt, alloc, &roster, 4, Ok(4));
    expect_rounds(&rt, alloc, &roster, 3, Err(spent(3, false)));
}

// A state is kept after 1,024 rounds. It comes back four rounds later.
#[test]
fn rounds_that_come_back_to_a_state_end(rt: HostRuntime) {
    let alloc = rt.alloc();
    let roster = roster_of(&rt, alloc, UNSTABLE).expect(&rt, "a market");
    expect_rounds(&rt, alloc, &roster, 1_027, Err(spent(1_027, false)));
    expect_rounds(&rt, alloc, &roster, 1_028, Err(spent(1_028, true)));
    expect_rounds(&rt, alloc, &roster, u32::MAX, Err(spent(1_028, true)));
}
