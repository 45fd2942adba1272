//! What the calls give of a market, beside the plain forms: the rank tables, the findings against several matches, and how
//! the couples' stage ends.
ghost use Rattle.std.specs.Prelude.{◌≡◌, ◌<◌};
ghost use Rattle.mt_terms.specs.Market.{applicants};
ghost use Rattle.mt_ranks.specs.Ranked.{ranked_of};

use crate::expect::same_for;
use crate::finding::plain_finding;
use crate::plain::market::{posts, ranking};
use crate::plain::rounds::plain_entered;
use crate::plain::tables::{is_plain_live, is_plain_single, plain_rank};
use mt_couples::{CoupleEnd, Entered, enter_all};
use mt_ranks::Ranks;
use mt_roster::Roster;
use mt_samples::singles::singles;
use mt_terms::{AppNo, ProgNo};
use std::alloc::{AllocError, Global};
use std::process::Abort;
use std::thread::Threads;

// At how many programs each applicant's rank is asked for.
const PROGRAMS: u32 = 8;

// The ranks of an applicant, from the program of its own number on.
fn expect_ranks(rt: &impl Abort, of: &str, roster: &Roster, ranks: &Ranks, number: u32)
    requires { number < applicants ranks.now.market }
{
    let applicant = AppNo(number);
    for step in 0..ranks.programs().min(PROGRAMS) {
        if ranks.programs() > 0 {
            let program = ProgNo(number.saturating_add(step) % ranks.programs());
            let rank = plain_rank(roster, program, applicant);
            same_for(rt, ranks.rank(program, applicant), rank, (of, number));
        }
    }
}

fn expect_applicants(rt: &impl Abort, of: &str, roster: &Roster, ranks: &Ranks) {
    same_for(rt, ranks.applicants(), roster.applicants(), of);
    for number in 0..ranks.applicants() {
        let applicant = AppNo(number);
        let is_plain = is_plain_live(roster, ranks.live(applicant), applicant);
        same_for(rt, is_plain, true, (of, number));
        let is_single = is_plain_single(roster, applicant);
        same_for(rt, ranks.is_single(applicant), is_single, (of, number));
        expect_ranks(rt, of, roster, ranks, number);
    }
}

fn expect_programs(rt: &impl Abort, of: &str, roster: &Roster, ranks: &Ranks) {
    same_for(rt, ranks.programs(), roster.programs(), of);
    for number in 0..ranks.programs() {
        let program = ProgNo(number);
        same_for(
            rt,
            ranks.quota(program),
            posts(roster, program),
            (of, number),
        );
        same_for(
            rt,
            ranks.by_rank(program),
            ranking(roster, program),
            (of, number),
        );
    }
}

/// The rank tables are the plain ones.
pub(crate) fn expect_tables(rt: &impl Abort, of: &str, roster: &Roster, ranks: &Ranks) {
    expect_applicants(rt, of, roster, ranks);
    expect_programs(rt, of, roster, ranks);
}

// The match with this number, whose digits to the base of one more than the programs are the places.
fn places_by_number(
    alloc: Global,
    roster: &Roster,
    number: u32,
) -> Result<Vec<Option<ProgNo>>, AllocError> {
    let base = roster.programs().saturating_add(1);
    let mut digits = number;
    let mut places = Vec::new(alloc);
    for _ in 0..roster.applicants() {
        let digit = digits % base.max(1);
        digits = digits / base.max(1);
        places.push(if digit == 0 {
            None
        } else {
            Some(ProgNo(digit - 1))
        })?;
    }
    Ok(places)
}

// How many matches there are, or the most that are looked at.
fn matches_of(roster: &Roster, most: u32) -> u32 {
    let mut count = 1u32;
    for _ in 0..roster.applicants() {
        count = count
            .saturating_mul(roster.programs().saturating_add(1))
            .min(most);
    }
    count
}

/// The findings against the first matches by number, `most` of them at most, are the plain ones. The first match places
/// nobody.
pub(crate) fn expect_findings<R: Abort + Threads + Sync>(
    rt: &R,
    alloc: Global,
    of: &str,
    roster: &Roster,
    ranks: &Ranks,
    most: u32,
) -> Result<(), AllocError>
    requires { ranks.now ≡ ranked_of roster.now.market }
{
    for number in 0..matches_of(roster, most) {
        let places = places_by_number(alloc, roster, number)?;
        plain_finding(rt, alloc, of, roster, ranks, places)?;
    }
    Ok(())
}

/// If the last applicant is put at the last program, the finding is the plain one.
pub(crate) fn expect_finding_on_change<R: Abort + Threads + Sync>(
    rt: &R,
    alloc: Global,
    of: &str,
    roster: &Roster,
    ranks: &Ranks,
    places: &[Option<ProgNo>],
) -> Result<(), AllocError>
    requires { ranks.now ≡ ranked_of roster.now.market }
{
    let mut changed = Vec::from_slice(alloc, places)?;
    if roster.programs() > 0 && changed.pop().is_some() {
        changed.push(Some(ProgNo(roster.programs() - 1)))?;
    }
    plain_finding(rt, alloc, of, roster, ranks, changed)?;
    Ok(())
}

// What the couples' stage gives is the match and the number of rounds that are wanted, or that the budget is spent.
fn expect_end(
    rt: &impl Abort,
    of: &str,
    budget: u32,
    found: &Result<Entered, CoupleEnd>,
    wanted: &Ended,
) {
    match (found, wanted) {
        (Ok(entered), Some((places, rounds))) => {
            let found = entered.matched.places.as_slice();
            same_for(rt, found, places.as_slice(), (of, budget));
            same_for(rt, entered.rounds, *rounds, (of, budget));
        }
        (Err(CoupleEnd::BudgetSpent(_)), None) => {}
        _ => same_for(rt, found.is_ok(), wanted.is_some(), (of, budget)),
    }
}

/// What the plain rounds end with: a match and how many rounds there were, or none if the budget is spent.
pub(crate) type Ended = Option<(Vec<Option<ProgNo>>, u32)>;

/// The best match of the singles, and how the couples' stage ends after it with this budget, are the plain ones.
pub(crate) fn expect_stage<R: Abort + Threads + Sync>(
    rt: &R,
    alloc: Global,
    of: &str,
    roster: &Roster,
    ranks: &Ranks,
    best: &[Option<ProgNo>],
    budget: u32,
) -> Result<Ended, AllocError>
    requires { ranks.now ≡ ranked_of roster.now.market }
{
    let singles = singles(alloc, roster, ranks)?;
    same_for(rt, singles.places.as_slice(), best, of);
    let found = enter_all(rt, alloc, roster, ranks, singles, budget);
    let wanted = plain_entered(alloc, roster, best, budget)?;
    expect_end(rt, of, budget, &found, &wanted);
    Ok(wanted)
}
