//! The couples' rounds, the judge, the text, and the answer to a market.
ghost use Rattle.std.specs.Prelude.{◌≡◌, ◌≤◌, IfOk, IfSome};
ghost use Rattle.mt_terms.specs.Places.{ArePlaces};
ghost use Rattle.mt_ranks.specs.Ranked.{ranked_of};

use mt_answer::answer_to_market;
use mt_couples::{CoupleEnd, RothPeranson, enter_all};
use mt_explain::{Why, option_lines};
use mt_market::Roster;
use mt_ranks::Ranks;
use mt_report::{published, published_aside};
use mt_samples::markets::{
    CHAIN, CHAIN_TEXT, ONE_ASIDE_TEXT, SampleError, TWO_COUPLES, TWO_COUPLES_TEXT, roster_of,
};
use mt_samples::places::are_places;
use mt_samples::singles::singles;
use mt_samples::tables::with_ranks;
use mt_terms::codes::OUT_OF_MEMORY;
use mt_terms::{Agent, AppNo, Blocker, CoupleNo, Match, Options, Places, ProgNo};
use mt_verify::{MatchTables, Verdict, verify};
use std::alloc::{AllocError, Global};
use std::sync::Wait;
use std::thread::Threads;

fn enters_on<T: Threads + Sync>(
    rt: &T,
    alloc: Global,
    roster: &Roster,
    ranks: &Ranks,
) -> Result<bool, AllocError>
    requires { ranks.now ≡ ranked_of roster.now.market }
{
    let singles = singles(alloc, roster, ranks)?;
    match enter_all(rt, alloc, roster, ranks, singles, 5) {
        Ok(entered) => {
            let places = [
                Some(ProgNo(0)),
                None,
                None,
                Some(ProgNo(0)),
                Some(ProgNo(1)),
            ];
            Ok(entered.matched.places.as_slice() == places.as_slice() && entered.rounds == 5)
        }
        Err(CoupleEnd::BudgetSpent(_)) => Ok(false),
        Err(CoupleEnd::Memory) => Err(AllocError),
    }
}

/// Whether the couples end where they should, in five rounds.
pub fn enters<T: Threads + Sync>(rt: &T, alloc: Global) -> Result<bool, SampleError> {
    with_ranks(
        rt,
        alloc,
        TWO_COUPLES,
        |roster: &Roster, ranks: &Ranks<'_>| -> Result<bool, AllocError>
            requires { ranks.now ≡ ranked_of roster.now.market }
        { enters_on(rt, alloc, roster, ranks) },
    )
}

// The match of the chain in which a1 and a2 have what each wants most, and a3 has no place.
fn last_unmatched(alloc: Global, roster: &Roster) -> Result<Option<Match>, AllocError>
    ensures { IfOk result (λ m. IfSome m (λ m. ArePlaces roster.now.market m.places)) }
{
    let places = [Some(ProgNo(0)), Some(ProgNo(1)), None];
    if !are_places(roster, &places) {
        return Ok(None);
    }
    Ok(Some(Match {
        places: Places::new(places.to_vec(alloc)?),
    }))
}

/// Whether the judge finds who blocks: a3, whom P1 wants more than a1.
pub fn judges<T: Threads + Sync>(rt: &T, alloc: Global) -> Result<bool, SampleError> {
    let blocking = Verdict::Blocks(Blocker {
        agent: Agent::Single(AppNo(2)),
        option: 0,
    });
    with_ranks(
        rt,
        alloc,
        CHAIN,
        |roster: &Roster, ranks: &Ranks<'_>| -> Result<bool, AllocError>
            requires { ranks.now ≡ ranked_of roster.now.market }
        {
            match last_unmatched(alloc, roster)? {
                Some(matched) => Ok(verify(rt, alloc, roster, ranks, &matched)? == blocking),
                None => Ok(false),
            }
        },
    )
}

fn explains_on<T: Threads + Sync>(
    rt: &T,
    alloc: Global,
    roster: &Roster,
    ranks: &Ranks,
) -> Result<bool, AllocError>
    requires { ranks.now ≡ ranked_of roster.now.market }
{
    let Some(matched) = last_unmatched(alloc, roster)? else {
        return Ok(false);
    };
    let tables = MatchTables::new(rt, alloc, roster, ranks, &matched)?;
    let last = AppNo(2);
    if roster.applicants() != 3 || roster.single_list(last).is_empty() {
        return Ok(false);
    }
    let (line, other) = option_lines(&tables, Agent::Single(last), 0);
    let Some(line) = line else {
        return Ok(false);
    };
    Ok(
        tables.held_option(Agent::Single(last)).is_none()
            && tables.better_options(Agent::Single(last)) == 1
            && tables.rank_at_place(AppNo(0)) == Some(2)
            && line.why() == Why::Open
            && line.program == ProgNo(0)
            && other.is_none(),
    )
}

/// Whether a3's only option is explained: P1 has its post for a3, whom it wants more than a1.
pub fn explains<T: Threads + Sync>(rt: &T, alloc: Global) -> Result<bool, SampleError> {
    with_ranks(
        rt,
        alloc,
        CHAIN,
        |roster: &Roster, ranks: &Ranks<'_>| -> Result<bool, AllocError>
            requires { ranks.now ≡ ranked_of roster.now.market }
        { explains_on(rt, alloc, roster, ranks) },
    )
}

// Whether the chain's best match has its text.
fn publishes_on(alloc: Global, roster: &Roster) -> Result<bool, SampleError> {
    let places = [Some(ProgNo(1)), Some(ProgNo(0)), None];
    if !are_places(roster, &places) || roster.programs() != 2 {
        return Ok(false);
    }
    let matched = Match {
        places: Places::new(places.to_vec(alloc)?),
    };
    let text = published(alloc, roster, &matched, &[3, 2])?;
    Ok(text.as_slice() == CHAIN_TEXT)
}

/// Whether a match has its text.
pub fn publishes<T: Threads + Sync>(rt: &T, alloc: Global) -> Result<bool, SampleError> {
    let roster = roster_of(rt, alloc, CHAIN)?;
    publishes_on(alloc, &roster)
}

// Whether the match of the first couple alone has its text.
fn publishes_aside_on(alloc: Global, roster: &Roster) -> Result<bool, SampleError> {
    let places = [None, Some(ProgNo(0)), Some(ProgNo(0)), None, None];
    if !are_places(roster, &places) || roster.programs() != 2 || roster.couples() != 2 {
        return Ok(false);
    }
    let matched = Match {
        places: Places::new(places.to_vec(alloc)?),
    };
    let text = published_aside(alloc, roster, &matched, &[1, 0], &[CoupleNo(1)])?;
    Ok(text.as_slice() == ONE_ASIDE_TEXT)
}

/// Whether a match in which a couple is set aside has its text.
pub fn publishes_aside<T: Threads + Sync>(rt: &T, alloc: Global) -> Result<bool, SampleError> {
    let roster = roster_of(rt, alloc, TWO_COUPLES)?;
    publishes_aside_on(alloc, &roster)
}

/// Whether a market with couples is answered with its text when this number of workers matches the singles.
pub fn answers<T: Threads + Wait + Sync>(
    rt: &T,
    alloc: Global,
    workers: u32,
) -> Result<bool, SampleError>
    requires { (1 ≤ workers) × (workers ≤ 64) }
{
    let roster = roster_of(rt, alloc, TWO_COUPLES)?;
    let options = Options { workers, budget: 5 };
    match answer_to_market::<RothPeranson, T>(rt, alloc, &roster, options) {
        Ok(text) => Ok(text.as_slice() == TWO_COUPLES_TEXT),
        Err(refusal) if refusal.code == OUT_OF_MEMORY => Err(SampleError::Memory),
        Err(_) => Ok(false),
    }
}
