//! On each worked market the calls give what the plain forms give. The plain match has the text that was worked out by
//! hand, after the number of rounds that `tests/cases/README.md` gives.
ghost use Rattle.std.specs.Prelude.{◌≡◌};
ghost use Rattle.mt_ranks.specs.Ranked.{ranked_of};

use crate::beside::{expect_finding_on_change, expect_findings, expect_stage, expect_tables};
use crate::expect::same_for;
use crate::finding::plain_finding;
use crate::plain::rounds::plain_singles;
use crate::plain::text::plain_text;
use mt_ranks::Ranks;
use mt_roster::Roster;
use mt_samples::large::{one_program, one_program_text, waiting_singles, waiting_singles_text};
use mt_samples::tables::with_ranks;
use mt_samples::{couples, markets, withdrawn, without_couples, work_list};
use mt_terms::{ProgNo, Verdict};
use std::alloc::{AllocError, Global};
use std::process::Abort;
use std::thread::Threads;

// A market's name, its file, how many rounds its couples need, and the text that is published.
type Worked = (&'static str, &'static [u8], u32, &'static [u8]);

const WITHOUT_COUPLES: &[Worked] = &[
    (
        "nobody",
        without_couples::NOBODY,
        0,
        without_couples::NOBODY_TEXT,
    ),
    ("crossed wishes", markets::CROSSED, 0, markets::CROSSED_TEXT),
    (
        "a chain of rejections",
        markets::CHAIN,
        0,
        markets::CHAIN_TEXT,
    ),
    (
        "a quota of zero",
        without_couples::QUOTA_OF_ZERO,
        0,
        without_couples::QUOTA_OF_ZERO_TEXT,
    ),
    (
        "no entry is mutual",
        without_couples::NO_ENTRY_IS_MUTUAL,
        0,
        without_couples::NO_ENTRY_IS_MUTUAL_TEXT,
    ),
    (
        "two posts",
        without_couples::THIRD_ON_A_LIST_FOR_TWO_POSTS,
        0,
        without_couples::THIRD_ON_A_LIST_FOR_TWO_POSTS_TEXT,
    ),
    (
        "the longest id of version 1",
        without_couples::LONGEST_ID,
        0,
        without_couples::LONGEST_ID_TEXT,
    ),
    (
        "the longest id of version 2",
        without_couples::LONGEST_ID_OF_VERSION_2,
        0,
        without_couples::LONGEST_ID_OF_VERSION_2_TEXT,
    ),
    (
        "the largest quota",
        without_couples::LARGEST_QUOTA,
        0,
        without_couples::LARGEST_QUOTA_TEXT,
    ),
    (
        "a spreadsheet's export",
        without_couples::SPREADSHEET_EXPORT,
        0,
        markets::CROSSED_TEXT,
    ),
    (
        "records in any order",
        without_couples::RECORDS_IN_ANY_ORDER,
        0,
        without_couples::RECORDS_IN_ANY_ORDER_TEXT,
    ),
    (
        "a program withdrawn",
        withdrawn::PROGRAM_WITHDRAWN,
        0,
        withdrawn::PROGRAM_WITHDRAWN_TEXT,
    ),
    (
        "an applicant withdrawn",
        withdrawn::APPLICANT_WITHDRAWN_BEFORE_IT_REGISTERS,
        0,
        withdrawn::APPLICANT_WITHDRAWN_BEFORE_IT_REGISTERS_TEXT,
    ),
    (
        "a couple withdrawn",
        withdrawn::COUPLE_WITHDRAWN,
        0,
        withdrawn::COUPLE_WITHDRAWN_TEXT,
    ),
];

const WITH_COUPLES: &[Worked] = &[
    (
        "a single between two members",
        markets::BETWEEN,
        1,
        markets::BETWEEN_TEXT,
    ),
    (
        "no second post",
        couples::COUPLE_LACKS_A_SECOND_POST,
        1,
        couples::COUPLE_LACKS_A_SECOND_POST_TEXT,
    ),
    (
        "a single displaced",
        couples::COUPLE_DISPLACES_A_SINGLE,
        2,
        couples::COUPLE_DISPLACES_A_SINGLE_TEXT,
    ),
    (
        "three couples",
        markets::THREE_COUPLES,
        5,
        markets::THREE_COUPLES_TEXT,
    ),
    (
        "two couples",
        markets::TWO_COUPLES,
        5,
        markets::TWO_COUPLES_TEXT,
    ),
    (
        "half a pair",
        markets::HALF_PAIR,
        4,
        markets::HALF_PAIR_TEXT,
    ),
    (
        "a member gives up its place",
        couples::MEMBER_GIVES_UP_ITS_PLACE,
        5,
        couples::MEMBER_GIVES_UP_ITS_PLACE_TEXT,
    ),
    (
        "a pair goes with its program",
        withdrawn::PAIR_LEAVES_WITH_ITS_PROGRAM,
        4,
        withdrawn::PAIR_LEAVES_WITH_ITS_PROGRAM_TEXT,
    ),
    (
        "one id in three name spaces",
        couples::ONE_ID_IN_THREE_NAME_SPACES,
        1,
        couples::ONE_ID_IN_THREE_NAME_SPACES_TEXT,
    ),
];

const WORK_LIST: &[Worked] = &[
    (
        "displaced by the list",
        work_list::DISPLACED_BY_THE_LIST_OF_THEIR_PROGRAM,
        4,
        work_list::DISPLACED_BY_THE_LIST_OF_THEIR_PROGRAM_TEXT,
    ),
    (
        "displaced by the pair",
        work_list::DISPLACED_IN_THE_ORDER_OF_THE_PAIR,
        4,
        work_list::DISPLACED_IN_THE_ORDER_OF_THE_PAIR_TEXT,
    ),
    (
        "a couple joins once",
        work_list::COUPLE_DISPLACED_TWICE_JOINS_ONCE,
        3,
        work_list::COUPLE_DISPLACED_TWICE_JOINS_ONCE_TEXT,
    ),
    (
        "all choose first",
        work_list::ALL_CHOOSE_BEFORE_ANYBODY_IS_TAKEN_OUT,
        4,
        work_list::ALL_CHOOSE_BEFORE_ANYBODY_IS_TAKEN_OUT_TEXT,
    ),
    (
        "left programs by number",
        work_list::LEFT_PROGRAMS_BY_NUMBER,
        10,
        work_list::LEFT_PROGRAMS_BY_NUMBER_TEXT,
    ),
    (
        "a left program's list",
        work_list::AGENTS_OF_A_LEFT_PROGRAM_BY_ITS_LIST,
        6,
        work_list::AGENTS_OF_A_LEFT_PROGRAM_BY_ITS_LIST_TEXT,
    ),
    (
        "a couple not yet entered",
        work_list::COUPLE_NOT_YET_ENTERED_IS_NOT_LOOKED_AT,
        4,
        work_list::COUPLE_NOT_YET_ENTERED_IS_NOT_LOOKED_AT_TEXT,
    ),
    (
        "a program not left",
        work_list::PROGRAM_OF_THE_DISPLACED_ALONE_IS_NOT_LEFT,
        7,
        work_list::PROGRAM_OF_THE_DISPLACED_ALONE_IS_NOT_LEFT_TEXT,
    ),
    (
        "the mover after the displaced",
        work_list::MOVER_AFTER_THE_DISPLACED,
        4,
        work_list::MOVER_AFTER_THE_DISPLACED_TEXT,
    ),
    (
        "the mover before the others",
        work_list::MOVER_BEFORE_THOSE_OF_LEFT_PROGRAMS,
        8,
        work_list::MOVER_BEFORE_THOSE_OF_LEFT_PROGRAMS_TEXT,
    ),
];

// How many matches of a small market are judged. Most markets have fewer.
const MOST_MATCHES: u32 = 7_000;

// What was worked out of a market by hand, and how many of its matches are judged.
#[derive(Drop)]
struct Known<'a> {
    of: &'a str,
    rounds: u32,
    text: &'a [u8],
    matches: u32,
}

// With one round fewer the budget is spent. The match that the rounds end with has the text, and is stable.
fn expect_known<R: Abort + Threads + Sync>(
    rt: &R,
    alloc: Global,
    known: &Known<'_>,
    roster: &Roster,
    ranks: &Ranks,
    best: &[Option<ProgNo>],
) -> Result<(), AllocError>
    requires { ranks.now ≡ ranked_of roster.now.market }
{
    let of = known.of;
    if known.rounds > 0 {
        let ended = expect_stage(rt, alloc, of, roster, ranks, best, known.rounds - 1)?;
        same_for(rt, ended.is_none(), true, of);
    }
    let ended = expect_stage(rt, alloc, of, roster, ranks, best, known.rounds)?;
    let (places, made) = ended.expect(rt, of);
    same_for(rt, made, known.rounds, of);
    let text = plain_text(alloc, roster, best, places.as_slice());
    same_for(rt, text.as_bytes(), known.text, of);
    let verdict = plain_finding(rt, alloc, of, roster, ranks, places)?;
    same_for(rt, &verdict, &Verdict::Stable, of);
    Ok(())
}

fn expect_worked_on<R: Abort + Threads + Sync>(
    rt: &R,
    alloc: Global,
    known: &Known<'_>,
    roster: &Roster,
    ranks: &Ranks,
) -> Result<(), AllocError>
    requires { ranks.now ≡ ranked_of roster.now.market }
{
    let of = known.of;
    expect_tables(rt, of, roster, ranks);
    expect_findings(rt, alloc, of, roster, ranks, known.matches)?;
    let best = plain_singles(alloc, roster)?;
    expect_finding_on_change(rt, alloc, of, roster, ranks, best.as_slice())?;
    expect_known(rt, alloc, known, roster, ranks, best.as_slice())
}

fn expect_worked<R: Abort + Threads + Sync>(rt: &R, alloc: Global, file: &[u8], known: &Known<'_>) {
    let compared = with_ranks(
        rt,
        alloc,
        file,
        |roster: &Roster, ranks: &Ranks<'_>| -> Result<(), AllocError>
            requires { ranks.now ≡ ranked_of roster.now.market }
        { expect_worked_on(rt, alloc, known, roster, ranks) },
    );
    compared.expect(rt, known.of);
}

fn expect_each<R: Abort + Threads + Sync>(rt: &R, alloc: Global, worked: &[Worked]) {
    for (of, file, rounds, text) in worked {
        let known = Known {
            of,
            rounds: *rounds,
            text,
            matches: MOST_MATCHES,
        };
        expect_worked(rt, alloc, file, &known);
    }
}

#[test]
fn do_small_markets_give_the_plain_answers(rt: HostRuntime) {
    let alloc = rt.alloc();
    expect_each(&rt, alloc, WITHOUT_COUPLES);
    expect_each(&rt, alloc, WITH_COUPLES);
    expect_each(&rt, alloc, WORK_LIST);
}

// Markets where the rounds go round in a circle.
const WITHOUT_END: &[(&str, &[u8])] = &[
    ("no stable match", couples::NO_STABLE_MATCH),
    ("a couple in its own way", couples::COUPLE_IN_ITS_OWN_WAY),
];

fn expect_spent<R: Abort + Threads + Sync>(
    rt: &R,
    alloc: Global,
    of: &str,
    roster: &Roster,
    ranks: &Ranks,
    best: &[Option<ProgNo>],
    budget: u32,
) -> Result<(), AllocError>
    requires { ranks.now ≡ ranked_of roster.now.market }
{
    let ended = expect_stage(rt, alloc, of, roster, ranks, best, budget)?;
    same_for(rt, ended.is_none(), true, (of, budget));
    Ok(())
}

fn expect_no_end_on<R: Abort + Threads + Sync>(
    rt: &R,
    alloc: Global,
    of: &str,
    roster: &Roster,
    ranks: &Ranks,
) -> Result<(), AllocError>
    requires { ranks.now ≡ ranked_of roster.now.market }
{
    expect_tables(rt, of, roster, ranks);
    expect_findings(rt, alloc, of, roster, ranks, MOST_MATCHES)?;
    let best = plain_singles(alloc, roster)?;
    for budget in 0..101u32 {
        expect_spent(rt, alloc, of, roster, ranks, best.as_slice(), budget)?;
    }
    expect_spent(rt, alloc, of, roster, ranks, best.as_slice(), 1_000)
}

fn expect_no_end<R: Abort + Threads + Sync>(rt: &R, alloc: Global, of: &str, file: &[u8]) {
    let compared = with_ranks(
        rt,
        alloc,
        file,
        |roster: &Roster, ranks: &Ranks<'_>| -> Result<(), AllocError>
            requires { ranks.now ≡ ranked_of roster.now.market }
        { expect_no_end_on(rt, alloc, of, roster, ranks) },
    );
    compared.expect(rt, of);
}

#[test]
fn do_rounds_without_end_spend_each_budget(rt: HostRuntime) {
    for (of, file) in WITHOUT_END {
        expect_no_end(&rt, rt.alloc(), of, file);
    }
}

// More applicants than one thread judges, and a market where 3,000 singles are looked at again.
#[test]
fn do_large_markets_give_the_plain_answers(rt: HostRuntime) -> Result<(), AllocError> {
    let alloc = rt.alloc();
    let file = one_program(alloc)?;
    let text = one_program_text(alloc)?;
    let known = Known {
        of: "one program",
        rounds: 0,
        text: text.as_bytes(),
        matches: 1,
    };
    expect_worked(&rt, alloc, file.as_bytes(), &known);
    let file = waiting_singles(alloc)?;
    let text = waiting_singles_text(alloc)?;
    let known = Known {
        of: "waiting singles",
        rounds: 1_005,
        text: text.as_bytes(),
        matches: 1,
    };
    expect_worked(&rt, alloc, file.as_bytes(), &known);
    Ok(())
}
