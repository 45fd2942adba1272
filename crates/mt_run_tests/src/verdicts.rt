//! Matches given by hand, and the finding against each, worked out from the rules beside it. A match is written as
//! the places of the applicants in order of registration, `-` for none. A finding is written by ids, with the
//! position from 0 of the option that would be taken.
ghost use Rattle.std.specs.Prelude.{◌≡◌};
ghost use Rattle.mt_ranks.specs.Ranked.{ranked_of};

use crate::expect::same_for;
use crate::finding::plain_finding;
use mt_ranks::Ranks;
use mt_roster::Roster;
use mt_samples::couples::{
    COUPLE_DISPLACES_A_SINGLE, COUPLE_IN_ITS_OWN_WAY, COUPLE_LACKS_A_SECOND_POST, NO_STABLE_MATCH,
};
use mt_samples::markets::{BETWEEN, CHAIN, SampleError};
use mt_samples::tables::with_ranks;
use mt_terms::{Agent, Blocker, ProgNo, Verdict};
use std::alloc::{AllocError, Global};
use std::process::Abort;
use std::thread::Threads;

// A market's name, its file, and matches of it with the finding against each.
type Judged = (
    &'static str,
    &'static [u8],
    &'static [(&'static str, &'static str)],
);

// x prefers t, which is there. y and z would both take s, which wants y more. At y it doesn't block with z, which
// comes later on its list.
const SINGLES: &[u8] =
    b"match,1\nprogram,x,1,t,s\nprogram,y,1,s\nprogram,z,1,s\napplicant,t,x\napplicant,s,x,y,z\n";

// x prefers s, which is there. z and y would take the couple, and so would z and w, which it wants less.
const PAIRS: &[u8] =
    b"match,1\nprogram,x,1,s,a\nprogram,y,1,b\nprogram,z,1,a\nprogram,w,1,b\napplicant,s,x\ncouple,c,a,b,x,y,z,y,z,w\n";

// Each has a program to itself, so each unplaced agent blocks: the one with the lowest number first, a couple by the
// number of a. The applicants are t, a, b, s in this order.
const ALL_FREE: &[u8] =
    b"match,1\nprogram,v,1,t\nprogram,x,1,a\nprogram,y,1,b\nprogram,z,1,s\napplicant,t,v\ncouple,c,a,b,x,y\napplicant,s,z\n";

// y doesn't list b, so the couple doesn't block, and s behind it does. The applicants are a, b, s.
const BEHIND: &[u8] =
    b"match,1\nprogram,x,1,a\nprogram,y,1\nprogram,z,1,s\ncouple,c,a,b,x,y\napplicant,s,z\n";

// Each member alone would be the first choice of a program with one post, and of the two together only the first is.
// Without a post nobody is.
const ONE_POST: &[u8] =
    b"match,1\nprogram,x,1,a,b\nprogram,y,0,d,e\ncouple,c,a,b,x,x\ncouple,f,d,e,y,y\n";

// x ranks the member a above b, and y ranks b above a. So when a is at x and b at y, neither would be taken by the
// other's program unless both are taken out first.
const EXCHANGE: &[u8] = b"match,1\nprogram,x,1,a,b\nprogram,y,1,b,a\ncouple,c,a,b,y,x,x,y\n";

// y ranks the single above b, and x would take a alone.
const HALF: &[u8] =
    b"match,2\nprogram,x,1,a\nprogram,y,1,s,b\napplicant,s,y\ncouple,c,a,b,x,y,x,-\n";

// y prefers b, which is there and would be sent nowhere: its post is then a's.
const NOWHERE: &[u8] = b"match,2\nprogram,x,1,a\nprogram,y,1,b,a\ncouple,c,a,b,y,-,x,y\n";

// Both programs list both members, and the couple lists x for both alone. Whichever of its members is placed, the
// couple is reported at a, which has the lower number.
const NO_PAIR: &[u8] =
    b"match,1\nprogram,x,2,a,b\nprogram,y,1,s,a,b\napplicant,s,y\ncouple,c,a,b,x,x\n";

// The couple lists x for a alone, so it can't have x for b alone.
const OTHER_HALF: &[u8] = b"match,2\nprogram,x,1,a,b\ncouple,c,a,b,x,-\n";

// The pair of x and y is on the couple's list, and y doesn't list b: b is reported at its own number.
const UNLISTED_MEMBER: &[u8] = b"match,1\nprogram,x,2,a,b\nprogram,y,1,a\ncouple,c,a,b,x,y,x,x\n";

// x lists s, which doesn't list x. s lists y, which doesn't list s. So s can be nowhere.
const ONE_SIDE: &[u8] = b"match,1\nprogram,x,1,s\nprogram,y,2,t\napplicant,t,y\napplicant,s,y\n";

// y has no post. With s at x beside a both programs are over their quotas, and without s only y is.
const OVER: &[u8] = b"match,1\nprogram,x,1,s,a\nprogram,y,0,b\napplicant,s,x\ncouple,c,a,b,x,y\n";

// y doesn't list w. With t and u at x it is over its quota, and an unplaced s blocks with y. There are three kinds of
// finding: the first match has all, the second two and the third one. In the fourth both s and w are at places that
// aren't allowed.
const THREE_KINDS: &[u8] =
    b"match,1\nprogram,x,1,t,u\nprogram,y,1,s\napplicant,s,y\napplicant,t,x\napplicant,u,x\napplicant,w,y\n";

// The number of the program with this id.
fn program_called(roster: &Roster, id: &str) -> Option<ProgNo> {
    for number in 0..roster.programs() {
        let program = ProgNo(number);
        if roster.program_id(program) == id.as_bytes() {
            return Some(program);
        }
    }
    None
}

// The places that a text gives.
fn read_places(
    alloc: Global,
    roster: &Roster,
    text: &str,
) -> Result<Vec<Option<ProgNo>>, AllocError> {
    let mut places = Vec::new(alloc);
    for id in text.split_whitespace() {
        places.push(program_called(roster, id))?;
    }
    Ok(places)
}

// A verdict as a text: an agent that blocks with its number and its option.
fn shown(alloc: Global, verdict: &Verdict) -> Result<String, AllocError> {
    match verdict {
        Verdict::Stable => String::from_str(alloc, "stable"),
        Verdict::Unlisted(applicant) => format!(in alloc; "unlisted {}", applicant.0),
        Verdict::Over(program) => format!(in alloc; "over {}", program.0),
        Verdict::Blocks(Blocker { agent, option }) => match agent {
            Agent::Single(single) => format!(in alloc; "single {} by {option}", single.0),
            Agent::Couple(couple) => format!(in alloc; "couple {} by {option}", couple.0),
        },
    }
}

// What the verifier says of a match.
fn finding_on<R: Abort + Threads + Sync>(
    rt: &R,
    alloc: Global,
    roster: &Roster,
    ranks: &Ranks,
    match_text: &str,
) -> Result<String, AllocError>
    requires { ranks.now ≡ ranked_of roster.now.market }
{
    let places = read_places(alloc, roster, match_text)?;
    let verdict = plain_finding(rt, alloc, match_text, roster, ranks, places)?;
    shown(alloc, &verdict)
}

// The same by the market of a file.
fn finding<R: Abort + Threads + Sync>(
    rt: &R,
    alloc: Global,
    file: &[u8],
    match_text: &str,
) -> Result<String, SampleError> {
    with_ranks(
        rt,
        alloc,
        file,
        |roster: &Roster, ranks: &Ranks<'_>| -> Result<String, AllocError>
            requires { ranks.now ≡ ranked_of roster.now.market }
        { finding_on(rt, alloc, roster, ranks, match_text) },
    )
}

const PLACES_THAT_ARE_NOT_ALLOWED: &[Judged] = &[
    (
        "no pair",
        NO_PAIR,
        &[
            ("- x -", "unlisted 1"),
            ("- - x", "unlisted 1"),
            ("- x y", "unlisted 1"),
            ("- y x", "unlisted 1"),
            ("y x x", "stable"),
        ],
    ),
    (
        "the other half",
        OTHER_HALF,
        &[("- x", "unlisted 0"), ("x -", "stable")],
    ),
    (
        "an unlisted member",
        UNLISTED_MEMBER,
        &[("x y", "unlisted 1"), ("x x", "stable")],
    ),
    (
        "entries of one side",
        ONE_SIDE,
        &[
            ("y x", "unlisted 1"),
            ("y y", "unlisted 1"),
            ("y -", "stable"),
        ],
    ),
    (
        "no second post",
        COUPLE_LACKS_A_SECOND_POST,
        &[("y x -", "unlisted 1"), ("y - -", "stable")],
    ),
];

const PROGRAMS_OVER_THEIR_QUOTAS: &[Judged] = &[
    (
        "a single between",
        BETWEEN,
        &[("x x x", "over 0"), ("x - -", "stable")],
    ),
    (
        "over",
        OVER,
        &[
            ("x x y", "over 0"),
            ("- x y", "over 1"),
            ("x - -", "stable"),
        ],
    ),
    (
        "one post or none",
        ONE_POST,
        &[("x x - -", "over 0"), ("- - - -", "stable")],
    ),
    (
        "three kinds",
        THREE_KINDS,
        &[
            ("- x x y", "unlisted 3"),
            ("- x x -", "over 0"),
            ("- x - -", "single 0 by 0"),
            ("x - - y", "unlisted 0"),
            ("y x - -", "stable"),
        ],
    ),
];

const AGENTS_THAT_BLOCK: &[Judged] = &[
    (
        "singles",
        SINGLES,
        &[
            ("x -", "single 1 by 1"),
            ("x z", "single 1 by 1"),
            ("x y", "stable"),
            ("- y", "single 0 by 0"),
        ],
    ),
    (
        "the chain",
        CHAIN,
        &[("P1 P2 -", "single 2 by 0"), ("P2 P1 -", "stable")],
    ),
    (
        "pairs",
        PAIRS,
        &[
            ("x - -", "couple 0 by 1"),
            ("x z w", "couple 0 by 1"),
            ("x z y", "stable"),
        ],
    ),
    (
        "all free",
        ALL_FREE,
        &[
            ("- - - -", "single 0 by 0"),
            ("v - - -", "couple 0 by 0"),
            ("v x y -", "single 3 by 0"),
            ("v x y z", "stable"),
        ],
    ),
    (
        "a single behind a couple",
        BEHIND,
        &[("- - -", "single 2 by 0"), ("- - z", "stable")],
    ),
];

const COUPLES_THAT_BLOCK_ONCE_THEY_ARE_TAKEN_OUT: &[Judged] = &[
    (
        "both members above",
        COUPLE_DISPLACES_A_SINGLE,
        &[("x - -", "couple 0 by 0"), ("- x x", "stable")],
    ),
    (
        "members exchanged",
        EXCHANGE,
        &[("x y", "couple 0 by 0"), ("y x", "stable")],
    ),
    (
        "room of its own",
        COUPLE_IN_ITS_OWN_WAY,
        &[
            ("- x y", "couple 0 by 0"),
            ("- w x", "single 0 by 0"),
            ("x - -", "couple 0 by 1"),
        ],
    ),
    (
        "half a pair",
        HALF,
        &[("y - -", "couple 0 by 1"), ("y x -", "stable")],
    ),
    (
        "a member sent nowhere",
        NOWHERE,
        &[("x y", "couple 0 by 0"), ("y -", "stable")],
    ),
];

fn expect_findings_on<R: Abort + Threads + Sync>(
    rt: &R,
    alloc: Global,
    of: &str,
    file: &[u8],
    matches: &[(&str, &str)],
) {
    for (places, wanted) in matches {
        let found = finding(rt, alloc, file, places).expect(rt, of);
        same_for(rt, found.as_str(), *wanted, (of, *places));
    }
}

fn expect_findings<R: Abort + Threads + Sync>(rt: &R, alloc: Global, judged: &[Judged]) {
    for (of, file, matches) in judged {
        expect_findings_on(rt, alloc, of, file, matches);
    }
}

#[test]
fn each_match_gets_its_finding(rt: HostRuntime) {
    let alloc = rt.alloc();
    expect_findings(&rt, alloc, PLACES_THAT_ARE_NOT_ALLOWED);
    expect_findings(&rt, alloc, PROGRAMS_OVER_THEIR_QUOTAS);
    expect_findings(&rt, alloc, AGENTS_THAT_BLOCK);
    expect_findings(&rt, alloc, COUPLES_THAT_BLOCK_ONCE_THEY_ARE_TAKEN_OUT);
}

// All 27 ways to place three applicants at two programs.
const ALL_PLACES: &[&str] = &[
    "- - -", "- - x", "- - y", "- x -", "- x x", "- x y", "- y -", "- y x", "- y y", "x - -",
    "x - x", "x - y", "x x -", "x x x", "x x y", "x y -", "x y x", "x y y", "y - -", "y - x",
    "y - y", "y x -", "y x x", "y x y", "y y -", "y y x", "y y y",
];

#[test]
fn a_market_without_a_stable_match(rt: HostRuntime) {
    for places in ALL_PLACES {
        let found = finding(&rt, rt.alloc(), NO_STABLE_MATCH, places).expect(&rt, "a finding");
        same_for(&rt, found.as_str() == "stable", false, *places);
    }
}
