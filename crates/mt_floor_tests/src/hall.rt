//! The floor behind locks: the answer to each call, and what two threads make of it.
ghost use Rattle.std.specs.Prelude.{◌≡◌, ◌+◌, ◌≤◌};
ghost use Rattle.mt_terms.specs.Market.{applicants};
ghost use Rattle.mt_terms.specs.Floor.{IsRecorded};
ghost use Rattle.mt_core.specs.Floors.{floor_of, IsOpenedWith};

use crate::crew::expect_two_doors;
use crate::expect::{on_ranks, same, same_for};
use crate::floor::{expect_chain_end, expect_finished};
use crate::hundred::{ALL_COMMON_PROPOSALS, Orders, common_places, hundred};
use crate::parts::{came_to, sum_by_program};
use mt_core::{Floor, finish, result};
use mt_hall::{Answer, Audit, Door, Hall, HallName, Pass};
use mt_ranks::Ranks;
use mt_samples::markets::{BETWEEN, CHAIN};
use mt_terms::{AppNo, ProgNo};
use std::alloc::{AllocError, Global};
use std::marker::Brand;
use std::process::Abort;
use std::sync::ledger::Blank;
use std::sync::{Mutex, Wait};
use std::test::Fail;
use std::thread;
use std::thread::Threads;

// A blank for each applicant's part and each pass's.
fn blank_for(ranks: &Ranks, workers: u32) -> Blank
    ensures { result.parts ≡ applicants ranks.now.market + workers }
{
    Blank::new(ranks.applicants() as u64 + workers as u64)
}

// An answer, by the numbers of programs and applicants.
#[derive(Clone, Copy)]
pub(crate) enum Said {
    Held(u32),
    // Held by the program, which displaced an applicant for it.
    HeldInstead(u32, u32),
    Refused(u32),
    Told(u32),
    At(u32),
    Out,
    Stranger,
}

fn answer_of(said: Said) -> Answer {
    let (to, kept, displaced) = match said {
        Said::Held(to) => (to, true, None),
        Said::HeldInstead(to, other) => (to, true, Some(AppNo(other))),
        Said::Refused(to) => (to, false, None),
        Said::Told(by) => return Answer::Told { by: ProgNo(by) },
        Said::At(place) => {
            return Answer::At {
                place: ProgNo(place),
            };
        }
        Said::Out => return Answer::Out,
        Said::Stranger => return Answer::Stranger,
    };
    Answer::Moved {
        to: ProgNo(to),
        kept,
        displaced,
    }
}

// Advances applicants one after another with the pass, and expects these answers.
fn expect_answers<K: HallName, R: Abort + Wait>(
    rt: &R,
    hall: &Hall<'_, K>,
    pass: &mut Pass<K>,
    of: &str,
    answers: &[(u32, Said)],
) {
    for (applicant, said) in answers {
        let answer = hall.advance(rt, AppNo(*applicant), pass);
        same_for(rt, answer, answer_of(*said), (of, *applicant));
    }
}

// By turns, each with its own pass.
fn expect_turns<K: HallName, R: Abort + Wait>(
    rt: &R,
    hall: &Hall<'_, K>,
    passes: &mut [Pass<K>],
    of: &str,
    turns: &[Turn<'_>],
) {
    for (pass, answers) in turns {
        assert!(rt; *pass < passes.len());
        expect_answers(rt, hall, &mut passes[*pass], of, answers);
    }
}

fn expect_proposed_to<K: HallName>(
    rt: &impl Abort,
    ranks: &Ranks,
    pass: &Pass<K>,
    of: &str,
    to: &[u32],
)
    requires { ranks.now ≡ K.ranked }
{
    assert!(rt; ranks.programs() as usize == to.len());
    for program in 0..ranks.programs() {
        let proposed = pass.proposed(ProgNo(program));
        same_for(rt, proposed, to[program as usize] as u64, (of, program));
    }
}

fn expect_proposed_by<K: HallName>(
    rt: &impl Abort,
    ranks: &Ranks,
    pass: &Pass<K>,
    of: &str,
    by: &[u32],
)
    requires { ranks.now ≡ K.ranked }
{
    assert!(rt; ranks.applicants() as usize == by.len());
    for applicant in 0..ranks.applicants() {
        let proposed = pass.proposed_for(AppNo(applicant));
        same_for(rt, proposed, by[applicant as usize] as u64, (of, applicant));
    }
}

// The pass made this number of proposals. A thread that is alone finds each lock free.
fn expect_pass<K: HallName>(
    rt: &impl Abort,
    ranks: &Ranks,
    pass: &Pass<K>,
    of: &str,
    counts: Counts<'_>,
)
    requires { ranks.now ≡ K.ranked }
{
    let (proposals, to, by) = counts;
    same_for(rt, pass.proposals(), proposals, of);
    same_for(rt, sum_by_program(ranks, pass), proposals, of);
    expect_proposed_to(rt, ranks, pass, of, to);
    expect_proposed_by(rt, ranks, pass, of, by);
    same_for(rt, pass.contended_locks(), 0, of);
}

fn expect_passes<K: HallName>(
    rt: &impl Abort,
    ranks: &Ranks,
    passes: &[Pass<K>],
    of: &str,
    counts: &[Counts<'_>],
)
    requires { ranks.now ≡ K.ranked }
{
    assert!(rt; passes.len() == counts.len());
    for number in 0..passes.len() {
        expect_pass(rt, ranks, &passes[number], of, counts[number]);
    }
}

fn expect_door<K: HallName, R: Abort + Wait>(
    rt: &R,
    door: &Mutex<Door<K>>,
    ranks: &Ranks,
    program: ProgNo,
    received: u32,
)
    requires { ranks.now ≡ K.ranked }
{
    let locked = door.lock(rt);
    same(rt, locked.program(), program);
    same(rt, came_to(ranks, &locked), received);
}

// The lock of each door has the door of that program, which has received this number of proposals.
fn expect_doors<K: HallName, R: Abort + Wait>(
    rt: &R,
    hall: &Hall<'_, K>,
    ranks: &Ranks,
    received: &[u32],
)
    requires { ranks.now ≡ K.ranked }
{
    assert!(rt; ranks.programs() as usize == received.len());
    for program in 0..ranks.programs() {
        let wanted = received[program as usize];
        let program = ProgNo(program);
        expect_door(rt, hall.door(program), ranks, program, wanted);
    }
}

// Every desk is in its place, and the passes' counts add up to the floor's.
fn expect_order(rt: &impl Abort, audit: &Audit) {
    same(rt, audit.astray, None);
    assert!(rt; audit.agrees);
}

// Nothing is left to be made, and the hundred of the common order are at their places.
fn expect_common_end(
    rt: &impl Abort,
    alloc: Global,
    floor: &mut Floor,
    ranks: &Ranks,
) -> Result<(), AllocError>
    requires opened { IsOpenedWith ranks.now.market floor.old }
    requires recorded { IsRecorded ranks.now.market (floor_of ranks.now.market floor.old) }
{
    same(rt, finish(floor, ranks), 0);
    let matched = result(alloc, floor, ranks)?;
    let places = common_places(alloc)?;
    same(rt, matched.places.as_slice(), places.as_slice());
    Ok(())
}

fn expect_left(
    rt: &impl Abort,
    alloc: Global,
    floor: &mut Floor,
    ranks: &Ranks,
    left: Left,
) -> Result<(), AllocError>
    requires opened { IsOpenedWith ranks.now.market floor.old }
    requires recorded { IsRecorded ranks.now.market (floor_of ranks.now.market floor.old) }
{
    match left {
        Left::Unasked => Ok(()),
        Left::OfChain(0) => expect_chain_end(rt, alloc, floor, ranks),
        Left::OfChain(left) => expect_finished(rt, alloc, floor, ranks, left),
        Left::OfCommon => expect_common_end(rt, alloc, floor, ranks),
    }
}

// Whose pass it is, the applicants that it advances, and their answers.
pub(crate) type Turn<'a> = (usize, &'a [(u32, Said)]);

// How many proposals a pass has: in all, to each program, and for each applicant.
pub(crate) type Counts<'a> = (u64, &'a [u32], &'a [u32]);

// What is done in a hall.
#[derive(Drop)]
pub(crate) enum Acts<'a> {
    // One thread takes these turns. Then the passes have these counts, and the programs have received these numbers
    // of proposals.
    ByTurns {
        turns: &'a [Turn<'a>],
        counts: &'a [Counts<'a>],
        received: &'a [u32],
    },
    // A thread for each pass. The passes have this number of proposals together.
    OnThreads {
        proposals: u128,
    },
    // Two threads, one at each of two doors, the first of which is held.
    AtTwoDoors,
}

#[derive(Drop)]
pub(crate) struct Case<'a> {
    pub(crate) what: &'a str,
    pub(crate) file: &'a [u8],
    pub(crate) passes: u32,
    pub(crate) acts: Acts<'a>,
    pub(crate) left: Left,
}

// What is left to be finished on the floor.
#[derive(Clone, Copy)]
pub(crate) enum Left {
    // No test asks.
    Unasked,
    // This many of the chain's five proposals.
    OfChain(u64),
    // Nothing, with the hundred of the common order at their places.
    OfCommon,
}

fn expect_acts<K: HallName + Send + Sync, R: Abort + Threads + Wait + Sync>(
    rt: &R,
    hall: &Hall<'_, K>,
    ranks: &Ranks,
    passes: &mut [Pass<K>],
    case: &Case<'_>,
)
    requires { ranks.now ≡ K.ranked }
{
    match &case.acts {
        Acts::ByTurns {
            turns,
            counts,
            received,
        } => {
            expect_turns(rt, hall, passes, case.what, turns);
            expect_passes(rt, ranks, passes, case.what, counts);
            expect_doors(rt, hall, ranks, received);
        }
        Acts::OnThreads { proposals } => {
            work_all(rt, hall, passes, ranks.applicants());
            same(rt, total(passes), *proposals);
        }
        Acts::AtTwoDoors => expect_two_doors(rt, hall, ranks, passes),
    }
}

// Makes a case in a hall, and expects how the hall's floor ends.
fn case_in<K: HallName + Send + Sync, R: Abort + Threads + Wait + Sync>(
    rt: &R,
    alloc: Global,
    ranks: &Ranks,
    blank: Blank,
    case: &Case<'_>,
) -> Result<(), AllocError>
    requires ranks { ranks.now ≡ K.ranked }
    requires name { blank.name ≡ K.name }
    requires parts { (blank.parts ≡ K.parts) × (K.parts ≡ applicants K.ranked.market + case.now.passes) }
    requires passes { (1 ≤ case.now.passes) × (case.now.passes ≤ 64) }
{
    let (hall, mut passes) = Hall::<K>::open(alloc, ranks, case.passes, blank)?;
    expect_acts(rt, &hall, ranks, &mut passes, case);
    let mut audit = hall.close(passes);
    expect_order(rt, &audit);
    expect_left(rt, alloc, &mut audit.floor, ranks, case.left)
}

fn case_on<R: Abort + Threads + Wait + Sync>(
    rt: &R,
    alloc: Global,
    ranks: &Ranks,
    case: &Case<'_>,
) -> Result<(), AllocError> {
    assert!(rt; 1 <= case.passes && case.passes <= 64);
    let blank = blank_for(ranks, case.passes);
    case_in::<Brand, _>(rt, alloc, ranks, blank, case)
}

pub(crate) fn expect_case<R: Abort + Threads + Wait + Sync>(
    rt: &R,
    alloc: Global,
    case: &Case<'_>,
) -> Result<(), Fail> {
    on_ranks(rt, alloc, case.file, |ranks| {
        case_on(rt, alloc, ranks, case)
    })
}

// After the chain everybody is placed or out.
const REST: &[(u32, Said)] = &[
    (2, Said::Out),
    (0, Said::At(1)),
    (1, Said::At(0)),
    (3, Said::Stranger),
];

// The rejection chain: a3 and then a1 and a2 are refused, and a3 learns last that it is out.
const TWO_PASSES: Case<'static> = Case {
    what: "two passes by turns",
    file: CHAIN,
    passes: 2,
    acts: Acts::ByTurns {
        turns: &[
            (0, &[(2, Said::Held(0))]),
            (1, &[(0, Said::Refused(0)), (0, Said::Held(1))]),
            (0, &[(1, Said::Refused(1))]),
            (1, &[(1, Said::HeldInstead(0, 2))]),
            (0, &[(2, Said::Told(0))]),
            (0, REST),
            (1, REST),
        ],
        counts: &[(2, &[1, 1], &[0, 1, 1]), (3, &[2, 1], &[2, 1, 0])],
        received: &[3, 2],
    },
    left: Left::OfChain(0),
};

#[test]
fn each_call_gets_its_answer(rt: HostRuntime) -> Result<(), Fail> {
    expect_case(&rt, rt.alloc(), &TWO_PASSES)
}

const ALONE: &[Case<'static>] = &[
    // The applicant that is displaced has to get its notice, and nobody else is in that call.
    Case {
        what: "each applicant's first wish first",
        file: CHAIN,
        passes: 1,
        acts: Acts::ByTurns {
            turns: &[(
                0,
                &[
                    (0, Said::Held(0)),
                    (1, Said::Held(1)),
                    (2, Said::HeldInstead(0, 0)),
                    (1, Said::At(1)),
                    (0, Said::Told(0)),
                    (0, Said::HeldInstead(1, 1)),
                    (1, Said::Told(1)),
                    (1, Said::HeldInstead(0, 2)),
                    (2, Said::Told(0)),
                    (2, Said::Out),
                    (0, Said::At(1)),
                    (1, Said::At(0)),
                    (3, Said::Stranger),
                ],
            )],
            counts: &[(5, &[3, 2], &[2, 2, 1])],
            received: &[3, 2],
        },
        left: Left::OfChain(0),
    },
    Case {
        what: "one of the chain's five proposals",
        file: CHAIN,
        passes: 1,
        acts: Acts::ByTurns {
            turns: &[(0, &[(2, Said::Held(0))])],
            counts: &[(1, &[1, 0], &[0, 0, 1])],
            received: &[1, 0],
        },
        left: Left::OfChain(4),
    },
    Case {
        what: "numbers past the end",
        file: CHAIN,
        passes: 1,
        acts: Acts::ByTurns {
            turns: &[(0, &[(3, Said::Stranger), (u32::MAX, Said::Stranger)])],
            counts: &[(0, &[0, 0], &[0, 0, 0])],
            received: &[0, 0],
        },
        left: Left::OfChain(5),
    },
    Case {
        what: "members",
        file: BETWEEN,
        passes: 1,
        acts: Acts::ByTurns {
            turns: &[(0, &[(1, Said::Stranger), (2, Said::Stranger)])],
            counts: &[(0, &[0], &[0, 0, 0])],
            received: &[0],
        },
        left: Left::Unasked,
    },
];

#[test]
fn one_thread_alone(rt: HostRuntime) -> Result<(), Fail> {
    for case in ALONE {
        expect_case(&rt, rt.alloc(), case)?;
    }
    Ok(())
}

// Advances each applicant once, and says whether any of them changed anything.
fn sweep<K: HallName, R: Wait>(
    rt: &R,
    hall: &Hall<'_, K>,
    pass: &mut Pass<K>,
    applicants: u32,
) -> bool {
    let mut changed = false;
    for applicant in 0..applicants {
        match hall.advance(rt, AppNo(applicant), pass) {
            Answer::At { place: _ } | Answer::Out | Answer::Stranger => {}
            Answer::Moved {
                to: _,
                kept: _,
                displaced: _,
            }
            | Answer::Told { by: _ } => changed = true,
        }
    }
    changed
}

// Sweeps until each applicant is at its place or out.
fn work<K: HallName, R: Wait>(rt: &R, hall: &Hall<'_, K>, pass: &mut Pass<K>, applicants: u32) {
    for _ in rt.forever() {
        if !sweep(rt, hall, pass, applicants) {
            break;
        }
    }
}

// A thread for each pass.
fn work_all<K: HallName + Send + Sync, R: Abort + Threads + Wait + Sync>(
    rt: &R,
    hall: &Hall<'_, K>,
    passes: &mut [Pass<K>],
    applicants: u32,
) {
    thread::scope(thread::scope_env(), rt, |scope| {
        for pass in passes.iter_mut() {
            let begun = scope.spawn(move || work(rt, hall, pass, applicants));
            assert!(rt; begun.is_ok());
        }
    });
}

// How many proposals the passes have together.
fn total<K: HallName>(passes: &[Pass<K>]) -> u128 {
    let mut all: u128 = 0;
    for pass in passes {
        all = all.saturating_add(pass.proposals() as u128);
    }
    all
}

// The passes together have the chain's proposals, and the last thread to act left a quiet floor.
const TWO_THREADS: Case<'static> = Case {
    what: "two threads",
    file: CHAIN,
    passes: 2,
    acts: Acts::OnThreads { proposals: 5 },
    left: Left::OfChain(0),
};

// Several threads make all proposals of a hundred applicants, and the audit finds each desk in its place and counts
// that agree.
#[test]
fn a_hundred_on_threads(rt: HostRuntime) -> Result<(), Fail> {
    let alloc = rt.alloc();
    let file = hundred(alloc, Orders::Common)?;
    for passes in [1u32, 2, 8, 64] {
        let case = Case {
            what: "a hundred",
            file: file.as_bytes(),
            passes,
            acts: Acts::OnThreads {
                proposals: ALL_COMMON_PROPOSALS,
            },
            left: Left::OfCommon,
        };
        expect_case(&rt, alloc, &case)?;
    }
    Ok(())
}

#[test]
fn two_threads_end_at_the_same_floor(rt: HostRuntime) -> Result<(), Fail> {
    for _ in 0..50 {
        expect_case(&rt, rt.alloc(), &TWO_THREADS)?;
    }
    Ok(())
}
