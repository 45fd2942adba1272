//! Events on the floor of the singles: the reply to each, and the end in two orders.
ghost use Rattle.mt_terms.specs.Floor.{IsRecorded};
ghost use Rattle.mt_core.specs.Floors.{floor_of, IsOpenedWith};

use crate::expect::{on_ranks, same, same_for};
use mt_core::{Event, Floor, Reply, apply, finish, made, quiet, received, result, run};
use mt_ranks::Ranks;
use mt_samples::markets::{BETWEEN, CHAIN};
use mt_terms::{AppNo, ProgNo};
use std::alloc::{AllocError, Global};
use std::process::Abort;
use std::test::Fail;
use std::thread::Threads;

fn expect_made(rt: &impl Abort, floor: &Floor, ranks: &Ranks, wanted: &[u32])
    requires { IsOpenedWith ranks.now.market floor.now }
{
    assert!(rt; ranks.applicants() as usize == wanted.len());
    for applicant in 0..ranks.applicants() {
        let made = made(floor, AppNo(applicant));
        same(rt, made, wanted[applicant as usize]);
    }
}

fn expect_received(rt: &impl Abort, floor: &Floor, ranks: &Ranks, wanted: &[u32])
    requires { IsOpenedWith ranks.now.market floor.now }
{
    assert!(rt; ranks.programs() as usize == wanted.len());
    for program in 0..ranks.programs() {
        let received = received(floor, ProgNo(program));
        same(rt, received, wanted[program as usize]);
    }
}

// The rejection chain ends with a1 at P2, which wants it most, a2 at P1, which wants it most, and a3 nowhere.
pub(crate) const CHAIN_END: [Option<ProgNo>; 3] = [Some(ProgNo(1)), Some(ProgNo(0)), None];

pub(crate) fn expect_chain_end(
    rt: &impl Abort,
    alloc: Global,
    floor: &Floor,
    ranks: &Ranks,
) -> Result<(), AllocError>
    requires { IsOpenedWith ranks.now.market floor.now }
{
    expect_made(rt, floor, ranks, &[2, 2, 1]);
    expect_received(rt, floor, ranks, &[3, 2]);
    assert!(rt; quiet(floor, ranks));
    let matched = result(alloc, floor, ranks)?;
    same(rt, matched.places.as_slice(), &CHAIN_END);
    Ok(())
}

fn expect_reply(rt: &impl Abort, floor: &mut Floor, ranks: &Ranks, event: Event, reply: Reply)
    requires opened { IsOpenedWith ranks.now.market floor.old }
    requires recorded { IsRecorded ranks.now.market (floor_of ranks.now.market floor.old) }
    ensures opened { IsOpenedWith ranks.now.market floor.new }
    ensures recorded { IsRecorded ranks.now.market (floor_of ranks.now.market floor.new) }
{
    let found = apply(floor, ranks, event);
    same_for(rt, found, reply, &event);
}

fn expect_replies(
    rt: &impl Abort,
    floor: &mut Floor,
    ranks: &Ranks,
    events: &[Event],
    replies: &[Reply],
)
    requires opened { IsOpenedWith ranks.now.market floor.old }
    requires recorded { IsRecorded ranks.now.market (floor_of ranks.now.market floor.old) }
    ensures opened { IsOpenedWith ranks.now.market floor.new }
    ensures recorded { IsRecorded ranks.now.market (floor_of ranks.now.market floor.new) }
{
    assert!(rt; events.len() == replies.len());
    for number in 0..events.len() {
        expect_reply(rt, floor, ranks, events[number], replies[number]);
    }
}

// Each event from the opening floor on gets its reply, and the floor ends as it must.
fn expect_chain(
    rt: &impl Abort,
    alloc: Global,
    ranks: &Ranks,
    events: &[Event],
    replies: &[Reply],
) -> Result<(), AllocError> {
    let mut floor = Floor::open(alloc, ranks)?;
    expect_replies(rt, &mut floor, ranks, events, replies);
    expect_chain_end(rt, alloc, &floor, ranks)
}

// Makes the events on a floor on which some are due, and expects `due` of them to have been due.
fn expect_due(rt: &impl Abort, floor: &mut Floor, ranks: &Ranks, events: &[Event], due: u64)
    requires opened { IsOpenedWith ranks.now.market floor.old }
    requires recorded { IsRecorded ranks.now.market (floor_of ranks.now.market floor.old) }
    ensures opened { IsOpenedWith ranks.now.market floor.new }
    ensures recorded { IsRecorded ranks.now.market (floor_of ranks.now.market floor.new) }
{
    assert!(rt; !quiet(floor, ranks));
    same(rt, run(floor, ranks, events), due);
}

// None of the events is due on the floor any more, and there is nothing to finish.
fn expect_nothing_left(
    rt: &impl Abort,
    alloc: Global,
    floor: &mut Floor,
    ranks: &Ranks,
    events: &[Event],
) -> Result<(), AllocError>
    requires opened { IsOpenedWith ranks.now.market floor.old }
    requires recorded { IsRecorded ranks.now.market (floor_of ranks.now.market floor.old) }
{
    expect_chain_end(rt, alloc, floor, ranks)?;
    same(rt, run(floor, ranks, events), 0);
    same(rt, finish(floor, ranks), 0);
    expect_chain_end(rt, alloc, floor, ranks)
}

// `due` of the events are due, the floor ends as it must, and then nothing is left.
fn expect_run(
    rt: &impl Abort,
    alloc: Global,
    ranks: &Ranks,
    events: &[Event],
    due: u64,
) -> Result<(), AllocError> {
    let mut floor = Floor::open(alloc, ranks)?;
    expect_due(rt, &mut floor, ranks, events, due);
    expect_nothing_left(rt, alloc, &mut floor, ranks, events)
}

// Each applicant's first wish first, and then those that were displaced.
const BY_WISHES: [Event; 9] = [
    Event::Propose(AppNo(0)),
    Event::Propose(AppNo(1)),
    Event::Propose(AppNo(2)),
    Event::Notice(AppNo(0)),
    Event::Propose(AppNo(0)),
    Event::Notice(AppNo(1)),
    Event::Propose(AppNo(1)),
    Event::Notice(AppNo(2)),
    Event::Propose(AppNo(2)),
];

const REPLIES_BY_WISHES: [Reply; 9] = [
    Reply::Kept,
    Reply::Kept,
    Reply::KeptInstead(AppNo(0)),
    Reply::Noticed,
    Reply::KeptInstead(AppNo(1)),
    Reply::Noticed,
    Reply::KeptInstead(AppNo(2)),
    Reply::Noticed,
    Reply::NotDue,
];

// The last applicant first.
const FROM_THE_LAST: [Event; 6] = [
    Event::Propose(AppNo(2)),
    Event::Propose(AppNo(0)),
    Event::Propose(AppNo(0)),
    Event::Propose(AppNo(1)),
    Event::Propose(AppNo(1)),
    Event::Notice(AppNo(2)),
];

const REPLIES_FROM_THE_LAST: [Reply; 6] = [
    Reply::Kept,
    Reply::Refused,
    Reply::Kept,
    Reply::Refused,
    Reply::KeptInstead(AppNo(2)),
    Reply::Noticed,
];

fn expect_order(
    rt: &impl Abort,
    alloc: Global,
    ranks: &Ranks,
    events: &[Event],
    replies: &[Reply],
    due: u64,
) -> Result<(), AllocError> {
    expect_chain(rt, alloc, ranks, events, replies)?;
    expect_run(rt, alloc, ranks, events, due)
}

// Each event gets its reply, and runs count the events that were due.
#[test]
fn two_orders_of_events(rt: HostRuntime) -> Result<(), Fail> {
    on_ranks(&rt, rt.alloc(), CHAIN, |ranks| {
        let alloc = rt.alloc();
        expect_order(&rt, alloc, ranks, &BY_WISHES, &REPLIES_BY_WISHES, 8)?;
        expect_order(&rt, alloc, ranks, &FROM_THE_LAST, &REPLIES_FROM_THE_LAST, 6)
    })
}

// From this floor `finish` makes this number of proposals.
pub(crate) fn expect_finished(
    rt: &impl Abort,
    alloc: Global,
    floor: &mut Floor,
    ranks: &Ranks,
    proposals: u64,
) -> Result<(), AllocError>
    requires opened { IsOpenedWith ranks.now.market floor.old }
    requires recorded { IsRecorded ranks.now.market (floor_of ranks.now.market floor.old) }
{
    assert!(rt; !quiet(floor, ranks));
    same(rt, finish(floor, ranks), proposals);
    expect_chain_end(rt, alloc, floor, ranks)
}

// After these events, which are all due, `finish` makes this number of proposals.
fn expect_finished_after(
    rt: &impl Abort,
    alloc: Global,
    ranks: &Ranks,
    events: &[Event],
    proposals: u64,
) -> Result<(), AllocError> {
    let mut floor = Floor::open(alloc, ranks)?;
    expect_due(rt, &mut floor, ranks, events, events.len() as u64);
    expect_finished(rt, alloc, &mut floor, ranks, proposals)
}

// After the first five events one proposal is to come. The applicant a1 has displaced a2 at P2, so a2 proposes to P1
// and displaces a3 there, which wants no other program.
#[test]
fn the_chain_takes_five_proposals(rt: HostRuntime) -> Result<(), Fail> {
    on_ranks(&rt, rt.alloc(), CHAIN, |ranks| {
        expect_finished_after(&rt, rt.alloc(), ranks, &[], 5)?;
        expect_finished_after(&rt, rt.alloc(), ranks, &BY_WISHES[..5], 1)
    })
}

fn expect_replies_on(
    rt: &impl Abort,
    alloc: Global,
    ranks: &Ranks,
    events: &[Event],
    replies: &[Reply],
) -> Result<(), AllocError> {
    let mut floor = Floor::open(alloc, ranks)?;
    expect_replies(rt, &mut floor, ranks, events, replies);
    Ok(())
}

// Each event from the opening floor of the market on gets its reply.
fn expect_replies_from<R: Abort + Threads + Sync>(
    rt: &R,
    alloc: Global,
    file: &[u8],
    events: &[Event],
    replies: &[Reply],
) -> Result<(), Fail> {
    on_ranks(rt, alloc, file, |ranks| {
        expect_replies_on(rt, alloc, ranks, events, replies)
    })
}

// In the market of the couple the applicants 1 and 2 are members, and 3 is the first number past the end. They have no
// events before the single's proposal, and none after it.
const OF_NO_SINGLE: [Event; 15] = [
    Event::Propose(AppNo(1)),
    Event::Propose(AppNo(2)),
    Event::Propose(AppNo(3)),
    Event::Propose(AppNo(u32::MAX)),
    Event::Notice(AppNo(1)),
    Event::Notice(AppNo(3)),
    Event::Notice(AppNo(u32::MAX)),
    Event::Propose(AppNo(0)),
    Event::Propose(AppNo(1)),
    Event::Propose(AppNo(2)),
    Event::Propose(AppNo(3)),
    Event::Propose(AppNo(u32::MAX)),
    Event::Notice(AppNo(1)),
    Event::Notice(AppNo(3)),
    Event::Notice(AppNo(u32::MAX)),
];

const TO_NO_SINGLE: [Reply; 15] = [
    Reply::NotDue,
    Reply::NotDue,
    Reply::NotDue,
    Reply::NotDue,
    Reply::NotDue,
    Reply::NotDue,
    Reply::NotDue,
    Reply::Kept,
    Reply::NotDue,
    Reply::NotDue,
    Reply::NotDue,
    Reply::NotDue,
    Reply::NotDue,
    Reply::NotDue,
    Reply::NotDue,
];

#[test]
fn only_singles_have_events(rt: HostRuntime) -> Result<(), Fail> {
    expect_replies_from(&rt, rt.alloc(), BETWEEN, &OF_NO_SINGLE, &TO_NO_SINGLE)
}

// If a1 stands at P1 and is held, it has nothing to propose or to learn, and nobody else stands. Once a3 has
// displaced a1, it learns that before it proposes.
const TOO_EARLY: [Event; 8] = [
    Event::Propose(AppNo(0)),
    Event::Propose(AppNo(0)),
    Event::Notice(AppNo(0)),
    Event::Notice(AppNo(1)),
    Event::Notice(AppNo(2)),
    Event::Propose(AppNo(2)),
    Event::Propose(AppNo(0)),
    Event::Notice(AppNo(0)),
];

const TO_TOO_EARLY: [Reply; 8] = [
    Reply::Kept,
    Reply::NotDue,
    Reply::NotDue,
    Reply::NotDue,
    Reply::NotDue,
    Reply::KeptInstead(AppNo(0)),
    Reply::NotDue,
    Reply::Noticed,
];

#[test]
fn events_wait_until_they_are_due(rt: HostRuntime) -> Result<(), Fail> {
    expect_replies_from(&rt, rt.alloc(), CHAIN, &TOO_EARLY, &TO_TOO_EARLY)
}
