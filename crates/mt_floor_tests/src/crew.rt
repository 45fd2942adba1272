//! Workers: more than one of them acts, none leaves anything to be finished, and they end in the best match.
ghost use Rattle.std.specs.Prelude.{◌≡◌, ◌≤◌};

use crate::expect::{on_ranks, same};
use crate::floor::CHAIN_END;
use crate::hall::{Acts, Case, Left, expect_case};
use crate::hundred::{Orders, common_places, common_proposals, hundred};
use mt_crew::{Closing, Gate, Open, Singles, work, work_alone};
use mt_hall::{Answer, Door, Hall, HallName, Pass};
use mt_ranks::Ranks;
use mt_samples::markets::{CHAIN, CROSSED};
use mt_terms::{AppNo, ProgNo};
use std::alloc::{AllocError, Global};
use std::process::Abort;
use std::sync::atomic::{AtomicU64, Ordering};
use std::sync::{Mutex, Wait};
use std::test::Fail;
use std::thread;
use std::thread::{Scope, Threads};

// Two posts and three applicants, the last of whom takes the second one's place.
const TWO_POSTS: &[u8] = b"match,1\n\
    program,P,2,c,a,b\n\
    applicant,a,P\n\
    applicant,b,P\n\
    applicant,c,P\n";

// How often to look for what another thread has to do.
const LOOKS: u32 = 1_000_000;

// How many tickets a worker had, and how many proposals its pass had in the end.
#[derive(Drop)]
struct Seen {
    tickets: AtomicU64,
    proposals: AtomicU64,
}

// A gate that remembers what each worker did. If the workers are to meet, it holds the first ticket of each until
// every one has had one.
#[derive(Drop)]
struct Watch {
    seats: Vec<Seen>,
    came: AtomicU64,
    meet: bool,
    missed: AtomicU64,
    misdealt: AtomicU64,
    closings: AtomicU64,
    late: AtomicU64,
    disorders: AtomicU64,
}

fn open_watch(alloc: Global, workers: u32, meet: bool) -> Result<Watch, AllocError> {
    let mut seats = Vec::with_capacity(alloc, workers as usize)?;
    for _ in 0..workers {
        seats.push(Seen {
            tickets: AtomicU64::new(0),
            proposals: AtomicU64::new(0),
        })?;
    }
    Ok(Watch {
        seats,
        came: AtomicU64::new(0),
        meet,
        missed: AtomicU64::new(0),
        misdealt: AtomicU64::new(0),
        closings: AtomicU64::new(0),
        late: AtomicU64::new(0),
        disorders: AtomicU64::new(0),
    })
}

impl Watch {
    fn all_came(&self) -> bool {
        self.came.load(Ordering::SeqCst) == self.seats.len() as u64
    }

    fn await_all(&self) {
        for _ in 0..LOOKS {
            if self.all_came() {
                return;
            }
            thread::yield_now();
        }
        self.missed.fetch_add(1, Ordering::SeqCst);
    }

    // How many proposals the passes had that it saw last, and whether each of them had one.
    fn proposals(&self) -> (u64, bool) {
        let (mut all, mut each) = (0u64, true);
        for seen in self.seats.iter() {
            let proposals = seen.proposals.load(Ordering::SeqCst);
            all = all.saturating_add(proposals);
            each &= proposals > 0;
        }
        (all, each)
    }
}

impl Gate for Watch {
    fn before(&self, worker: u32, applicant: AppNo) {
        if let Some(seen) = self.seats.get(worker as usize) {
            let tickets = seen.tickets.fetch_add(1, Ordering::SeqCst);
            if self.meet && tickets == 0 {
                self.came.fetch_add(1, Ordering::SeqCst);
                self.await_all();
                if applicant.0 != worker {
                    self.misdealt.fetch_add(1, Ordering::SeqCst);
                }
            }
        }
    }

    fn after<K: HallName>(&self, worker: u32, pass: &Pass<K>) {
        if let Some(seen) = self.seats.get(worker as usize) {
            seen.proposals.store(pass.proposals(), Ordering::SeqCst);
        }
    }

    fn closed(&self, closing: &Closing) {
        self.closings.fetch_add(1, Ordering::SeqCst);
        self.late.fetch_add(closing.late, Ordering::SeqCst);
        if !closing.agrees || closing.astray.is_some() {
            self.disorders.fetch_add(1, Ordering::SeqCst);
        }
    }
}

fn total(counts: &[u32]) -> u64 {
    let mut all: u64 = 0;
    for count in counts {
        all = all.saturating_add(*count as u64);
    }
    all
}

fn expect_singles(
    rt: &impl Abort,
    singles: &Singles,
    places: &[Option<ProgNo>],
    proposals: &[u32],
) {
    same(rt, singles.matched.places.as_slice(), places);
    same(rt, singles.proposals.as_slice(), proposals);
}

// The hall was closed once, with nothing left to be made, no desk astray and counts that agree. The workers' passes
// have all the proposals. If the workers had to meet, all of them started and proposed. Each of them then began with
// the ticket that was dealt to it first: the applicant of its number, in a market of singles.
fn expect_seen(rt: &impl Abort, gate: &Watch, singles: &Singles) {
    let (proposals, each) = gate.proposals();
    same(rt, proposals, total(&singles.proposals));
    same(rt, gate.missed.load(Ordering::SeqCst), 0);
    same(rt, gate.misdealt.load(Ordering::SeqCst), 0);
    same(rt, gate.closings.load(Ordering::SeqCst), 1);
    same(rt, gate.late.load(Ordering::SeqCst), 0);
    same(rt, gate.disorders.load(Ordering::SeqCst), 0);
    assert!(rt; !gate.meet || each);
}

fn expect_in_time<R: Abort + Threads + Wait + Sync>(
    rt: &R,
    alloc: Global,
    ranks: &Ranks,
    workers: u32,
    meet: bool,
    places: &[Option<ProgNo>],
    proposals: &[u32],
) -> Result<(), AllocError>
    requires { (1 ≤ workers) × (workers ≤ 64) }
{
    let gate = open_watch(alloc, workers, meet)?;
    let singles = work(rt, alloc, ranks, workers, &gate)?;
    expect_singles(rt, &singles, places, proposals);
    expect_seen(rt, &gate, &singles);
    Ok(())
}

// One of two workers waits with its first ticket until the other one has one, so both propose.
#[test]
fn two_at_the_gate(rt: HostRuntime) -> Result<(), Fail> {
    on_ranks(&rt, rt.alloc(), CHAIN, |ranks| {
        expect_in_time(&rt, rt.alloc(), ranks, 2, true, &CHAIN_END, &[3, 2])
    })
}

// One thread without locks ends in the same.
fn expect_alone(
    rt: &impl Abort,
    alloc: Global,
    ranks: &Ranks,
    places: &[Option<ProgNo>],
    proposals: &[u32],
) -> Result<(), AllocError> {
    let singles = work_alone(alloc, ranks)?;
    expect_singles(rt, &singles, places, proposals);
    Ok(())
}

// One thread, and several numbers of workers, end in the same.
fn expect_from_all_on<R: Abort + Threads + Wait + Sync>(
    rt: &R,
    alloc: Global,
    ranks: &Ranks,
    places: &[Option<ProgNo>],
    proposals: &[u32],
) -> Result<(), AllocError> {
    expect_alone(rt, alloc, ranks, places, proposals)?;
    expect_in_time(rt, alloc, ranks, 1, false, places, proposals)?;
    expect_in_time(rt, alloc, ranks, 2, false, places, proposals)?;
    expect_in_time(rt, alloc, ranks, 8, false, places, proposals)?;
    expect_in_time(rt, alloc, ranks, 64, false, places, proposals)
}

fn expect_from_all<R: Abort + Threads + Wait + Sync>(
    rt: &R,
    alloc: Global,
    file: &[u8],
    places: &[Option<ProgNo>],
    proposals: &[u32],
) -> Result<(), Fail> {
    on_ranks(rt, alloc, file, |ranks| {
        expect_from_all_on(rt, alloc, ranks, places, proposals)
    })
}

#[test]
fn nothing_is_left_after_the_workers(rt: HostRuntime) -> Result<(), Fail> {
    let alloc = rt.alloc();
    expect_from_all(
        &rt,
        alloc,
        CROSSED,
        &[Some(ProgNo(0)), Some(ProgNo(1))],
        &[1, 1],
    )?;
    expect_from_all(&rt, alloc, CHAIN, &CHAIN_END, &[3, 2])?;
    expect_from_all(
        &rt,
        alloc,
        TWO_POSTS,
        &[Some(ProgNo(0)), None, Some(ProgNo(0))],
        &[3],
    )
}

// One worker, and several that all start and take a ticket before any goes on.
fn expect_of_hundred<R: Abort + Threads + Wait + Sync>(
    rt: &R,
    alloc: Global,
    ranks: &Ranks,
    places: &[Option<ProgNo>],
    proposals: &[u32],
) -> Result<(), AllocError> {
    expect_in_time(rt, alloc, ranks, 1, true, places, proposals)?;
    for _ in 0..10 {
        expect_in_time(rt, alloc, ranks, 2, true, places, proposals)?;
        expect_in_time(rt, alloc, ranks, 8, true, places, proposals)?;
        expect_in_time(rt, alloc, ranks, 64, true, places, proposals)?;
    }
    Ok(())
}

// All compete for the same posts, so most proposals displace somebody.
#[test]
fn nothing_is_left_of_a_hundred(rt: HostRuntime) -> Result<(), Fail> {
    let alloc = rt.alloc();
    let file = hundred(alloc, Orders::Common)?;
    let (places, proposals) = (common_places(alloc)?, common_proposals(alloc)?);
    on_ranks(&rt, alloc, file.as_bytes(), |ranks| {
        expect_of_hundred(&rt, alloc, ranks, &places, &proposals)
    })
}

// The floor of one thread says what the workers have to end in.
fn expect_as_alone<R: Abort + Threads + Wait + Sync>(
    rt: &R,
    alloc: Global,
    ranks: &Ranks,
) -> Result<(), AllocError> {
    let alone = work_alone(alloc, ranks)?;
    expect_of_hundred(
        rt,
        alloc,
        ranks,
        alone.matched.places.as_slice(),
        &alone.proposals,
    )
}

#[test]
fn nothing_is_left_of_orders_of_their_own(rt: HostRuntime) -> Result<(), Fail> {
    let alloc = rt.alloc();
    let file = hundred(alloc, Orders::Own)?;
    on_ranks(&rt, alloc, file.as_bytes(), |ranks| {
        expect_as_alone(&rt, alloc, ranks)
    })
}

// A gate at which workers give way, some times that differ from ticket to ticket.
#[derive(Drop)]
struct Unrest {
    state: AtomicU64,
}

impl Unrest {
    fn pause(&self) {
        // Knuth's numbers of a linear congruential generator.
        let state = self.state.load(Ordering::SeqCst);
        let next = state
            .wrapping_mul(6364136223846793005)
            .wrapping_add(1442695040888963407);
        self.state.store(next, Ordering::SeqCst);
        for _ in 0..next >> 60 {
            thread::yield_now();
        }
    }
}

impl Gate for Unrest {
    fn before(&self, _worker: u32, _applicant: AppNo) {
        self.pause();
    }

    fn after<K: HallName>(&self, _worker: u32, _pass: &Pass<K>) {
        self.pause();
    }
}

// The match of one worker is the match of eight that give way to one another.
fn expect_same<R: Abort + Threads + Wait + Sync>(
    rt: &R,
    alloc: Global,
    ranks: &Ranks,
    runs: u32,
) -> Result<(), AllocError> {
    let alone = work(rt, alloc, ranks, 1, &Open)?;
    let gate = Unrest {
        state: AtomicU64::new(1),
    };
    for _ in 0..runs {
        let together = work(rt, alloc, ranks, 8, &gate)?;
        expect_singles(
            rt,
            &together,
            alone.matched.places.as_slice(),
            &alone.proposals,
        );
    }
    Ok(())
}

#[test]
fn unrest_at_the_gate_changes_nothing(rt: HostRuntime) -> Result<(), Fail> {
    let file = hundred(rt.alloc(), Orders::Own)?;
    on_ranks(&rt, rt.alloc(), file.as_bytes(), |ranks| {
        expect_same(&rt, rt.alloc(), ranks, 50)
    })
}

// Whether a thread has done its part, looked at for some time.
fn is_done(flag: &AtomicU64) -> bool {
    for _ in 0..LOOKS {
        if flag.load(Ordering::SeqCst) > 0 {
            return true;
        }
        thread::yield_now();
    }
    false
}

// Advances the applicant once, on a thread of its own.
fn begin<'s, E, K: HallName + Send + Sync, R: Abort + Wait + Sync>(
    rt: &'s R,
    scope: &Scope<'s, E>,
    hall: &'s Hall<'_, K>,
    pass: &'s mut Pass<K>,
    applicant: u32,
    done: &'s AtomicU64,
) {
    let begun = scope.spawn(move || {
        let kept = Answer::Moved {
            to: ProgNo(applicant),
            kept: true,
            displaced: None,
        };
        same(rt, hall.advance(rt, AppNo(applicant), pass), kept);
        done.store(1, Ordering::SeqCst);
    });
    assert!(rt; begun.is_ok());
}

fn give_way() {
    for _ in 0..1000 {
        thread::yield_now();
    }
}

// While the first program's door is held, nothing happens at it, and the second program's door is free.
fn expect_first_waits<K: HallName + Send + Sync, R: Abort + Threads + Wait + Sync>(
    rt: &R,
    hall: &Hall<'_, K>,
    door: &Mutex<Door<K>>,
    first: &mut Pass<K>,
    second: &mut Pass<K>,
    first_done: &AtomicU64,
    second_done: &AtomicU64,
) {
    thread::scope(thread::scope_env(), rt, |scope| {
        let held = door.lock(rt);
        begin(rt, scope, hall, first, 0, first_done);
        give_way();
        begin(rt, scope, hall, second, 1, second_done);
        assert!(rt; is_done(second_done));
        same(rt, first_done.load(Ordering::SeqCst), 0);
        drop(held);
    });
}

pub(crate) fn expect_two_doors<K: HallName + Send + Sync, R: Abort + Threads + Wait + Sync>(
    rt: &R,
    hall: &Hall<'_, K>,
    ranks: &Ranks,
    passes: &mut [Pass<K>],
)
    requires { ranks.now ≡ K.ranked }
{
    assert!(rt; ranks.programs() == 2 && passes.len() == 2);
    let (first_done, second_done) = (AtomicU64::new(0), AtomicU64::new(0));
    let door = hall.door(ProgNo(0));
    let (first, second) = passes.split_at_mut(1);
    expect_first_waits(
        rt,
        hall,
        door,
        &mut first[0],
        &mut second[0],
        &first_done,
        &second_done,
    );
    same(rt, first_done.load(Ordering::SeqCst), 1);
}

const TWO_DOORS: Case<'static> = Case {
    what: "two doors",
    file: CROSSED,
    passes: 2,
    acts: Acts::AtTwoDoors,
    left: Left::Unasked,
};

#[test]
fn two_doors(rt: HostRuntime) -> Result<(), Fail> {
    expect_case(&rt, rt.alloc(), &TWO_DOORS)
}
