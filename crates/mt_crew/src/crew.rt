ghost use Rattle.std.specs.Prelude.{◌≡◌, ◌+◌, ◌*◌, ◌≤◌, ◌/◌, map, min, length, vec_len, IfOk, IsFalse, IsTrue};
ghost use Rattle.mt_terms.specs.Best.{IsBest, proposals};
ghost use Rattle.mt_terms.specs.Lists.{below};
ghost use Rattle.mt_terms.specs.Market.{applicants};
ghost use Rattle.mt_crew.specs.Closings.{IsClosing};

use crate::gate::{Closing, Gate};
use crate::seats::{Mate, Seat, dealt_seats, mates_at, next_ticket};
use crate::singles::{Singles, singles_of};
use mt_hall::{Answer, Hall, HallName, Pass};
use mt_ranks::Ranks;
use mt_terms::AppNo;
use std::alloc::{AllocError, Global};
use std::marker::Brand;
use std::sync::Wait;
use std::sync::ledger::Blank;
use std::thread;
use std::thread::Threads;
use std::time::Duration;

/// Acts for the applicant until it is placed or out. An applicant that it displaces gets a ticket. If there is no
/// memory for the ticket, the worker goes on with that applicant.
fn act<K: HallName, R: Wait>(
    rt: &R,
    hall: &Hall<'_, K>,
    pass: &mut Pass<K>,
    seat: &mut Seat,
    ticket: AppNo,
) {
    let mut applicant = ticket;
    for _ in rt.forever() {
        match hall.advance(rt, applicant, pass) {
            Answer::At { place: _ } | Answer::Out | Answer::Stranger => return,
            Answer::Told { by: _ } => {}
            Answer::Moved {
                to: _,
                kept: false,
                displaced: _,
            } => {}
            Answer::Moved {
                to: _,
                kept: true,
                displaced: None,
            } => return,
            Answer::Moved {
                to: _,
                kept: true,
                displaced: Some(other),
            } => {
                match seat.tickets.push(other) {
                    Ok(()) => return,
                    Err(refused) => applicant = refused,
                }
            }
        }
    }
}

/// The longest rest of a worker, in microseconds.
const LONGEST_BACK_OFF: u32 = 1 << 12;

/// How many microseconds a worker rests, after a rest of `last`. It is twice as long if the worker had to wait for
/// another one since, and half as long if it hadn't.
fn next_back_off(last: u32, waited: bool) -> u32
    ensures bounded { last ≤ LONGEST_BACK_OFF → result ≤ LONGEST_BACK_OFF }
    ensures grows { IsTrue waited → result ≡ min (2 * last + 1) LONGEST_BACK_OFF }
    ensures falls { IsFalse waited → result ≡ last / 2 }
{
    if waited {
        last.saturating_mul(2)
            .saturating_add(1)
            .min(LONGEST_BACK_OFF)
    } else {
        last / 2
    }
}

/// Sleeps for this number of microseconds, or until another worker finds no ticket.
fn back_off<R: Wait>(rt: &R, seat: &Seat, mates: &[Mate], micros: u32) {
    if let Some(own) = mates.get(seat.number as usize) {
        own.parker
            .park_timeout(rt, Duration::from_micros(u64::from(micros)));
    }
}

fn wake_all(mates: &[Mate]) {
    for mate in mates {
        mate.parker.unpark();
    }
}

/// Acts on one ticket after another, until no deque gives one. Workers that wait for one another's locks are slower
/// than one alone. So a worker that had to wait rests before its next ticket. Worker 0 never rests, so the work goes
/// on.
fn serve<K: HallName, R: Wait, G: Gate>(
    rt: &R,
    hall: &Hall<'_, K>,
    gate: &G,
    mates: &[Mate],
    seat: &mut Seat,
    pass: &mut Pass<K>,
) {
    let mut micros = 0;
    for _ in rt.forever() {
        let Some(applicant) = next_ticket(seat, mates) else {
            return wake_all(mates);
        };
        gate.before(seat.number, applicant);
        let contended = pass.contended_locks();
        act(rt, hall, pass, seat, applicant);
        gate.after(seat.number, pass);
        if seat.number > 0 {
            micros = next_back_off(micros, pass.contended_locks() != contended);
            if micros > 0 {
                back_off(rt, seat, mates, micros);
            }
        }
    }
}

/// Worker 0 serves on this thread, and each other one on a thread of its own. The tickets of one that doesn't start
/// are stolen.
fn serve_all<K: HallName + Send + Sync, R: Threads + Wait + Sync, G: Gate + Sync>(
    rt: &R,
    hall: &Hall<'_, K>,
    gate: &G,
    mates: &[Mate],
    seats: &mut [Seat],
    passes: &mut [Pass<K>],
) {
    thread::scope(thread::scope_env(), rt, |scope| {
        let mut all = seats.iter_mut().zip(passes.iter_mut());
        let first = all.next();
        for (seat, pass) in all {
            let _ = scope.spawn(move || serve(rt, hall, gate, mates, seat, pass));
        }
        if let Some((seat, pass)) = first {
            serve(rt, hall, gate, mates, seat, pass);
        }
    });
}

/// Closes the hall, and finishes the floor that the workers left.
fn audited_singles<K: HallName>(
    alloc: Global,
    ranks: &Ranks,
    hall: Hall<'_, K>,
    passes: Vec<Pass<K>>,
) -> Result<(Singles, Closing), AllocError>
    requires ranks { ranks.now ≡ K.ranked }
    requires all { K.parts ≡ applicants K.ranked.market + vec_len passes }
    ensures best { IfOk result (λ s. IsBest ranks.now.market s.0.matched.places) }
    ensures proposals { IfOk result (λ s. s.0.proposals.items
        ≡ map (proposals ranks.now.market s.0.matched.places) (below (length ranks.now.market.programs))) }
    ensures closing { IfOk result
        (λ s. IsClosing ranks.now passes.items s.0.matched.places s.1) }
{
    let mut audit = hall.close(passes);
    let (singles, late) = singles_of(alloc, &mut audit.floor, ranks)?;
    let closing = Closing {
        agrees: audit.agrees,
        astray: audit.astray,
        late,
    };
    Ok((singles, closing))
}

fn work_in<K: HallName + Send + Sync, R: Threads + Wait + Sync, G: Gate + Sync>(
    rt: &R,
    alloc: Global,
    ranks: &Ranks,
    workers: u32,
    gate: &G,
    blank: Blank,
) -> Result<Singles, AllocError>
    requires ranks { ranks.now ≡ K.ranked }
    requires name { blank.name ≡ K.name }
    requires parts { (blank.parts ≡ K.parts) × (K.parts ≡ applicants K.ranked.market + workers) }
    requires workers { (1 ≤ workers) × (workers ≤ 64) }
    ensures best { IfOk result (λ s. IsBest ranks.now.market s.matched.places) }
    ensures proposals { IfOk result (λ s. s.proposals.items
        ≡ map (proposals ranks.now.market s.matched.places) (below (length ranks.now.market.programs))) }
{
    let mut seats = dealt_seats(alloc, ranks, workers)?;
    let mates = mates_at(alloc, &seats)?;
    let (hall, mut passes) = Hall::<K>::open(alloc, ranks, workers, blank)?;
    serve_all(rt, &hall, gate, &mates, &mut seats, &mut passes);
    let (singles, closing) = audited_singles(alloc, ranks, hall, passes)?;
    gate.closed(&closing);
    Ok(singles)
}

/// The best match of the singles, made by this number of workers, and the proposals on the way to it. Worker 0 works
/// on the calling thread, so one worker starts no thread. That worker takes locks all the same, which `work_alone`
/// doesn't. The one error is want of memory.
pub fn work<R: Threads + Wait + Sync, G: Gate + Sync>(
    rt: &R,
    alloc: Global,
    ranks: &Ranks,
    workers: u32,
    gate: &G,
) -> Result<Singles, AllocError>
    requires { (1 ≤ workers) × (workers ≤ 64) }
    ensures best { IfOk result (λ s. IsBest ranks.now.market s.matched.places) }
    ensures proposals { IfOk result (λ s. s.proposals.items
        ≡ map (proposals ranks.now.market s.matched.places) (below (length ranks.now.market.programs))) }
{
    let parts = ranks.applicants() as u64 + workers as u64;
    work_in::<Brand, R, G>(rt, alloc, ranks, workers, gate, Blank::new(parts))
}
