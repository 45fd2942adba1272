ghost use Rattle.std.specs.Prelude.{◌≡◌, ◌≤◌, IfOk, length, vec_len};

use crossbeam_deque::{Steal, Stealer, Worker};
use mt_ranks::Ranks;
use mt_terms::AppNo;
use std::alloc::{AllocError, Global};
use std::thread::Parker;

/// How often a thief asks again if another one came between.
const TRIES: u32 = 64;

/// A worker's number, and its own tickets. A ticket is an applicant's number: a hint to look at it, and no right.
#[derive(Drop)]
pub(crate) struct Seat {
    pub(crate) number: u32,
    pub(crate) tickets: Worker<AppNo>,
}

/// What the other workers have of a worker: its tickets to steal, and the parker on which it sleeps.
#[derive(Drop)]
pub(crate) struct Mate {
    pub(crate) tickets: Stealer<AppNo>,
    pub(crate) parker: Parker,
}

/// Seats with no tickets, each with room for its share of them.
fn empty_seats(alloc: Global, workers: u32, share: u32) -> Result<Vec<Seat>, AllocError>
    ensures { IfOk result (λ seats. vec_len seats ≡ workers) }
{
    let mut seats = Vec::with_capacity(alloc, workers as usize)?;
    for number in 0..workers {
        let tickets = Worker::new_fifo(alloc, share as usize)?;
        seats.push(Seat { number, tickets })?;
    }
    Ok(seats)
}

/// Seats with a ticket for each single, dealt to them in turn by the singles' numbers.
pub(crate) fn dealt_seats(
    alloc: Global,
    ranks: &Ranks,
    workers: u32,
) -> Result<Vec<Seat>, AllocError>
    requires { 1 ≤ workers }
    ensures { IfOk result (λ seats. vec_len seats ≡ workers) }
{
    let mut seats = empty_seats(alloc, workers, ranks.applicants() / workers + 1)?;
    let mut next: u32 = 0;
    for applicant in 0..ranks.applicants() {
        if ranks.is_single(AppNo(applicant)) {
            if seats[next as usize].tickets.push(AppNo(applicant)).is_err() {
                return Err(AllocError);
            }
            next = if next + 1 < workers { next + 1 } else { 0 };
        }
    }
    Ok(seats)
}

/// What the others have of the worker at each seat.
pub(crate) fn mates_at(alloc: Global, seats: &[Seat]) -> Result<Vec<Mate>, AllocError>
    ensures { IfOk result (λ mates. vec_len mates ≡ length seats.now) }
{
    let mut mates = Vec::with_capacity(alloc, seats.len())?;
    for seat in seats {
        let tickets = seat.tickets.stealer()?;
        mates.push(Mate {
            tickets,
            parker: Parker::new(),
        })?;
    }
    Ok(mates)
}

fn steal(mate: &Mate) -> Option<AppNo> {
    for _ in 0..=TRIES {
        match mate.tickets.steal() {
            Steal::Success(ticket) => return Some(ticket),
            Steal::Empty => return None,
            Steal::Retry => {}
        }
    }
    None
}

fn steal_any(mates: &[Mate]) -> Option<AppNo> {
    for mate in mates {
        let ticket = steal(mate);
        if ticket.is_some() {
            return ticket;
        }
    }
    None
}

/// A ticket of the worker's own, or else one that it steals. It asks the others in the order of their numbers, from
/// the one after its own on.
pub(crate) fn next_ticket(seat: &mut Seat, mates: &[Mate]) -> Option<AppNo>
    ensures { seat.new.number ≡ seat.old.number }
{
    let ticket = seat.tickets.pop();
    if ticket.is_some() {
        return ticket;
    }
    let own = (seat.number as usize).min(mates.len());
    let after = (own + 1).min(mates.len());
    let later = steal_any(&mates[after..]);
    if later.is_some() {
        return later;
    }
    steal_any(&mates[..own])
}
