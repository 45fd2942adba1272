ghost use Rattle.std.specs.Prelude.{◌≡◌, ◌<◌, length, nat_lt, IfOk, OnOk};
ghost use Rattle.std.specs.List.Sorted.{IsNonDecreasing};
ghost use Rattle.mt_terms.specs.Registration.Accepted.{IsRegistration};
ghost use Rattle.mt_terms.specs.Lists.{count};
ghost use Rattle.mt_verify.specs.Listed.{HoldRanks, HoldsRanksAt};

use crate::verifier::LEAST_APPLICANTS;
use mt_market::Roster;
use mt_terms::{Match, ProgNo};
use rayon::prelude::*;
use std::alloc::{AllocError, Global};
use std::thread::Threads;

/// The ranks on the program's list of those that are placed there, in rising order.
fn placed_at(
    alloc: Global,
    roster: &Roster,
    matched: &Match,
    program: ProgNo,
) -> Result<Vec<u32>, AllocError>
    requires { program < length roster.now.market.programs }
    ensures { IfOk result (HoldsRanksAt roster.now.market matched.now.places program) }
{
    roster.is_of_a_file();
    let mut ranks = Vec::new(alloc);
    for (rank, applicant) in roster.program_list(program).iter().enumerate() {
        if matched.place(*applicant) == Some(program) {
            ranks.push(rank as u32)?;
        }
    }
    Ok(ranks)
}

/// How many programs pay for a thread that reads their lists: as many as the market has for each `LEAST_APPLICANTS`
/// of its applicants. With few programs the lists are long.
fn least_programs(roster: &Roster) -> usize {
    let programs = roster.programs() as usize;
    let applicants = roster.applicants() as usize;
    LEAST_APPLICANTS * programs / applicants.max(1)
}

/// For each program the ranks of those that are placed there, in rising order.
pub(crate) fn placed_by_program<R: Threads + Sync>(
    rt: &R,
    alloc: Global,
    roster: &Roster,
    matched: &Match,
) -> Result<Vec<Vec<u32>>, AllocError>
    ensures registration { OnOk result (IsRegistration roster.now) }
    ensures placed { IfOk result (λ v. HoldRanks roster.now.market matched.now.places v.items) }
{
    (0..roster.programs())
        .into_par_iter()
        .with_min_len(least_programs(roster))
        .map(
            |number: u32| -> Result<Vec<u32>, AllocError>
                requires { number < length roster.now.market.programs }
                ensures { IfOk result (HoldsRanksAt roster.entry.now.market matched.entry.now.places number) }
            { placed_at(alloc, roster, matched, ProgNo(number)) },
        )
        .collect::<Result<Vec<Vec<u32>>, AllocError>>(rt, alloc)?
}

/// How many of these rising ranks are below a rank.
pub(crate) fn count_below(ranks: &[u32], rank: u32) -> usize
    requires { IsNonDecreasing ranks.now }
    ensures { result ≡ count (λ r. nat_lt r rank) ranks.now }
{
    ranks.partition_point(|placed| *placed < rank)
}

/// Whether fewer of these rising ranks than a number are below a rank.
pub(crate) fn are_fewer_below(ranks: &[u32], rank: u32, number: u32) -> bool
    requires { IsNonDecreasing ranks.now }
    ensures { result ≡ nat_lt (count (λ r. nat_lt r rank) ranks.now) number }
{
    if number == 0 {
        return false;
    }
    match ranks.get(number as usize - 1) {
        Some(last) => rank <= *last,
        None => true,
    }
}
