ghost use Rattle.std.specs.Prelude.{◌≡◌, ◌≤◌, map, length, IfOk};
ghost use Rattle.mt_terms.specs.Best.{IsBest, proposals};
ghost use Rattle.mt_terms.specs.Lists.{below};
ghost use Rattle.mt_ranks.specs.Ranked.{ranked_of};

use mt_crew::{Open, Singles, work, work_alone};
use mt_market::Roster;
use mt_ranks::Ranks;
use std::alloc::{AllocError, Global};
use std::sync::Wait;
use std::thread::Threads;

/// How many programs there are for each worker, at least. A program serves one worker at a time. So with fewer of them
/// one worker makes nearly all proposals, and the others wait.
const PROGRAMS_FOR_EACH: u32 = 16;

/// How many applicants there are for each worker, at least. One worker matches fewer sooner than another thread starts.
const APPLICANTS_FOR_EACH: u32 = 128;

/// What workers make of the rank tables: this number of them, or as many as there are programs and applicants for. One
/// worker has no need of locks, so a small market starts no thread.
fn made_by<T: Threads + Wait + Sync>(
    rt: &T,
    alloc: Global,
    ranks: &Ranks,
    workers: u32,
) -> Result<Singles, AllocError>
    requires { (1 ≤ workers) × (workers ≤ 64) }
    ensures best { IfOk result (λ s. IsBest ranks.now.market s.matched.places) }
    ensures proposals { IfOk result (λ s. s.proposals.items
        ≡ map (proposals ranks.now.market s.matched.places) (below (length ranks.now.market.programs))) }
{
    let workers = workers
        .min(ranks.programs() / PROGRAMS_FOR_EACH)
        .min(ranks.applicants() / APPLICANTS_FOR_EACH);
    if workers <= 1 {
        work_alone(alloc, ranks)
    } else {
        work(rt, alloc, ranks, workers, &Open)
    }
}

/// The best match of the singles, couples' members unplaced, and the proposals on the way to it.
pub(crate) fn match_singles<T: Threads + Wait + Sync>(
    rt: &T,
    alloc: Global,
    roster: &Roster,
    ranks: &Ranks,
    workers: u32,
) -> Result<Singles, AllocError>
    requires ranks { ranks.now ≡ ranked_of roster.now.market }
    requires workers { (1 ≤ workers) × (workers ≤ 64) }
    ensures best { IfOk result (λ s. IsBest roster.now.market s.matched.places) }
    ensures proposals { IfOk result (λ s. s.proposals.items
        ≡ map (proposals roster.now.market s.matched.places) (below (length roster.now.market.programs))) }
{
    roster.is_of_a_file();
    let singles = made_by(rt, alloc, ranks, workers)?;
    Ok(singles)
}
