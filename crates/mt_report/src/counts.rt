//! The counts beside a match.
ghost use Rattle.std.specs.Prelude.{◌≡◌, ℕ, ◌<◌, ◌^◌, map, length, slice_index, IfOk, IsTrue};
ghost use Rattle.mt_terms.specs.Lists.{below, total_below};
ghost use Rattle.mt_terms.specs.Matching.{at, filled};
ghost use Rattle.mt_terms.specs.Text.{positions, unmatched};

use mt_market::Roster;
use mt_terms::ProgNo;
use std::alloc::{AllocError, Global};

/// How many applicants are placed at each of `programs` programs. The only error is want of memory.
pub fn filled_counts(
    alloc: Global,
    programs: usize,
    places: &[Option<ProgNo>],
) -> Result<Vec<u32>, AllocError>
    requires within { (a p : ℕ) → IsTrue (at places.now p a) → p < programs }
    requires few { length places.now < 2 ^ 32 }
    ensures { IfOk result (λ v. v.items ≡ map (filled places.now) (below programs)) }
{
    let mut counts = vec![in alloc; 0u32; programs]?;
    for place in places {
        if let Some(program) = place {
            counts[program.index()] += 1;
        }
    }
    Ok(counts)
}

/// How many applicants have no place.
pub fn unmatched_count(places: &[Option<ProgNo>]) -> u32
    requires { length places.now < 2 ^ 32 }
    ensures { result ≡ unmatched places.now }
{
    let mut count = 0;
    for place in places {
        if place.is_none() {
            count += 1;
        }
    }
    count
}

/// How many posts there are.
pub fn position_count(roster: &Roster) -> u64
    ensures { result ≡ positions roster.now.market }
{
    let mut count = 0;
    for number in 0..roster.programs() {
        count += u64::from(roster.quota(ProgNo(number)));
    }
    count
}

/// The sum of the programs' counts.
pub fn filled_total(counts: &[u32]) -> u64
    requires { length counts.now < 2 ^ 32 }
    ensures { result ≡ total_below (slice_index counts.now) (length counts.now) }
{
    let mut total = 0;
    for count in counts {
        total += u64::from(*count);
    }
    total
}
