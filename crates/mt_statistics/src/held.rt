ghost use Rattle.std.specs.Prelude.{◌≡◌, ℕ, ◌<◌, ◌^◌, length, map, slice_index_or, IfOk, IsTrue, None};
ghost use Rattle.mt_terms.specs.Lists.{below, count};
ghost use Rattle.mt_terms.specs.Matching.{is_program};
ghost use Rattle.mt_statistics.specs.Held.{held_counts, most_held};

use std::alloc::{AllocError, Global};

/// The largest of these numbers, counted from 1, or 0 if there is none.
fn most_held(held: &[Option<u32>]) -> usize
    ensures { result ≡ most_held held.now }
{
    let mut most = 0;
    for kept in held {
        if let Some(number) = kept {
            most = most.max(*number as usize + 1);
        }
    }
    most
}

/// How often each number below `top` is among these.
fn counts_below(alloc: Global, top: usize, held: &[Option<u32>]) -> Result<Vec<u32>, AllocError>
    requires within { (i k : ℕ) → IsTrue (is_program k (slice_index_or held.now i None)) → k < top }
    requires few { length held.now < 2 ^ 32 }
    ensures { IfOk result (λ v. v.items ≡ map (λ k. count (is_program k) held.now) (below top)) }
{
    let mut counts = vec![in alloc; 0u32; top]?;
    for kept in held {
        if let Some(number) = kept {
            counts[*number as usize] += 1;
        }
    }
    Ok(counts)
}

/// How often each number up to the largest is among these. The only error is want of memory.
pub(crate) fn held_counts(alloc: Global, held: &[Option<u32>]) -> Result<Vec<u32>, AllocError>
    requires { length held.now < 2 ^ 32 }
    ensures { IfOk result (λ v. v.items ≡ held_counts held.now) }
{
    counts_below(alloc, most_held(held), held)
}
