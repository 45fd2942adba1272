ghost use Rattle.std.specs.Prelude.{◌≡◌, ◌≢◌, ◌+◌, ◌-◌, ◌*◌, ◌<◌, ◌≤◌, ◌^◌, ℕ, None, min, IfSome};
ghost use Rattle.mt_ranks.specs.Parts.{block_of};

use mt_terms::AppNo;

/// How many blocks the applicants have. A thread makes the tables of one block, and reads the lists of all programs for
/// it. More blocks would mean more reads.
pub(crate) const BLOCKS: usize = 4;

/// How many of all `applicants` applicants each block has, but for the last blocks. With fewer processors than blocks,
/// as many blocks have all of them, and the others none: so the lists aren't read more often than is of use.
pub(crate) fn block_size(applicants: usize, processors: usize) -> usize
    requires { 0 < processors }
    ensures enough { applicants ≤ result * BLOCKS }
    ensures few { result ≤ applicants }
{
    applicants.div_ceil(processors.min(BLOCKS))
}

/// The number of the block, from 0, that has an applicant, in blocks of this size.
#[inline]
pub(crate) fn block_of(size: usize, applicant: usize) -> usize
    requires { size < 2 ^ 32 }
    ensures { result ≡ block_of size applicant }
{
    if applicant < size {
        0
    } else if applicant < size * 2 {
        1
    } else if applicant < size * 3 {
        2
    } else {
        3
    }
}

/// A block of applicants: `size` of them, from the number `first` on.
#[derive(Clone, Copy)]
pub(crate) struct Block {
    pub(crate) first: usize,
    pub(crate) size: usize,
}

impl Block {
    /// The block with this number, from 0, of `applicants` applicants in blocks of this size.
    pub(crate) fn numbered(number: usize, size: usize, applicants: usize) -> Block
        ensures first { result.first ≡ min (number * size) applicants }
        ensures size { result.size ≡ min size (applicants - result.first) }
    {
        let first = number.saturating_mul(size).min(applicants);
        Block {
            first,
            size: size.min(applicants - first),
        }
    }

    /// The applicant's place in the block, from 0, if the block has it.
    pub(crate) fn place(self, applicant: AppNo) -> Option<usize>
        requires { self.first + self.size ≤ 2 ^ 64 }
        ensures inside { IfSome result (λ k. (k < self.size) × (self.first + k ≡ applicant)) }
        ensures outside { result ≡ None → (k : ℕ) → k < self.size → self.first + k ≢ applicant }
    {
        let place = applicant.index().wrapping_sub(self.first);
        if place < self.size { Some(place) } else { None }
    }
}
