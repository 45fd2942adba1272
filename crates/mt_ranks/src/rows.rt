ghost use Rattle.std.specs.Prelude.{◌≡◌, ◌+◌, ◌<◌, ◌≤◌, ◌^◌, length, sum, slice_index_or, [], IfOk};
ghost use Rattle.mt_ranks.specs.Rows.{parts, ArePartsOf, empty_rows, row_of, HasRoom, with_entry, starts_from};

use crate::packed::PackedLive;
use std::alloc::{AllocError, Global};
use std::marker::Model;

/// Lists of entries that grow side by side, one after another in one vector, each within the room that it
/// was given.
#[derive(Drop)]
pub(crate) struct Rows {
    items: Vec<PackedLive>,
    starts: Vec<usize>,
    ends: Vec<usize>,
}

impl Model for Rows {
    ghost use Rattle.mt_ranks.specs.Rows.{Filling};

    ghost Value = { Filling };

    ghost use Rattle.mt_ranks.specs.RowsView.{filling_of, AreRows};

    ghost view = { filling_of };

    ghost invariant = { AreRows };
}

/// Where rows of these sizes begin, and how long they are together.
fn begins(alloc: Global, sizes: &[usize]) -> Result<(Vec<usize>, usize), AllocError>
    requires { sum sizes.now < 2 ^ 64 }
    ensures starts { IfOk result (λ r. r.0.items ≡ starts_from 0 sizes.now) }
    ensures total { IfOk result (λ r. r.1 ≡ sum sizes.now) }
{
    let mut starts = Vec::with_capacity(alloc, sizes.len())?;
    let mut total = 0;
    for size in sizes {
        starts.push(total)?;
        total += *size;
    }
    Ok((starts, total))
}

/// The part with this number, among those that begin and end at these places.
#[tactic(auto, using(crate::proofs::RowFacts::part_bounds, crate::proofs::RowFacts::length_ends))]
fn part<'a>(
    items: &'a [PackedLive],
    starts: &[usize],
    ends: &[usize],
    number: usize,
) -> &'a [PackedLive]
    requires parts { ArePartsOf (length items.now) starts.now ends.now }
    requires within { number < length starts.now }
    ensures { result.now ≡ slice_index_or (parts starts.now ends.now items.now) number [] }
{
    let start = starts[number];
    let end = ends[number];
    &items[start..end]
}

impl Rows {
    /// Empty rows, with room for these sizes.
    pub(crate) fn with_sizes(alloc: Global, sizes: &[usize]) -> Result<Rows, AllocError>
        requires { sum sizes.now < 2 ^ 64 }
        ensures { IfOk result (λ rows. rows ≡ empty_rows sizes.now) }
    {
        let (starts, total) = begins(alloc, sizes)?;
        let ends = Vec::from_slice(alloc, &starts)?;
        let items = Vec::from_elem(alloc, PackedLive::nothing(), total)?;
        Ok(Rows {
            items,
            starts,
            ends,
        })
    }

    /// The row with this number.
    pub(crate) fn row(&self, number: usize) -> &[PackedLive]
        requires { number < length self.now.lists }
        ensures { result.now ≡ row_of self.now number }
    {
        part(&self.items, &self.starts, &self.ends, number)
    }

    /// For how many entries all rows together have room.
    pub(crate) fn room(&self) -> usize
        ensures { sum self.now.sizes ≤ result }
    {
        self.items.len()
    }

    /// Adds an entry at the end of a row that has room.
    pub(crate) fn push(&mut self, number: usize, entry: PackedLive)
        requires row { number < length self.old.lists }
        requires room { HasRoom self.old number 1 }
        ensures { self.new ≡ with_entry self.old number entry }
    {
        let end = self.ends[number];
        self.items[end] = entry;
        self.ends[number] = end + 1;
    }
}
