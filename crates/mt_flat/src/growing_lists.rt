ghost use Rattle.std.specs.Prelude.{◌≡◌, ◌<◌, ◌+◌, ◌++◌, [], ◌∷◌, length, replicate, slice_index_or, slice_set, IfOk, OnErr, OnOk};
ghost use Rattle.mt_flat.specs.GrowingLists.{row_in, span_at, AreSpans, Extends, IsMoved, IsSpan};

use std::alloc::{AllocError, Global};
use std::marker::Model;

/// For how many more elements a row has room at least once it was moved.
const LEAST_ROOM: usize = 32;

/// Where a row begins and ends in the vector, and where its room ends. In 32 bits, so that more of them are in a line of
/// the cache.
#[derive(Clone, Copy)]
struct Span {
    start: u32,
    end: u32,
    limit: u32,
}

/// Lists that grow side by side in one vector, each within room of its own. A row without room is moved to the end of
/// the vector, and has room for as many elements again there. The vector doesn't grow beyond places of 32 bits.
pub struct GrowingLists<T> {
    items: Vec<T>,
    spans: Vec<Span>,
}

impl<T: Drop> Drop for GrowingLists<T> {
    fn drop(self) {
        let GrowingLists { items: _, spans: _ } = self;
    }
}

impl<T> Model for GrowingLists<T> {
    ghost use Rattle.std.specs.Prelude.{List, length, map};

    ghost Value = { List (List T) };

    ghost use Rattle.mt_flat.specs.GrowingLists.{row_in, AreSpans};

    ghost view = { λ r. map (row_in r.items.items) r.spans.items };

    ghost invariant = { λ r. AreSpans (length r.items.items) r.spans.items };
}

/// A place in the vector, in 32 bits. The error is that the vector would have grown beyond these.
pub(crate) fn short_place(place: usize) -> Result<u32, AllocError>
    ensures ok { IfOk result (λ short. short ≡ place) }
    ensures err { OnErr result (4294967295 < place) }
{
    if place > u32::MAX as usize {
        return Err(AllocError);
    }
    Ok(place as u32)
}

/// The items of a span.
#[inline]
fn span_items<'a, T>(items: &'a [T], spans: &[Span], number: usize) -> &'a [T]
    requires spans { AreSpans (length items.now) spans.now }
    requires within { number < length spans.now }
    ensures { result.now ≡ row_in items.now (span_at spans.now number) }
{
    let span = spans[number];
    &items[span.start as usize..span.end as usize]
}

/// Where a row that has room ends with an element more.
#[inline]
fn next_end(end: u32, limit: u32) -> u32
    requires { end < limit }
    ensures { result ≡ end + 1 }
{
    end + 1
}

/// Copies a row to the end of the vector, with one element more and room for as many again. The error is want of
/// memory, or of places.
fn moved<T: Copy>(items: &mut Vec<T>, span: Span, item: T) -> Result<Span, AllocError>
    requires { IsSpan (length items.old.items) span }
    ensures keeps { Extends items.old.items items.new.items }
    ensures moved { IfOk result (λ w. IsMoved items.old.items items.new.items span item w) }
{
    let start = items.len();
    items.extend_from_within(span.start as usize..span.end as usize)?;
    items.push(item)?;
    let end = items.len();
    let limit = end.saturating_add(LEAST_ROOM.max(end - start));
    let moved = Span {
        start: short_place(start)?,
        end: short_place(end)?,
        limit: short_place(limit)?,
    };
    items.resize(limit, item)?;
    Ok(moved)
}

impl<T> GrowingLists<T> {
    /// No rows.
    pub fn new(alloc: Global) -> Self
        ensures { result ≡ [] }
    {
        GrowingLists {
            items: Vec::new(alloc),
            spans: Vec::new(alloc),
        }
    }

    /// How many rows there are.
    #[inline]
    pub fn len(&self) -> usize
        ensures { result ≡ length self.now }
    {
        self.spans.len()
    }

    /// The row with this number, from 0.
    #[inline]
    pub fn row(&self, number: usize) -> &[T]
        requires { number < length self.now }
        ensures { result.now ≡ slice_index_or self.now number [] }
    {
        span_items(&self.items, &self.spans, number)
    }
}

impl<T: Copy> GrowingLists<T> {
    /// Adds a row of `count` copies of an element. The error is want of memory, or of places, and leaves the rows as
    /// they were.
    pub fn push_row(&mut self, count: usize, item: T) -> Result<(), AllocError>
        ensures err { OnErr result (self.new ≡ self.old) }
        ensures ok { OnOk result (self.new ≡ self.old ++ replicate count item ∷ []) }
    {
        let start = self.items.len();
        let Some(end) = start.checked_add(count) else {
            return Err(AllocError);
        };
        let first = short_place(start)?;
        let last = short_place(end)?;
        self.items.resize(end, item)?;
        self.spans.push(Span {
            start: first,
            end: last,
            limit: last,
        })?;
        Ok(())
    }

    /// Adds an element at the end of a row. The error is want of memory, or of places, and leaves the rows as they
    /// were.
    #[inline]
    pub fn push(&mut self, number: usize, item: T) -> Result<(), AllocError>
        requires { number < length self.old }
        ensures err { OnErr result (self.new ≡ self.old) }
        ensures ok { OnOk result (self.new ≡ slice_set self.old number (slice_index_or self.old number [] ++ item ∷ [])) }
    {
        let span = self.spans[number];
        if span.end < span.limit {
            self.items[span.end as usize] = item;
            self.spans[number].end = next_end(span.end, span.limit);
        } else {
            self.spans[number] = moved(&mut self.items, span, item)?;
        }
        Ok(())
    }

    /// Writes an element of a row.
    #[inline]
    pub fn set(&mut self, number: usize, index: usize, item: T)
        requires row { number < length self.old }
        requires index { index < length (slice_index_or self.old number []) }
        ensures { self.new ≡ slice_set self.old number (slice_set (slice_index_or self.old number []) index item) }
    {
        let span = self.spans[number];
        self.items[span.start as usize + index] = item;
    }
}
