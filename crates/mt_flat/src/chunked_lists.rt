ghost use Rattle.std.specs.Prelude.{◌≡◌, ◌<◌, ◌++◌, [], length, slice_index_or, IfOk, OnOk};
ghost use Rattle.mt_flat.specs.ChunkedLists.{chunk_places};

use crate::flat_lists::FlatLists;
use crate::growing_lists::short_place;
use std::alloc::{AllocError, Global};
use std::marker::Model;

/// Where a list is: the number of its chunk, and its number there.
#[derive(Clone, Copy)]
struct Place {
    chunk: u32,
    number: u32,
}

/// Lists held in chunks, one after another. Chunks that several threads made are joined without a copy of their
/// elements.
pub struct ChunkedLists<T> {
    chunks: Vec<FlatLists<T>>,
    places: Vec<Place>,
}

impl<T: Drop> Drop for ChunkedLists<T> {
    fn drop(self) {
        let ChunkedLists {
            chunks: _,
            places: _,
        } = self;
    }
}

impl<T> Model for ChunkedLists<T> {
    ghost use Rattle.std.specs.Prelude.{All, List, map};
    ghost use Rattle.mt_flat.specs.ChunkedLists.{list_at, IsWithin};

    ghost Value = { List (List T) };

    ghost view = { λ l. map (list_at l.chunks.items) l.places.items };

    ghost invariant = { λ l. All (IsWithin l.chunks.items) l.places.items };
}

/// The places of the lists of a chunk with this number, which has `count` lists.
fn chunk_places(alloc: Global, chunk: u32, count: u32) -> Result<Vec<Place>, AllocError>
    ensures { IfOk result (λ places. places.items ≡ chunk_places chunk count) }
{
    let mut places = Vec::with_capacity(alloc, count as usize)?;
    for number in 0..count {
        places.push(Place { chunk, number })?;
    }
    Ok(places)
}

impl<T> ChunkedLists<T> {
    /// No lists.
    pub fn new(alloc: Global) -> Self
        ensures { result ≡ [] }
    {
        ChunkedLists {
            chunks: Vec::new(alloc),
            places: Vec::new(alloc),
        }
    }

    /// The lists of one chunk. The error is want of memory.
    pub fn of(alloc: Global, chunk: FlatLists<T>) -> Result<Self, AllocError>
    where
        T: Drop,
        ensures { IfOk result (λ lists. lists ≡ chunk) }
    {
        let mut lists = ChunkedLists::new(alloc);
        lists.push_chunk(alloc, chunk)?;
        Ok(lists)
    }

    /// The list with this number, from 0.
    #[inline]
    pub fn list(&self, number: usize) -> &[T]
        requires { number < length self.now }
        ensures { result.now ≡ slice_index_or self.now number [] }
    {
        let place = self.places[number];
        self.chunks[place.chunk as usize].list(place.number as usize)
    }

    /// Adds the lists of a chunk at the end. The error is want of memory, or of places in 32 bits.
    pub fn push_chunk(&mut self, alloc: Global, chunk: FlatLists<T>) -> Result<(), AllocError>
    where
        T: Drop,
        ensures { OnOk result (self.new ≡ self.old ++ chunk) }
    {
        let number = short_place(self.chunks.len())?;
        let places = chunk_places(alloc, number, short_place(chunk.len())?)?;
        self.chunks.push(chunk)?;
        self.places.extend_from_slice(&places)?;
        Ok(())
    }
}
