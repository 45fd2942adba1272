//! Chunks of lists read side by side. A public function beside `rayon`'s prelude would make the built library hold all of
//! `rayon`, since its associated types are sought there too.
ghost use Rattle.std.specs.Prelude.{◌<◌, IfOk};
ghost use Rattle.mt_id_lists.specs.Reading.{AreReadInChunks, ReadsAll};

use crate::reader::ListReader;
use mt_flat::FlatLists;
use rayon::prelude::*;
use std::alloc::{AllocError, Global};
use std::thread::Threads;

/// How many entries lists have.
fn total_entries<L, M: Drop + Send + Sync, S: ListReader<L, M> + Sync>(
    reader: &S,
    lists: &[L],
) -> usize {
    let mut entries: usize = 0;
    for list in lists {
        entries = entries.saturating_add(reader.entries(list));
    }
    entries
}

/// A chunk of lists by numbers, if each stands.
fn read_chunk<L, M: Drop + Send + Sync, S: ListReader<L, M> + Sync>(
    alloc: Global,
    reader: &S,
    lists: &[L],
) -> Result<Option<FlatLists<S::Item>>, AllocError>
    ensures { IfOk result (ReadsAll (S.stands reader.now) (S.read reader.now) lists.now) }
{
    let mut read = FlatLists::with_capacity(alloc, lists.len(), total_entries(reader, lists))?;
    let mut met = reader.new_met(alloc)?;
    for list in lists {
        if !reader.read_list(alloc, &mut read, &mut met, list)? {
            return Ok(None);
        }
    }
    Ok(Some(read))
}

/// The lists in chunks of this size, each read by itself.
pub(crate) fn read_chunks<
    R: Threads + Sync,
    L: Sync,
    M: Drop + Send + Sync,
    S: ListReader<L, M> + Sync,
>(
    rt: &R,
    alloc: Global,
    reader: &S,
    lists: &[L],
    size: usize,
) -> Result<Vec<Option<FlatLists<S::Item>>>, AllocError>
    requires { 0 < size }
    ensures { IfOk result (λ chunks. AreReadInChunks (S.stands reader.now) (S.read reader.now)
        lists.now chunks.items) }
{
    lists
        .par_chunks(size)
        .with_min_len(1)
        .map(
            |chunk: &[L]| -> Result<Option<FlatLists<S::Item>>, AllocError>
                ensures { IfOk result
                    (ReadsAll (S.stands reader.entry.now) (S.read reader.entry.now) chunk.entry.now) }
            { read_chunk(alloc, reader, chunk) },
        )
        .collect::<Result<Vec<Option<FlatLists<S::Item>>>, AllocError>>(rt, alloc)?
}
