//! Lists in chunks, and the chunks joined.
ghost use Rattle.std.specs.Prelude.{◌<◌, IfOk};
ghost use Rattle.mt_id_lists.specs.Reading.{AreReadInChunks, Joins, ReadsAll};

use crate::parallel::read_chunks;
use crate::reader::ListReader;
use mt_flat::{ChunkedLists, FlatLists};
use rayon::current_num_threads;
use std::alloc::{AllocError, Global};
use std::thread::Threads;

/// The fewest entries that are worth threads.
const FEWEST: usize = 8192;

/// The most processors that chunks are made for.
const MOST_PROCESSORS: usize = 64;

/// Whether lists have enough entries to be worth threads.
fn are_long<L, M: Drop + Send + Sync, S: ListReader<L, M> + Sync>(reader: &S, lists: &[L]) -> bool {
    let mut entries: usize = 0;
    for list in lists {
        entries = entries.saturating_add(reader.entries(list));
        if entries >= FEWEST {
            return true;
        }
    }
    false
}

/// How many lists a chunk has: there are two chunks for each processor, but one alone if the lists are short, or if
/// there is only one processor.
fn chunk_size<R: Threads>(rt: &R, count: usize, are_long: bool) -> usize
    ensures { 0 < result }
{
    if !are_long {
        return count.max(1);
    }
    let processors = current_num_threads(rt).min(MOST_PROCESSORS);
    if processors == 1 {
        count.max(1)
    } else {
        count.div_ceil(processors * 2).max(1)
    }
}

/// The lists of chunks one after another, if each was read.
fn join<T: Drop>(
    alloc: Global,
    chunks: Vec<Option<FlatLists<T>>>,
) -> Result<Option<ChunkedLists<T>>, AllocError>
    ensures { IfOk result (Joins chunks.items) }
{
    let mut joined = ChunkedLists::new(alloc);
    for chunk in chunks {
        let Some(lists) = chunk else {
            return Ok(None);
        };
        joined.push_chunk(alloc, lists)?;
    }
    Ok(Some(joined))
}

/// Lists by numbers, if each stands. Long ones are read side by side, and let go before they are joined.
pub fn read_lists<
    R: Threads + Sync,
    L: Sync + Drop,
    M: Drop + Send + Sync,
    S: ListReader<L, M> + Sync,
>(
    rt: &R,
    alloc: Global,
    reader: &S,
    lists: Vec<L>,
) -> Result<Option<ChunkedLists<S::Item>>, AllocError>
    ensures { IfOk result (ReadsAll (S.stands reader.now) (S.read reader.now) lists.items) }
{
    let size = chunk_size(rt, lists.len(), are_long(reader, &lists));
    let chunks = read_chunks(rt, alloc, reader, &lists, size)?;
    drop(lists);
    join(alloc, chunks)
}
