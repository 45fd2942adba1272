ghost use Rattle.std.specs.Prelude.{◌≡◌, ◌<◌, ◌≤◌, length, min, IfOk, OnOk};
ghost use Rattle.mt_stage_tables.specs.Named.{nothing_indexed, row_at, Indexes, IndexesPairs, IndexesUpTo};
ghost use Rattle.mt_stage_tables.specs.Indexing.{greatest};

use crate::couple_list::{CoupleLists, NamedPairs};
use mt_terms::{CoupleNo, ProgNo};
use std::alloc::{AllocError, Global};
use std::marker::Model;

/// A pair of a couple's list: a place for each member. A member without one stays unplaced.
pub type Pair = (Option<ProgNo>, Option<ProgNo>);

/// An index from programs to the couples of which a pair names them. Of each couple's list it has the first pairs, as many
/// as it counts for the couple.
pub struct PairIndex {
    rows: CoupleLists,
    counts: Vec<usize>,
}

impl Drop for PairIndex {
    fn drop(self) {
        let PairIndex { rows: _, counts: _ } = self;
    }
}

impl Model for PairIndex {
    ghost use Rattle.mt_stage_tables.specs.Named.{Index};
    ghost use Rattle.mt_stage_tables.specs.View.{index_in};

    ghost Value = { Index };

    ghost view = { index_in };
}

/// An index in 16 bits: the greatest number means all that are greater, too.
fn short_index(index: usize) -> u16
    ensures { result ≡ min index greatest }
{
    index.min(u16::MAX as usize) as u16
}

/// Indexes a couple's pair at the program of a place, if there is one.
fn index_place(
    rows: &mut CoupleLists,
    place: Option<ProgNo>,
    couple: CoupleNo,
    from: u16,
) -> Result<(), AllocError>
    ensures { OnOk result (Indexes rows.old rows.new place couple from) }
{
    if let Some(program) = place {
        let program = program.index();
        if program < rows.len() {
            rows.add(program, couple, from)?;
        }
    }
    Ok(())
}

/// Indexes the pairs of a couple's list from one index on, up to another.
fn index_pairs(
    rows: &mut CoupleLists,
    couple: CoupleNo,
    pairs: &[Pair],
    start: usize,
    end: usize,
) -> Result<(), AllocError>
    requires { end ≤ length pairs.now }
    ensures { OnOk result (IndexesPairs rows.old rows.new couple pairs.now start end) }
{
    for index in start..end {
        let pair = pairs[index];
        let from = short_index(index);
        index_place(rows, pair.0, couple, from)?;
        index_place(rows, pair.1, couple, from)?;
    }
    Ok(())
}

impl PairIndex {
    /// An empty index for this many programs and couples. The error is want of memory.
    pub fn new(alloc: Global, programs: u32, couples: u32) -> Result<Self, AllocError>
        ensures { IfOk result (λ n. n ≡ nothing_indexed programs couples) }
    {
        Ok(PairIndex {
            rows: CoupleLists::new(alloc, programs)?,
            counts: Vec::from_elem(alloc, 0usize, couples as usize)?,
        })
    }

    /// The couples of which an indexed pair names the program, in the order in which they were indexed.
    #[inline]
    pub fn row(&self, program: ProgNo) -> &[NamedPairs]
        ensures { result.now ≡ row_at self.now.rows program }
    {
        if program.index() < self.rows.len() {
            self.rows.row(program.index())
        } else {
            &[]
        }
    }

    /// Indexes the pairs of a couple's list up to an index, as far as they aren't indexed. The error is want of memory, and
    /// no clause says what the index has then.
    pub fn index_up_to(
        &mut self,
        couple: CoupleNo,
        pairs: &[Pair],
        end: usize,
    ) -> Result<(), AllocError>
        requires couple { couple < length self.old.counts }
        requires end { end ≤ length pairs.now }
        ensures { OnOk result (IndexesUpTo self.old self.new couple pairs.now end) }
    {
        let start = self.counts[couple.index()];
        index_pairs(&mut self.rows, couple, pairs, start, end)?;
        self.counts[couple.index()] = start.max(end);
        Ok(())
    }
}
