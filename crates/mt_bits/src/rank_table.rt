ghost use Rattle.std.specs.Prelude.{◌≡◌, ℕ, ◌≤◌, ◌<◌, ◌/◌, false, length, map, [], slice_index_or, IfNone, IfSome, OnOk};
ghost use Rattle.mt_bits.specs.Flags.{flag};
ghost use Rattle.mt_bits.specs.Members.{is_in, IsFirstFrom};
ghost use Rattle.mt_bits.specs.Tables.{told_by, words_of, AddsList, AddsRank, AreFew, HaveSameFlags, TakesRank};

use mt_flat::GrowingLists;
use std::alloc::{AllocError, Global};
use std::marker::Model;

/// With this number of words each bit has a number of 32 bits.
const MOST_WORDS: usize = 67_108_864;

/// The first rank whose bit is set that isn't below a number.
fn first_flag_from(words: &[u64], number: usize) -> Option<u32>
    requires few { length words.now ≤ 67108864 }
    ensures first { IfSome result (IsFirstFrom (flag words.now) number) }
    ensures none { IfNone result ((r : ℕ) → number ≤ r → flag words.now r ≡ false) }
{
    let mut start = number;
    let mut word = *words.get(start / 64)? >> (start % 64);
    while word == 0 {
        start = 64 * (start / 64 + 1);
        word = *words.get(start / 64)?;
    }
    Some(start as u32 + word.trailing_zeros())
}

/// Fills a row of words up with zeros, as far as to a place.
#[cold]
fn fill(rows: &mut GrowingLists<u64>, list: usize, place: usize) -> Result<(), AllocError>
    requires list { list < length rows.old }
    requires place { place < 67108864 }
    requires few { AreFew rows.old }
    ensures few { AreFew rows.new }
    ensures same { HaveSameFlags rows.old rows.new }
    ensures long { OnOk result (place < length (slice_index_or rows.new list [])) }
{
    while rows.row(list).len() <= place {
        rows.push(list, 0)?;
    }
    Ok(())
}

/// Sets the bit of a rank whose word is there.
#[inline(always)]
fn mark(rows: &mut GrowingLists<u64>, list: usize, rank: u32)
    requires list { list < length rows.old }
    requires place { rank / 64 < length (words_of rows.old list) }
    requires few { AreFew rows.old }
    ensures few { AreFew rows.new }
    ensures marked { AddsRank (map told_by rows.old) (map told_by rows.new) list rank }
{
    let place = rank as usize / 64;
    let word = rows.row(list)[place];
    rows.set(list, place, word | 1 << (rank % 64));
}

/// Sets the bit of a rank whose word isn't there. The error is want of memory, and then no clause says what the bits
/// are.
#[cold]
fn insert_beyond(rows: &mut GrowingLists<u64>, list: usize, rank: u32) -> Result<(), AllocError>
    requires list { list < length rows.old }
    requires few { AreFew rows.old }
    ensures few { AreFew rows.new }
    ensures marked { OnOk result (AddsRank (map told_by rows.old) (map told_by rows.new) list rank) }
{
    fill(rows, list, rank as usize / 64)?;
    mark(rows, list, rank);
    Ok(())
}

/// The ranks on one list that are in a set.
#[derive(Drop)]
pub struct RankRow<'a> {
    /// One bit for each rank, as far as one was added.
    words: &'a [u64],
}

impl<'a> Model for RankRow<'a> {
    ghost use Rattle.std.specs.Prelude.{Bool, List};

    ghost Value = { List Bool };

    ghost use Rattle.mt_bits.specs.View.{ranks_in, AreFewWords};

    ghost view = { ranks_in };

    ghost invariant = { AreFewWords };
}

impl<'a> RankRow<'a> {
    /// The first of the ranks that isn't below a number.
    pub fn first_from(&self, number: usize) -> Option<u32>
        ensures first { IfSome result (IsFirstFrom (is_in self.now) number) }
        ensures none { IfNone result ((r : ℕ) → number ≤ r → is_in self.now r ≡ false) }
    {
        first_flag_from(self.words, number)
    }
}

/// A set of ranks for each of several lists.
pub struct RankTable {
    rows: GrowingLists<u64>,
}

impl Drop for RankTable {
    fn drop(self) {
        let RankTable { rows: _ } = self;
    }
}

impl Model for RankTable {
    ghost use Rattle.std.specs.Prelude.{Bool, List};

    ghost Value = { List (List Bool) };

    ghost use Rattle.mt_bits.specs.View.{table_in, AreFewRows};

    ghost view = { table_in };

    ghost invariant = { AreFewRows };
}

impl RankTable {
    /// No lists.
    pub fn new(alloc: Global) -> Self
        ensures { result ≡ [] }
    {
        RankTable {
            rows: GrowingLists::new(alloc),
        }
    }

    /// How many lists there are.
    #[inline]
    pub fn len(&self) -> usize
        ensures { result ≡ length self.now }
    {
        self.rows.len()
    }

    /// Adds a list of `size` ranks, none of which is in the set. The error is want of memory.
    pub fn push_list(&mut self, size: usize) -> Result<(), AllocError>
        ensures { OnOk result (AddsList self.old self.new) }
    {
        let words = MOST_WORDS.min(size / 64 + 1);
        self.rows.push_row(words, 0)
    }

    /// The ranks on a list that are in the set.
    #[inline]
    pub fn row(&self, list: usize) -> RankRow<'_>
        requires { list < length self.now }
        ensures { result ≡ slice_index_or self.now list [] }
    {
        RankRow {
            words: self.rows.row(list),
        }
    }

    /// Adds a rank on a list. The error is want of memory, and then no clause says what the set is.
    #[inline(always)]
    pub fn insert(&mut self, list: usize, rank: u32) -> Result<(), AllocError>
        requires { list < length self.old }
        ensures { OnOk result (AddsRank self.old self.new list rank) }
    {
        let place = rank as usize / 64;
        if place >= self.rows.row(list).len() {
            return insert_beyond(&mut self.rows, list, rank);
        }
        mark(&mut self.rows, list, rank);
        Ok(())
    }

    /// Takes a rank on a list out, if it is there.
    #[inline(always)]
    pub fn remove(&mut self, list: usize, rank: u32)
        requires { list < length self.old }
        ensures { TakesRank self.old self.new list rank }
    {
        let place = rank as usize / 64;
        let row = self.rows.row(list);
        if place < row.len() {
            let word = row[place];
            self.rows.set(list, place, word & !(1 << (rank % 64)));
        }
    }
}
