ghost use Rattle.std.specs.Prelude.{◌≡◌, ◌==◌, ◌<◌, ◌≤◌, ◌++◌, [], ◌∷◌, length, slice_index_or, IfOk, OnOk, OnErr};
ghost use Rattle.mt_flat.specs.FlatLists.{AreEnds, pieces, start_of, with_last};

use std::alloc::{AllocError, Global};
use std::marker::Model;

/// Where the list with this number begins and ends, among those that end at these ends.
fn bounds<T>(items: &[T], ends: &[usize], number: usize) -> (usize, usize)
    requires in_order { AreEnds 0 ends.now (length items.now) }
    requires within { number < length ends.now }
    ensures start { result.0 ≡ start_of 0 ends.now number }
    ensures end { result.1 ≡ slice_index_or ends.now number 0 }
    ensures order { (result.0 ≤ result.1) × (result.1 ≤ length items.now) }
{
    let start = if number == 0 { 0 } else { ends[number - 1] };
    (start, ends[number])
}

/// The list with this number, among those that end at these ends.
fn piece<'a, T>(items: &'a [T], ends: &[usize], number: usize) -> &'a [T]
    requires in_order { AreEnds 0 ends.now (length items.now) }
    requires within { number < length ends.now }
    ensures { result.now ≡ slice_index_or (pieces 0 ends.now items.now) number [] }
{
    let (start, end) = bounds(items, ends, number);
    &items[start..end]
}

/// Lists held one after another in one vector, each known by where it ends.
pub struct FlatLists<T> {
    items: Vec<T>,
    ends: Vec<usize>,
}

impl<T: Drop> Drop for FlatLists<T> {
    fn drop(self) {
        let FlatLists { items: _, ends: _ } = self;
    }
}

impl<T> Model for FlatLists<T> {
    ghost use Rattle.std.specs.Prelude.{List, length};
    ghost use Rattle.mt_flat.specs.FlatLists.{pieces, AreEnds};

    ghost Value = { List (List T) };

    ghost view = { λ l. pieces 0 l.ends.items l.items.items };

    ghost invariant = { λ l. AreEnds 0 l.ends.items (length l.items.items) };
}

impl<T> FlatLists<T> {
    /// No lists.
    pub fn new(alloc: Global) -> Self
        ensures { result ≡ [] }
    {
        FlatLists {
            items: Vec::new(alloc),
            ends: Vec::new(alloc),
        }
    }

    /// No lists, with room for `lists` of them, and for `items` elements in all. The error is want of memory.
    pub fn with_capacity(alloc: Global, lists: usize, items: usize) -> Result<Self, AllocError>
        ensures { IfOk result (λ lists. lists ≡ []) }
    {
        let ends = Vec::with_capacity(alloc, lists)?;
        let items = Vec::with_capacity(alloc, items)?;
        Ok(FlatLists { items, ends })
    }

    /// How many lists there are.
    pub fn len(&self) -> usize
        ensures { result ≡ length self.now }
    {
        self.ends.len()
    }

    /// Whether there is no list.
    pub fn is_empty(&self) -> bool
        ensures { result ≡ (length self.now == 0) }
    {
        self.ends.is_empty()
    }

    /// The list with this number, from 0.
    pub fn list(&self, number: usize) -> &[T]
        requires { number < length self.now }
        ensures { result.now ≡ slice_index_or self.now number [] }
    {
        piece(&self.items, &self.ends, number)
    }

    /// Adds an empty list at the end. The error is want of memory.
    pub fn begin(&mut self) -> Result<(), AllocError>
        ensures ok { OnOk result (self.new ≡ self.old ++ [] ∷ []) }
        ensures err { OnErr result (self.new ≡ self.old) }
    {
        self.ends.push(self.items.len())?;
        Ok(())
    }

    /// Adds an element at the end of the last list. The error is want of memory.
    pub fn push(&mut self, item: T) -> Result<(), AllocError>
    where
        T: Drop,
        requires { 0 < length self.old }
        ensures ok { OnOk result (self.new ≡ with_last self.old item) }
        ensures err { OnErr result (self.new ≡ self.old) }
    {
        self.items.push(item)?;
        let last = self.ends.len() - 1;
        self.ends[last] = self.items.len();
        Ok(())
    }

    /// Adds a list with these elements at the end. The error is want of memory.
    pub fn push_list(&mut self, list: &[T]) -> Result<(), AllocError>
    where
        T: Copy,
        ensures ok { OnOk result (self.new ≡ self.old ++ list.now ∷ []) }
        ensures err { OnErr result (self.new ≡ self.old) }
    {
        let start = self.items.len();
        self.items.extend_from_slice(list)?;
        if let Err(failed) = self.ends.push(self.items.len()) {
            self.items.truncate(start);
            return Err(failed.into());
        }
        Ok(())
    }
}
