ghost use Rattle.std.specs.Prelude.{◌≡◌, ◌<◌, ◌^◌, ◌++◌, [], ◌∷◌, false, not, length, position, bytes_eq, OnOk, OnErr, IfOk, IfSome, is_some, if◌then◌else◌};
ghost use Rattle.mt_terms.specs.Registration.Ids.{has_id, all_differ};

use crate::id_set::{IdSet, filled_set};
use crate::seed::Seed;
use mt_flat::FlatLists;
use std::alloc::{AllocError, Global};
use std::marker::Model;

/// Ids in the order in which they came, each of them once. The number of an id is its place, from 0.
pub struct IdTable<'a> {
    set: IdSet<'a>,
}

impl Drop for IdTable<'_> {
    fn drop(self) {
        let IdTable { set: _ } = self;
    }
}

impl<'a> Model for IdTable<'a> {
    ghost use Rattle.std.specs.Prelude.{List, ℕ};

    ghost Value = { List (List ℕ) };

    ghost view = { λ table. table.set.ids };
}

impl<'a> IdTable<'a> {
    /// No ids.
    pub fn new(alloc: Global, seed: Seed) -> Self
        ensures { result ≡ [] }
    {
        IdTable {
            set: IdSet::new(alloc, seed),
        }
    }

    /// No ids, with room for some. The error is want of memory.
    pub fn with_capacity(alloc: Global, capacity: usize, seed: Seed) -> Result<Self, AllocError>
        ensures { IfOk result (λ table. table ≡ []) }
    {
        Ok(IdTable {
            set: IdSet::with_capacity(alloc, capacity, seed)?,
        })
    }

    /// The ids that these names are, if they differ. The error is want of memory.
    pub fn of(alloc: Global, names: &'a FlatLists<u8>) -> Result<Option<Self>, AllocError>
        ensures ids { IfOk result (λ found. IfSome found (λ table. table ≡ names.now)) }
        ensures differ { IfOk result (λ found. is_some found ≡ all_differ bytes_eq names.now) }
    {
        match filled_set(alloc, names)? {
            Some(set) => Ok(Some(IdTable { set })),
            None => Ok(None),
        }
    }

    /// How many ids there are.
    pub fn len(&self) -> usize
        ensures len { result ≡ length self.now }
        ensures small { result < 2 ^ 63 }
    {
        self.set.len()
    }

    /// Whether an id is one of them.
    pub fn contains(&self, id: &[u8]) -> bool
        ensures { result ≡ has_id self.now id.now }
    {
        self.set.place(id).is_some()
    }

    /// The number of an id, from 0, if it is one of them.
    pub fn number(&self, id: &[u8]) -> Option<usize>
        ensures { result ≡ position (bytes_eq id.now) self.now }
    {
        self.set.place(id)
    }

    /// Adds an id at the end, if it is none of them, and says whether it did so. The error is want of memory.
    pub fn add(&mut self, id: &'a [u8]) -> Result<bool, AllocError>
        ensures added { IfOk result (λ added. added ≡ not (has_id self.old id.now)) }
        ensures ids { IfOk result (λ _. self.new ≡ (if has_id self.old id.now then self.old else self.old ++ id.now ∷ [])) }
        ensures err { OnErr result (self.new ≡ self.old) }
    {
        self.set.add(id)
    }

    /// Adds an id that is none of them at the end. The error is want of memory.
    pub fn push(&mut self, id: &'a [u8]) -> Result<(), AllocError>
        requires { has_id self.old id.now ≡ false }
        ensures { OnOk result (self.new ≡ self.old ++ id.now ∷ []) }
    {
        self.add(id)?;
        Ok(())
    }
}
