ghost use Rattle.std.specs.Prelude.{◌≡◌, ◌++◌, [], ◌∷◌, not, position, OnErr, IfOk, if◌then◌else◌};
ghost use Rattle.std.specs.List.{list_any};
ghost use Rattle.mt_terms.specs.Registration.Passes.{is_same_pair};
ghost use Rattle.mt_records.specs.Fields.{pair_seen};

use mt_ids::Seed;
use std::alloc::{AllocError, Global};
use std::collections::HashMap;
use std::marker::Model;

/// Pairs in the order in which they came, each of them once.
pub struct PairTable<'a> {
    pairs: Vec<(Option<&'a [u8]>, Option<&'a [u8]>)>,
    // The place of each pair.
    places: HashMap<(Option<&'a [u8]>, Option<&'a [u8]>), usize, Seed>,
}

impl Drop for PairTable<'_> {
    fn drop(self) {
        let PairTable {
            pairs: _,
            places: _,
        } = self;
    }
}

impl<'a> Model for PairTable<'a> {
    ghost use Rattle.std.specs.Prelude.{◌≡◌, List, ℕ, Option, map, position};
    ghost use Rattle.std.specs.Borrow.{Bor};
    ghost use Rattle.std.specs.HashMap.{get_by};
    ghost use Rattle.mt_terms.specs.Registration.Passes.{is_same_pair};
    ghost use Rattle.mt_records.specs.Fields.{pair_seen};

    ghost Value = { List (Option (List ℕ) × Option (List ℕ)) };

    ghost view = { λ table. map pair_seen table.pairs.items };

    ghost invariant = { λ table. (pair : Option (Bor (List ℕ)) × Option (Bor (List ℕ))) →
        get_by (λ key. is_same_pair (pair_seen pair) (pair_seen key)) table.places
        ≡ position (is_same_pair (pair_seen pair)) (map pair_seen table.pairs.items) };
}

impl<'a> PairTable<'a> {
    /// No pairs. The table hashes by the seed.
    pub fn new(alloc: Global, seed: Seed) -> Self
        ensures { result ≡ [] }
    {
        PairTable {
            pairs: Vec::new(alloc),
            places: HashMap::with_hasher(alloc, seed),
        }
    }

    /// The same, with room for some. The error is want of memory.
    pub fn with_capacity(alloc: Global, capacity: usize, seed: Seed) -> Result<Self, AllocError>
        ensures { IfOk result (λ table. table ≡ []) }
    {
        Ok(PairTable {
            pairs: Vec::with_capacity(alloc, capacity)?,
            places: HashMap::with_capacity_and_hasher(alloc, capacity, seed)?,
        })
    }

    /// Adds a pair at the end, if it is none of them, and says whether it did so. The error is want of memory.
    pub fn add(&mut self, pair: (Option<&'a [u8]>, Option<&'a [u8]>)) -> Result<bool, AllocError>
        ensures added { let p = pair_seen pair.entry in
            IfOk result (λ added. added ≡ not (list_any (is_same_pair p) self.old)) }
        ensures pairs { let p = pair_seen pair.entry in
            IfOk result (λ _. self.new
            ≡ (if list_any (is_same_pair p) self.old then self.old else self.old ++ p ∷ [])) }
        ensures err { OnErr result (self.new ≡ self.old) }
    {
        if self.place(pair).is_some() {
            return Ok(false);
        }
        let place = self.pairs.len();
        // Room comes first, so that want of memory leaves no place of a pair that isn't in the table.
        self.pairs.reserve(1)?;
        self.places.insert(pair, place)?;
        self.pairs.push_reserved(pair);
        Ok(true)
    }

    /// The place of a pair from 0, if it is one of them.
    pub fn place(&self, pair: (Option<&'a [u8]>, Option<&'a [u8]>)) -> Option<usize>
        ensures { result ≡ position (is_same_pair (pair_seen pair.entry)) self.now }
    {
        self.places.get(&pair).copied()
    }
}
