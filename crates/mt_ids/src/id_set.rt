//! Ids, each of them once. Words find those that are short.
ghost use Rattle.std.specs.Prelude.{◌≡◌, ◌<◌, ◌^◌, [], not, is_some, length, position, bytes_eq, IfOk, IfSome, OnErr};
ghost use Rattle.mt_terms.specs.Registration.Ids.{has_id, all_differ};
ghost use Rattle.mt_ids.specs.Seeds.{seed_of};
ghost use Rattle.mt_ids.specs.Sets.{with_id};

use crate::seed::{Seed, add_field};
use crate::words::{MOST_IN_PAIR, MOST_IN_WORD, pair_of, place_word, word_of};
use indexmap::{IndexMap, IndexSet};
use mt_flat::FlatLists;
use std::alloc::{AllocError, Global};
use std::hash::DefaultHasher;
use std::marker::Model;

/// Ids in the order in which they came, each of them once.
pub(crate) struct IdSet<'a> {
    // The words of the ids, in their order. Nothing else is kept of a short id, so it takes little room in the caches.
    // A longer id has its place among the longer ones here.
    words: IndexSet<u64, Seed>,
    // The ids that have no word, in their order.
    longer: Vec<&'a [u8]>,
    // The places of ids that have pairs of words.
    pairs: IndexMap<(u64, u64), usize, Seed>,
    // The places of longer ids.
    long: IndexMap<&'a [u8], usize, Seed>,
}

impl Drop for IdSet<'_> {
    fn drop(self) {
        let IdSet {
            words: _,
            longer: _,
            pairs: _,
            long: _,
        } = self;
    }
}

impl<'a> Model for IdSet<'a> {
    ghost use Rattle.std.specs.Prelude.{map, bytes_eq};
    ghost use Rattle.indexmap.specs.IndexMap.{get_by};
    ghost use Rattle.indexmap.specs.IndexSet.{hasher_of};
    ghost use Rattle.mt_ids.specs.Sets.{SeededIds, FindsIds};
    ghost use Rattle.mt_ids.specs.Words.{ids_in, pair_eq};

    ghost Value = { SeededIds };

    ghost view = { λ s. record {
      ids = ids_in (map (λ id. id.now) s.longer.items) s.words.keys;
      seed = hasher_of s.words;
    } };

    ghost invariant = { λ s. let longer = map (λ id. id.now) s.longer.items in
        FindsIds (ids_in longer s.words.keys) longer s.words.keys
        (λ pair. get_by (pair_eq pair) s.pairs) (λ id. get_by (λ key. bytes_eq id key.now) s.long) };
}

impl<'a> IdSet<'a> {
    /// No ids.
    pub(crate) fn new(alloc: Global, seed: Seed) -> Self
        ensures ids { result.ids ≡ [] }
        ensures seed { result.seed ≡ seed }
    {
        IdSet {
            words: IndexSet::with_hasher(alloc, seed),
            longer: Vec::new(alloc),
            pairs: IndexMap::with_hasher(alloc, seed),
            long: IndexMap::with_hasher(alloc, seed),
        }
    }

    /// No ids, with room for some. The error is want of memory.
    pub(crate) fn with_capacity(
        alloc: Global,
        capacity: usize,
        seed: Seed,
    ) -> Result<Self, AllocError>
        ensures ids { IfOk result (λ set. set.ids ≡ []) }
        ensures seed { IfOk result (λ set. set.seed ≡ seed) }
    {
        Ok(IdSet {
            words: IndexSet::with_capacity_and_hasher(alloc, capacity, seed)?,
            longer: Vec::new(alloc),
            pairs: IndexMap::with_hasher(alloc, seed),
            long: IndexMap::with_hasher(alloc, seed),
        })
    }

    /// How many ids there are.
    pub(crate) fn len(&self) -> usize
        ensures len { result ≡ length self.now.ids }
        ensures small { result < 2 ^ 63 }
    {
        self.words.len()
    }

    /// The place of an id, from 0, if it is one of them.
    #[inline(always)]
    pub(crate) fn place(&self, id: &[u8]) -> Option<usize>
        ensures { result ≡ position (bytes_eq id.now) self.now.ids }
    {
        if id.len() <= MOST_IN_WORD {
            self.words.get_index_of(&word_of(id))
        } else {
            self.longer_place(id)
        }
    }

    /// The place of an id that has no word, if it is one of them.
    fn longer_place(&self, id: &[u8]) -> Option<usize>
        requires { 7 < length id.now }
        ensures { result ≡ position (bytes_eq id.now) self.now.ids }
    {
        if id.len() <= MOST_IN_PAIR {
            self.pairs.get(&pair_of(id)).copied()
        } else {
            self.long.get(&id).copied()
        }
    }

    /// Adds an id at the end, if it is none of them, and says whether it did so. The error is want of memory.
    pub(crate) fn add(&mut self, id: &'a [u8]) -> Result<bool, AllocError>
        ensures added { IfOk result (λ added. added ≡ not (has_id self.old.ids id.now)) }
        ensures ids { IfOk result (λ _. self.new.ids ≡ with_id self.old.ids id.now) }
        ensures err { OnErr result (self.new.ids ≡ self.old.ids) }
        ensures seed { self.new.seed ≡ self.old.seed }
    {
        if id.len() <= MOST_IN_WORD {
            let is_new = self.words.insert(word_of(id))?;
            Ok(is_new)
        } else {
            self.add_longer(id)
        }
    }

    /// Adds an id that has no word, as `add` does.
    fn add_longer(&mut self, id: &'a [u8]) -> Result<bool, AllocError>
        requires { 7 < length id.now }
        ensures added { IfOk result (λ added. added ≡ not (has_id self.old.ids id.now)) }
        ensures ids { IfOk result (λ _. self.new.ids ≡ with_id self.old.ids id.now) }
        ensures err { OnErr result (self.new.ids ≡ self.old.ids) }
        ensures seed { self.new.seed ≡ self.old.seed }
    {
        if self.longer_place(id).is_some() {
            return Ok(false);
        }
        let place = self.words.len();
        self.longer.reserve(1)?;
        self.words.reserve(1)?;
        if id.len() <= MOST_IN_PAIR {
            self.pairs.insert(pair_of(id), place)?;
        } else {
            self.long.insert(id, place)?;
        }
        self.words.insert(place_word(self.longer.len()))?;
        self.longer.push_reserved(id);
        Ok(true)
    }
}

/// The seed of a table of these names.
fn seed_of(names: &FlatLists<u8>) -> Seed
    ensures { result ≡ seed_of names.now }
{
    let mut digest = DefaultHasher::new();
    for number in 0..names.len() {
        add_field(&mut digest, names.list(number));
    }
    Seed::of(&digest)
}

/// The set of the ids that these names are, if they differ. It hashes by their seed. The error is want of memory.
pub(crate) fn filled_set<'a>(
    alloc: Global,
    names: &'a FlatLists<u8>,
) -> Result<Option<IdSet<'a>>, AllocError>
    ensures ids { IfOk result (λ found. IfSome found (λ set. set.ids ≡ names.now)) }
    ensures differ { IfOk result (λ found. is_some found ≡ all_differ bytes_eq names.now) }
    ensures seed { IfOk result (λ found. IfSome found (λ set. set.seed ≡ seed_of names.now)) }
{
    let mut set = IdSet::with_capacity(alloc, names.len(), seed_of(names))?;
    for i in 0..names.len() {
        if !set.add(names.list(i))? {
            return Ok(None);
        }
    }
    Ok(Some(set))
}
