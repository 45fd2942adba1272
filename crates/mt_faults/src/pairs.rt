ghost use Rattle.std.specs.Prelude.{◌≡◌, ◌++◌, [], ◌∷◌, is_some, IfOk, if◌then◌else◌};
ghost use Rattle.std.specs.List.{list_any};
ghost use Rattle.mt_terms.specs.Registration.Passes.{is_same_pair};
ghost use Rattle.mt_terms.specs.Registration.Records.{pair_of};
ghost use Rattle.mt_records.specs.Fields.{pair_seen};

use crate::entries::first_of;
use crate::placed::Field;
use mt_ids::{Seed, is_dash};
use mt_passes::PairTable;
use mt_records::push;
use std::alloc::{AllocError, Global};
use std::marker::Model;

/// The pairs of a couple's list so far, each of them once, with the number of the field where it begins first.
pub(crate) struct PairEntries<'a> {
    pairs: PairTable<'a>,
    firsts: Vec<u32>,
}

impl Drop for PairEntries<'_> {
    fn drop(self) {
        let PairEntries {
            pairs: _,
            firsts: _,
        } = self;
    }
}

impl<'a> Model for PairEntries<'a> {
    ghost use Rattle.std.specs.Prelude.{List, ℕ, Option};

    ghost Value = { List (Option (List ℕ) × Option (List ℕ)) };

    ghost view = { λ entries. entries.pairs };
}

/// A pair by its fields: the place of each member, or none for a `-`.
pub(crate) fn pair_of<'a>(
    first: &Field<'a>,
    second: &Field<'a>,
) -> (Option<&'a [u8]>, Option<&'a [u8]>)
    ensures { pair_seen result ≡ pair_of (first.now.bytes.now, second.now.bytes.now) }
{
    let of_first = if is_dash(first.bytes) {
        None
    } else {
        Some(first.bytes)
    };
    let of_second = if is_dash(second.bytes) {
        None
    } else {
        Some(second.bytes)
    };
    (of_first, of_second)
}

impl<'a> PairEntries<'a> {
    /// No pairs.
    pub(crate) fn new(alloc: Global, seed: Seed) -> Self
        ensures { result ≡ [] }
    {
        PairEntries {
            pairs: PairTable::new(alloc, seed),
            firsts: Vec::new(alloc),
        }
    }

    /// Adds a pair that begins at the field with a number, if it is none of them, or else gives the number of the field
    /// where it begins first. The error is want of memory.
    pub(crate) fn add(
        &mut self,
        pair: (Option<&'a [u8]>, Option<&'a [u8]>),
        number: usize,
    ) -> Result<Option<usize>, AllocError>
        ensures found { let p = pair_seen pair.entry in
            IfOk result (λ first. is_some first ≡ list_any (is_same_pair p) self.old) }
        ensures pairs { let p = pair_seen pair.entry in IfOk result
            (λ _. self.new ≡ (if list_any (is_same_pair p) self.old then self.old else self.old ++ p ∷ [])) }
    {
        if self.pairs.add(pair)? {
            push(&mut self.firsts, number.min(u32::MAX as usize) as u32)?;
            return Ok(None);
        }
        Ok(Some(match self.pairs.place(pair) {
            Some(place) => first_of(&self.firsts, place),
            None => 0,
        }))
    }
}
