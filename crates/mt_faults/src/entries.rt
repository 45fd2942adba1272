ghost use Rattle.std.specs.Prelude.{◌≡◌, ◌++◌, [], ◌∷◌, is_some, slice_index_or, IfOk, if◌then◌else◌};
ghost use Rattle.mt_terms.specs.Registration.Ids.{has_id};

use crate::placed::Field;
use mt_ids::{IdTable, Seed};
use mt_records::push;
use std::alloc::{AllocError, Global};
use std::marker::Model;

/// The entries of a list so far, each of them once, with the number of the field where it stands first.
pub(crate) struct Entries<'a> {
    ids: IdTable<'a>,
    firsts: Vec<u32>,
}

impl Drop for Entries<'_> {
    fn drop(self) {
        let Entries { ids: _, firsts: _ } = self;
    }
}

impl<'a> Model for Entries<'a> {
    ghost use Rattle.std.specs.Prelude.{List, ℕ};

    ghost Value = { List (List ℕ) };

    ghost view = { λ entries. entries.ids };
}

impl<'a> Entries<'a> {
    /// No entries.
    pub(crate) fn new(alloc: Global, seed: Seed) -> Self
        ensures { result ≡ [] }
    {
        Entries {
            ids: IdTable::new(alloc, seed),
            firsts: Vec::new(alloc),
        }
    }

    /// Adds an entry, if it is none of them, or else gives the number of the field where it stands first. The error is
    /// want of memory.
    pub(crate) fn add(&mut self, field: &Field<'a>) -> Result<Option<usize>, AllocError>
        ensures found { IfOk result (λ first. is_some first ≡ has_id self.old field.now.bytes.now) }
        ensures ids { let id = field.now.bytes.now in IfOk result
            (λ _. self.new ≡ (if has_id self.old id then self.old else self.old ++ id ∷ [])) }
    {
        if let Some(number) = self.ids.number(field.bytes) {
            return Ok(Some(first_of(&self.firsts, number)));
        }
        self.ids.add(field.bytes)?;
        push(&mut self.firsts, field.number.min(u32::MAX as usize) as u32)?;
        Ok(None)
    }
}

/// The number at a place, or 0 if there is none.
pub(crate) fn first_of(firsts: &[u32], place: usize) -> usize
    ensures { result ≡ slice_index_or firsts.now place 0 }
{
    match firsts.get(place) {
        Some(first) => *first as usize,
        None => 0,
    }
}
