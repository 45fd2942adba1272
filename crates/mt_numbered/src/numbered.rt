ghost use Rattle.std.specs.Prelude.{◌≡◌, ◌<◌, ◌^◌, ◌++◌, [], ◌∷◌, true, None, Some, map, option_to_list, bytes_eq, length, position, slice_index_or, IfOk, OnOk, if◌then◌else◌};
ghost use Rattle.mt_lists.specs.Rows.{fields_left};
ghost use Rattle.mt_id_lists.specs.Met.{IsNoneMet};
ghost use Rattle.mt_id_lists.specs.Numbering.{number_by};
ghost use Rattle.mt_terms.specs.Lists.{below};
ghost use Rattle.mt_id_lists.specs.Reading.{with_kept, ReadsIds};

use crate::batch::{AT_ONCE, find_places, take_fields};
use mt_flat::FlatLists;
use mt_id_lists::{ListReader, Met, Number};
use mt_ids::IdTable;
use mt_lists::Fields;
use std::alloc::{AllocError, Global};
use std::marker::Model;

/// Ids, and the new number of each that has one.
pub struct Numbered<'a, T: Number> {
    ids: IdTable<'a>,
    // None if each id has its place as its number, as in a file that withdraws nothing. A vector of them would take room
    // in the caches.
    numbers: Option<Vec<Option<T>>>,
}

impl<T: Number> Drop for Numbered<'_, T> {
    fn drop(self) {
        let Numbered { ids: _, numbers: _ } = self;
    }
}

impl<'a, T: Number> Model for Numbered<'a, T> {
    ghost use Rattle.std.specs.Prelude.{length};
    ghost use Rattle.mt_id_lists.specs.Numbering.{Numbering};
    ghost use Rattle.mt_numbered.specs.IdLists.{numbers_seen, AreFor};

    ghost Value = { Numbering T };

    ghost view = { λ n. record { ids = n.ids; numbers = numbers_seen T.at (length n.ids) n.numbers } };

    ghost invariant = { λ n. AreFor (length n.ids) n.numbers };
}

/// Begins a list at the end of these, if it is kept.
pub fn begin_list<T>(lists: &mut FlatLists<T>, kept: bool) -> Result<(), AllocError>
    ensures { OnOk result (lists.new ≡ lists.old ++ (if kept then [] ∷ [] else [])) }
{
    if kept {
        lists.begin()?;
    }
    Ok(())
}

impl<'a, T: Number> Numbered<'a, T> {
    /// These ids, with a number for each that has one.
    pub fn new(ids: IdTable<'a>, numbers: Vec<Option<T>>) -> Self
        requires { length numbers.items ≡ length ids }
        ensures ids { result.ids ≡ ids.entry }
        ensures numbers { result.numbers ≡ numbers.items }
    {
        Numbered {
            ids,
            numbers: Some(numbers),
        }
    }

    /// These ids, each with its place as its number.
    pub fn unchanged(ids: IdTable<'a>) -> Self
        requires { length ids < 2 ^ 32 }
        ensures ids { result.ids ≡ ids.entry }
        ensures numbers { result.numbers ≡ map (λ k. Some (T.at k)) (below (length ids.entry)) }
    {
        Numbered { ids, numbers: None }
    }

    /// The ids, without their numbers.
    pub fn into_ids(self) -> IdTable<'a>
        ensures { result ≡ self.entry.ids }
    {
        let Numbered { ids, numbers: _ } = self;
        ids
    }

    /// How many ids there are.
    pub(crate) fn len(&self) -> usize
        ensures { result ≡ length self.now.ids }
    {
        self.ids.len()
    }

    /// The place of an id, from 0, if it is one of these.
    pub fn place(&self, id: &[u8]) -> Option<usize>
        ensures { result ≡ position (bytes_eq id.now) self.now.ids }
    {
        self.ids.number(id)
    }

    /// The new number of the id at a place, if it has one.
    pub fn new_number(&self, place: usize) -> Option<T>
        requires { place < length self.now.ids }
        ensures { result ≡ slice_index_or self.now.numbers place None }
    {
        match &self.numbers {
            Some(numbers) => numbers[place],
            None => Some(T::at(place)),
        }
    }

    /// The new number of an id, if it is one of these and has one.
    pub fn number(&self, id: &[u8]) -> Option<T>
        ensures { result ≡ number_by self.now id.now }
    {
        let place = self.ids.number(id)?;
        self.new_number(place)
    }

    /// Adds the new number of the id at a place to the last of these lists, if it has one and the list is kept.
    pub(crate) fn push_number(
        &self,
        lists: &mut FlatLists<T>,
        kept: bool,
        place: usize,
    ) -> Result<(), AllocError>
        requires within { place < length self.now.ids }
        requires begun { kept ≡ true → 0 < length lists.old }
        ensures len { OnOk result (length lists.new ≡ length lists.old) }
        ensures lists { OnOk result (lists.new ≡ with_kept kept lists.old
            (option_to_list (slice_index_or self.now.numbers place None))) }
    {
        if kept {
            if let Some(number) = self.new_number(place) {
                lists.push(number)?;
            }
        }
        Ok(())
    }

    /// Adds the new numbers of a list's ids, of those that have one, to the last of these lists if it is kept. Says
    /// that each is one of these ids, and none stands twice.
    fn push_ids(
        &self,
        lists: &mut FlatLists<T>,
        met: &mut Met,
        kept: bool,
        list: Fields<'_>,
    ) -> Result<bool, AllocError>
        requires len { length met.old ≡ length self.now.ids }
        requires none { IsNoneMet met.old }
        requires begun { kept ≡ true → 0 < length lists.old }
        ensures len { length met.new ≡ length met.old }
        ensures reads { IfOk result
            (ReadsIds self.now kept (fields_left list.entry) lists.old lists.new) }
    {
        let mut rest = list;
        let mut fields: [&[u8]; AT_ONCE] = [b""; AT_ONCE];
        let mut places = [None; AT_ONCE];
        loop {
            let count = take_fields(&mut rest, AT_ONCE, &mut fields);
            if count == 0 {
                return Ok(true);
            }
            find_places(self, &fields[..count], &mut places);
            for i in 0..count {
                let Some(place) = places[i] else {
                    return Ok(false);
                };
                if !met.meet(place) {
                    return Ok(false);
                }
                self.push_number(lists, kept, place)?;
            }
        }
    }
}

// It reads a list's ids, if it has any, with whether the list is kept. Of a list that isn't, it only looks the ids up.
impl<'r, 'a, 'n, T: Number + Send + Sync> ListReader<(Option<&'r Fields<'a>>, bool), Met>
    for Numbered<'n, T> {
    ghost use Rattle.std.specs.Prelude.{◌≡◌, length};
    ghost use Rattle.mt_lists.specs.Rows.{fields_left};
    ghost use Rattle.mt_id_lists.specs.Reading.{ids_stand, ids_read};
    ghost use Rattle.mt_numbered.specs.IdLists.{list_seen};

    type Item = T;

    ghost stands = { λ n list. ids_stand n (list_seen list) };

    ghost read = { λ n list. ids_read n (list_seen list) };

    ghost entries = { λ n list. length (list_seen list).1 };

    ghost fits = { λ n met. length met ≡ length n.ids };

    fn entries(&self, list: &(Option<&'r Fields<'a>>, bool)) -> usize {
        match list.0 {
            Some(fields) => fields.len(),
            None => 0,
        }
    }

    fn new_met(&self, alloc: Global) -> Result<Met, AllocError> {
        Met::new(alloc, self.len())
    }

    fn read_list(
        &self,
        alloc: Global,
        lists: &mut FlatLists<T>,
        met: &mut Met,
        list: &(Option<&'r Fields<'a>>, bool),
    ) -> Result<bool, AllocError> {
        begin_list(lists, list.1)?;
        match list.0 {
            Some(fields) => {
                met.begin(alloc)?;
                self.push_ids(lists, met, list.1, *fields)
            }
            None => Ok(true),
        }
    }
}
