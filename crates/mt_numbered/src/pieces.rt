//! Long lists of ids by numbers, if there are few of them. Several threads look up the ids in pieces. Then one thread
//! numbers them in order, and sees whether one stands twice.
ghost use Rattle.std.specs.Prelude.{◌≡◌, ◌<◌, ◌^◌, true, flat_map, length, All, IfOk};
ghost use Rattle.mt_lists.specs.Rows.{fields_left};
ghost use Rattle.mt_id_lists.specs.Met.{IsNoneMet};
ghost use Rattle.mt_id_lists.specs.Reading.{ids_read, ids_stand, ReadsAll};
ghost use Rattle.mt_numbered.specs.IdLists.{ids_in, list_seen};
ghost use Rattle.mt_numbered.specs.Pieces.{piece_ids};
ghost use Rattle.mt_numbered.specs.Places.{FindsPlaces, ReadsPlaces};

use crate::batch::{AT_ONCE, find_places, take_fields};
use crate::numbered::{Numbered, begin_list};
use mt_flat::{ChunkedLists, FlatLists};
use mt_id_lists::{ListReader, Met, Number, read_lists};
use mt_lists::Fields;
use rayon::current_num_threads;
use std::alloc::{AllocError, Global};
use std::marker::Model;
use std::thread::Threads;

/// The most fields of a piece.
const MOST_FIELDS: usize = 2048;

/// The fewest entries of lists that are worth pieces.
const FEWEST: usize = 32_768;

/// A piece of a list: as many fields as `count`, the first of those that are left.
#[derive(Clone, Copy)]
struct Piece<'a> {
    fields: Fields<'a>,
    count: usize,
}

/// What looks up the ids of pieces. Each of these ids has a place in 32 bits.
struct PlaceReader<'n, 'a, T: Number> {
    numbered: &'n Numbered<'a, T>,
}

impl<T: Number> Drop for PlaceReader<'_, '_, T> {
    fn drop(self) {
        let PlaceReader { numbered: _ } = self;
    }
}

impl<'n, 'a, T: Number> Model for PlaceReader<'n, 'a, T> {
    ghost use Rattle.std.specs.Prelude.{◌<◌, ◌^◌, length, List};
    ghost use Rattle.mt_terms.specs.Registration.Ids.{Bytes};

    ghost Value = { List Bytes };

    ghost view = { λ r. r.numbered.now.ids };

    ghost invariant = { λ r. length r.numbered.now.ids < 2 ^ 32 };
}

impl<'p, 'n, 'a, T: Number + Send + Sync> ListReader<Piece<'p>, ()> for PlaceReader<'n, 'a, T> {
    ghost use Rattle.std.specs.Prelude.{⊤};
    ghost use Rattle.mt_numbered.specs.Pieces.{piece_read, piece_stands};

    type Item = u32;

    ghost stands = { λ ids piece. piece_stands ids piece };

    ghost read = { λ ids piece. piece_read ids piece };

    ghost entries = { λ ids piece. piece.count };

    ghost fits = { λ ids met. ⊤ };

    fn entries(&self, piece: &Piece<'p>) -> usize {
        piece.count
    }

    fn new_met(&self, alloc: Global) -> Result<(), AllocError>
        ensures { IfOk result (λ met. ⊤) }
    {
        Ok(())
    }

    fn read_list(
        &self,
        alloc: Global,
        lists: &mut FlatLists<u32>,
        met: &mut (),
        piece: &Piece<'p>,
    ) -> Result<bool, AllocError> {
        lists.begin()?;
        let mut rest = piece.fields;
        let mut left = piece.count;
        let mut fields: [&[u8]; AT_ONCE] = [b""; AT_ONCE];
        let mut places = [None; AT_ONCE];
        while left > 0 {
            let count = take_fields(&mut rest, left, &mut fields);
            if count == 0 {
                return Ok(true);
            }
            find_places(self.numbered, &fields[..count], &mut places);
            for i in 0..count {
                let Some(place) = places[i] else {
                    return Ok(false);
                };
                lists.push(place as u32)?;
            }
            left -= count;
        }
        Ok(true)
    }
}

/// A list in pieces.
fn pieces_of<'a>(alloc: Global, list: Fields<'a>) -> Result<Vec<Piece<'a>>, AllocError>
    ensures { IfOk result (λ pieces. flat_map piece_ids pieces.items ≡ fields_left list.entry) }
{
    let mut pieces = Vec::new(alloc);
    let mut rest = list;
    let mut left = list.len();
    while left > 0 {
        let count = left.min(MOST_FIELDS);
        pieces.push(Piece {
            fields: rest,
            count,
        })?;
        rest.advance_by(count);
        left -= count;
    }
    Ok(pieces)
}

/// The elements of lists one after another. There are as many lists as `count`.
fn joined(alloc: Global, lists: &ChunkedLists<u32>, count: usize) -> Result<Vec<u32>, AllocError>
    requires { length lists.now ≡ count }
    ensures { IfOk result (λ items. items.items ≡ flat_map (λ list. list) lists.now) }
{
    let mut items = Vec::new(alloc);
    for number in 0..count {
        items.extend_from_slice(lists.list(number))?;
    }
    Ok(items)
}

impl<'n, 'a, T: Number + Send + Sync> PlaceReader<'n, 'a, T> {
    /// The places of a list's ids, if it has any and each is one of these.
    fn places<R: Threads + Sync>(
        &self,
        rt: &R,
        alloc: Global,
        ids: Option<&Fields<'_>>,
    ) -> Result<Option<Vec<u32>>, AllocError>
        ensures { IfOk result (FindsPlaces self.now (ids_in ids.entry)) }
    {
        let Some(fields) = ids else {
            return Ok(Some(Vec::new(alloc)));
        };
        let pieces = pieces_of(alloc, *fields)?;
        let count = pieces.len();
        let Some(places) = read_lists(rt, alloc, self, pieces)? else {
            return Ok(None);
        };
        Ok(Some(joined(alloc, &places, count)?))
    }
}

/// Adds the new numbers of the ids at these places, of those that have one, to the last of these lists if it is kept.
/// Says that no place stands twice.
fn push_places<T: Number>(
    ids: &Numbered<'_, T>,
    lists: &mut FlatLists<T>,
    met: &mut Met,
    kept: bool,
    places: &[u32],
) -> Result<bool, AllocError>
    requires len { length met.old ≡ length ids.now.ids }
    requires none { IsNoneMet met.old }
    requires begun { kept ≡ true → 0 < length lists.old }
    requires within { All (λ place. place < length ids.now.ids) places.now }
    ensures len { length met.new ≡ length met.old }
    ensures reads { IfOk result (ReadsPlaces ids.now kept places.now lists.old lists.new) }
{
    for place in places {
        let place = *place as usize;
        if !met.meet(place) {
            return Ok(false);
        }
        ids.push_number(lists, kept, place)?;
    }
    Ok(true)
}

/// How many entries lists have.
fn total_entries(lists: &[(Option<&Fields<'_>>, bool)]) -> usize {
    let mut entries: usize = 0;
    for list in lists {
        if let Some(fields) = list.0 {
            entries = entries.saturating_add(fields.len());
        }
    }
    entries
}

/// How many entries the longest list has.
fn longest_of(lists: &[(Option<&Fields<'_>>, bool)]) -> usize {
    let mut longest: usize = 0;
    for list in lists {
        if let Some(fields) = list.0 {
            longest = longest.max(fields.len());
        }
    }
    longest
}

/// Whether lists are read sooner in pieces: there are fewer than processors, and one has half of their many entries.
/// Several lists of one length are read side by side as they are.
fn are_worth_pieces<R: Threads>(rt: &R, lists: &[(Option<&Fields<'_>>, bool)]) -> bool {
    if lists.len() >= current_num_threads(rt) {
        return false;
    }
    let entries = total_entries(lists);
    entries >= FEWEST && longest_of(lists) >= entries / 2
}

/// Lists by numbers, if each stands. The ids of a list are looked up in pieces, one list after another.
fn read_in_pieces<R: Threads + Sync, T: Number + Send + Sync>(
    rt: &R,
    alloc: Global,
    ids: &Numbered<'_, T>,
    lists: &[(Option<&Fields<'_>>, bool)],
) -> Result<Option<ChunkedLists<T>>, AllocError>
    requires { length ids.now.ids < 2 ^ 32 }
    ensures { IfOk result (ReadsAll (λ list. ids_stand ids.now (list_seen list))
        (λ list. ids_read ids.now (list_seen list)) lists.now) }
{
    let mut read = FlatLists::with_capacity(alloc, lists.len(), total_entries(lists))?;
    let mut met = Met::new(alloc, ids.len())?;
    let reader = PlaceReader { numbered: ids };
    for list in lists {
        let Some(places) = reader.places(rt, alloc, list.0)? else {
            return Ok(None);
        };
        begin_list(&mut read, list.1)?;
        met.begin(alloc)?;
        if !push_places(ids, &mut read, &mut met, list.1, &places)? {
            return Ok(None);
        }
    }
    Ok(Some(ChunkedLists::of(alloc, read)?))
}

/// Lists by numbers, if each stands. A list is its ids, if it has any, and whether it is kept. Whole lists are read side
/// by side, and long ones in pieces if there are few.
pub fn read_id_lists<R: Threads + Sync, T: Number + Send + Sync>(
    rt: &R,
    alloc: Global,
    ids: &Numbered<'_, T>,
    lists: Vec<(Option<&Fields<'_>>, bool)>,
) -> Result<Option<ChunkedLists<T>>, AllocError>
    ensures { IfOk result (ReadsAll (λ list. ids_stand ids.now (list_seen list))
        (λ list. ids_read ids.now (list_seen list)) lists.entry.items) }
{
    if ids.len() <= u32::MAX as usize && are_worth_pieces(rt, &lists) {
        read_in_pieces(rt, alloc, ids, &lists)
    } else {
        read_lists(rt, alloc, ids, lists)
    }
}
