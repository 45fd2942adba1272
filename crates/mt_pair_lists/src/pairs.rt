//! Couples' lists of pairs read by the new numbers of programs.
ghost use Rattle.std.specs.Prelude.{◌≡◌, ◌<◌, ⊤, true, length, option_to_list, IfOk, IfSome, OnOk};
ghost use Rattle.std.specs.Option.{option_copied};
ghost use Rattle.mt_draft_laws.specs.Faultless.{is_allowed};
ghost use Rattle.mt_draft_laws.specs.Staying.{new_place, new_pair};
ghost use Rattle.mt_records.specs.Fields.{pairs_left};
ghost use Rattle.mt_id_lists.specs.Reading.{with_kept};
ghost use Rattle.mt_pair_lists.specs.Pairs.{place_in, pair_in};
ghost use Rattle.mt_pair_lists.specs.Pairs.{ReadsPairs};

use crate::duplicates::has_duplicate;
use mt_flat::FlatLists;
use mt_id_lists::ListReader;
use mt_numbered::{Numbered, begin_list};
use mt_records::Pairs;
use mt_terms::ProgNo;
use std::alloc::{AllocError, Global};

/// The pairs of a list by their numbers among all programs, as far as it was read.
#[derive(Drop)]
pub struct FoundPairs {
    pairs: Vec<(Option<usize>, Option<usize>)>,
}

/// What reads couples' lists: the programs, and whether a pair may have a place for one member alone.
#[derive(Clone, Copy)]
pub struct PairReader<'n, 'a> {
    pub programs: &'n Numbered<'a, ProgNo>,
    pub half_pairs: bool,
}

/// Where a pair sends a member, by number, if it names none but these programs.
fn place(programs: &Numbered<'_, ProgNo>, place: Option<&[u8]>) -> Option<Option<usize>>
    ensures { result ≡ place_in programs.now.ids (option_copied place.entry) }
{
    let Some(id) = place else {
        return Some(None);
    };
    let place = programs.place(id)?;
    Some(Some(place))
}

/// Whether a pair has a place for each member, or if half pairs are allowed for one of them.
fn is_allowed(half_pairs: bool, first: Option<&[u8]>, second: Option<&[u8]>) -> bool
    ensures { result
        ≡ is_allowed half_pairs (option_copied first.entry, option_copied second.entry) }
{
    let first = first.is_some();
    let second = second.is_some();
    (first && second) || (half_pairs && (first || second))
}

/// The new number of a place, if there is a program that has none.
fn new_place(programs: &Numbered<'_, ProgNo>, place: Option<usize>) -> Option<Option<ProgNo>>
    requires { IfSome place (λ n. n < length programs.now.ids) }
    ensures { result ≡ new_place programs.now.numbers place }
{
    let Some(place) = place else {
        return Some(None);
    };
    let program = programs.new_number(place)?;
    Some(Some(program))
}

/// A pair by new numbers, if each program that it names has one.
fn new_pair(
    programs: &Numbered<'_, ProgNo>,
    first: Option<usize>,
    second: Option<usize>,
) -> Option<(Option<ProgNo>, Option<ProgNo>)>
    requires first { IfSome first (λ n. n < length programs.now.ids) }
    requires second { IfSome second (λ n. n < length programs.now.ids) }
    ensures { result ≡ new_pair programs.now.numbers (first, second) }
{
    let first = new_place(programs, first)?;
    let second = new_place(programs, second)?;
    Some((first, second))
}

impl<'n, 'a> PairReader<'n, 'a> {
    /// A pair by numbers, if it is allowed and names none but these programs.
    fn numbered_pair(
        &self,
        first: Option<&[u8]>,
        second: Option<&[u8]>,
    ) -> Option<(Option<usize>, Option<usize>)>
        ensures { result ≡ pair_in self.now.half_pairs self.now.programs.now.ids
            (option_copied first.entry, option_copied second.entry) }
    {
        if !is_allowed(self.half_pairs, first, second) {
            return None;
        }
        let first = place(self.programs, first)?;
        let second = place(self.programs, second)?;
        Some((first, second))
    }

    /// Adds a pair by new numbers to the last of these lists, if that is kept and each program of the pair has one.
    fn push_pair(
        &self,
        lists: &mut FlatLists<(Option<ProgNo>, Option<ProgNo>)>,
        kept: bool,
        first: Option<usize>,
        second: Option<usize>,
    ) -> Result<(), AllocError>
        requires first { IfSome first (λ n. n < length self.now.programs.now.ids) }
        requires second { IfSome second (λ n. n < length self.now.programs.now.ids) }
        requires begun { kept ≡ true → 0 < length lists.old }
        ensures len { OnOk result (length lists.new ≡ length lists.old) }
        ensures lists { OnOk result (lists.new ≡ with_kept kept lists.old
            (option_to_list (new_pair self.now.programs.now.numbers (first, second)))) }
    {
        if kept {
            if let Some(pair) = new_pair(self.programs, first, second) {
                lists.push(pair)?;
            }
        }
        Ok(())
    }

    /// Adds a list's pairs by new numbers, of those whose programs have one, to the last of these lists if it is kept.
    /// Says that each pair stands, and none is there twice. The pairs by their numbers among all programs are left in
    /// `found`.
    fn push_pairs(
        &self,
        lists: &mut FlatLists<(Option<ProgNo>, Option<ProgNo>)>,
        found: &mut Vec<(Option<usize>, Option<usize>)>,
        kept: bool,
        list: Pairs<'_>,
    ) -> Result<bool, AllocError>
        requires { kept ≡ true → 0 < length lists.old }
        ensures { IfOk result (ReadsPairs self.now.half_pairs self.now.programs.now kept
            (pairs_left list.entry) lists.old lists.new) }
    {
        found.clear();
        for (first, second) in list {
            let Some((first, second)) = self.numbered_pair(first, second) else {
                return Ok(false);
            };
            found.push((first, second))?;
            self.push_pair(lists, kept, first, second)?;
        }
        Ok(!has_duplicate(found))
    }
}

// It reads a couple's pairs, with whether their list is kept. Of a list that isn't, it only looks the pairs up.
impl<'n, 'a, 'l> ListReader<(Pairs<'l>, bool), FoundPairs> for PairReader<'n, 'a> {
    ghost use Rattle.std.specs.Prelude.{◌*◌, length, ⊤};
    ghost use Rattle.mt_pair_lists.specs.Pairs.{pair_list_seen, pairs_read, pairs_stand_in};

    type Item = (Option<ProgNo>, Option<ProgNo>);

    ghost stands = { λ r list. pairs_stand_in r.half_pairs r.programs.now (pair_list_seen list) };

    ghost read = { λ r list. pairs_read r.programs.now (pair_list_seen list) };

    ghost entries = { λ r list. 2 * length (pair_list_seen list).1 };

    ghost fits = { λ r found. ⊤ };

    fn entries(&self, list: &(Pairs<'l>, bool)) -> usize {
        list.0.entries()
    }

    fn new_met(&self, alloc: Global) -> Result<FoundPairs, AllocError>
        ensures { IfOk result (λ found. ⊤) }
    {
        Ok(FoundPairs {
            pairs: Vec::new(alloc),
        })
    }

    fn read_list(
        &self,
        alloc: Global,
        lists: &mut FlatLists<(Option<ProgNo>, Option<ProgNo>)>,
        found: &mut FoundPairs,
        list: &(Pairs<'l>, bool),
    ) -> Result<bool, AllocError> {
        begin_list(lists, list.1)?;
        self.push_pairs(lists, &mut found.pairs, list.1, list.0)
    }
}
