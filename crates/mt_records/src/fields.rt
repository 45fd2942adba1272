ghost use Rattle.std.specs.Prelude.{◌≡◌, ◌*◌, ◌∷◌, [], drop, length, map, MatchOption};
ghost use Rattle.std.specs.Option.{option_copied};
ghost use Rattle.std.specs.List.{list_all};
ghost use Rattle.mt_lists.specs.Rows.{fields_left};
ghost use Rattle.mt_terms.specs.Registration.Records.{are_ids, is_pair, pair_of};
ghost use Rattle.mt_terms.specs.Lists.{by_twos};
ghost use Rattle.mt_records.specs.Fields.{first_two, members_in, pairs_after, pairs_left};

use crate::rules::Rules;
use mt_ids::{is_dash, is_id};
use mt_lists::Fields;

/// Whether each field is an id by the rules of a version.
pub(crate) fn are_ids(rules: &Rules, fields: Fields<'_>) -> bool
    ensures { result ≡ are_ids rules.now (fields_left fields.entry) }
{
    for field in fields {
        if !is_id(rules.limits.id_bytes, field) {
            return false;
        }
    }
    true
}

/// Whether two fields are a pair: two ids, or one id and one `-` if the version allows it.
fn is_pair(rules: &Rules, first: &[u8], second: &[u8]) -> bool
    ensures { result ≡ is_pair rules.now (first.now, second.now) }
{
    let most = rules.limits.id_bytes;
    let first_is_id = is_id(most, first);
    let second_is_id = is_id(most, second);
    (first_is_id && second_is_id)
        || (rules.half_pairs
            && ((first_is_id && is_dash(second)) || (is_dash(first) && second_is_id)))
}

/// The next two fields, which are taken. None if there aren't two.
fn next_two<'a>(fields: &mut Fields<'a>) -> Option<(&'a [u8], &'a [u8])>
    ensures { let old = by_twos (fields_left fields.old) in
        let new = by_twos (fields_left fields.new) in
        MatchOption result ((old ≡ []) × (new ≡ [])) (λ two. old ≡ (two.0.now, two.1.now) ∷ new) }
{
    let first = fields.next()?;
    let second = fields.next()?;
    Some((first, second))
}

/// Whether some fields are pairs, two by two, by the rules of a version.
pub(crate) fn are_pairs(rules: &Rules, fields: Fields<'_>) -> bool
    ensures { result ≡ list_all (is_pair rules.now) (by_twos (fields_left fields.entry)) }
{
    let mut rest = fields;
    while let Some((first, second)) = next_two(&mut rest) {
        if !is_pair(rules, first, second) {
            return false;
        }
    }
    true
}

/// The place that a field of a pair names, which is none for `-`.
fn named_place<'a>(field: &'a [u8]) -> Option<&'a [u8]>
    ensures { option_copied result ≡ (pair_of (field.now, field.now)).0 }
{
    if is_dash(field) { None } else { Some(field) }
}

/// The pairs of a couple's list in turn: the program of each member, or none.
#[derive(Clone, Copy)]
pub struct Pairs<'a> {
    fields: Fields<'a>,
}

impl<'a> Pairs<'a> {
    /// The pairs that some fields write, two by two. A last field that has no other is left out.
    pub fn new(fields: Fields<'a>) -> Pairs<'a>
        ensures { pairs_left result ≡ map pair_of (by_twos (fields_left fields.entry)) }
    {
        Pairs { fields }
    }

    /// How many pairs there are.
    pub fn len(&self) -> usize
        ensures { result ≡ length (pairs_left self.now) }
    {
        self.fields.len() / 2
    }

    /// How many fields the pairs have.
    pub fn entries(&self) -> usize
        ensures { result ≡ 2 * length (pairs_left self.now) }
    {
        self.fields.len() / 2 * 2
    }
}

impl<'a> Iterator for Pairs<'a> {
    ghost use Rattle.std.specs.Iterator.{YieldsFirstBy, item_count};
    ghost use Rattle.mt_records.specs.Fields.{pair_seen, pairs_left};

    type Item = (Option<&'a [u8]>, Option<&'a [u8]>);

    ghost next_gives = { YieldsFirstBy pair_seen pairs_left };

    ghost remaining = { item_count pairs_left };

    fn next(&mut self) -> Option<(Option<&'a [u8]>, Option<&'a [u8]>)> {
        let (first, second) = next_two(&mut self.fields)?;
        Some((named_place(first), named_place(second)))
    }
}

/// What a couple's record writes after its id: its two members, and the pairs of its list.
#[derive(Clone, Copy)]
pub struct CoupleFields<'a> {
    fields: Fields<'a>,
}

impl<'a> CoupleFields<'a> {
    /// The fields of a couple's record after its id.
    pub fn new(fields: Fields<'a>) -> CoupleFields<'a>
        ensures members { members_in result ≡ first_two (by_twos (fields_left fields.entry)) }
        ensures pairs { pairs_after result
            ≡ map pair_of (drop 1 (by_twos (fields_left fields.entry))) }
    {
        CoupleFields { fields }
    }

    /// The ids of the couple's members, which are empty if the record has none.
    pub fn members(&self) -> (&'a [u8], &'a [u8])
        ensures { (result.0.now, result.1.now) ≡ members_in self.now }
    {
        let mut fields = self.fields;
        match next_two(&mut fields) {
            Some(members) => members,
            None => (&[], &[]),
        }
    }

    /// The pairs of the couple's list.
    pub fn pairs(&self) -> Pairs<'a>
        ensures { pairs_left result ≡ pairs_after self.now }
    {
        let mut fields = self.fields;
        next_two(&mut fields);
        Pairs::new(fields)
    }
}
