ghost use Rattle.std.specs.Prelude.{◌≡◌, ◌≤◌, ◌&&◌, ◌==◌, true, nat_lt, nat_le, not, length, slice_index, MatchOption, None, Some};
ghost use Rattle.std.specs.List.{list_all};
ghost use Rattle.std.specs.Char.{is_ascii_digit};
ghost use Rattle.std.specs.Str.Parse.{digits_value};
ghost use Rattle.mt_lists.specs.Rows.{fields_left};
ghost use Rattle.mt_match_file.specs.Submitted.{four_of, has_leading_zero, is_number, one_of, placed_of, two_of};

use mt_ids::{are_digits, value_of};
use mt_lists::Fields;

/// Whether a field begins with a zero that other bytes follow.
fn has_leading_zero(field: &[u8]) -> bool
    ensures { result ≡ has_leading_zero field.now }
{
    field.len() > 1 && field[0] == b'0'
}

/// Whether a field is a number as published texts write them: one to ten digits, with no zero before others.
pub(crate) fn is_number(field: &[u8]) -> bool
    ensures { result ≡ is_number field.now }
{
    let is_sized = !field.is_empty() && field.len() <= 10;
    is_sized && are_digits(field) && !has_leading_zero(field)
}

/// The number that a field writes.
pub(crate) fn number(field: &[u8]) -> u64
    requires { is_number field.now ≡ true }
    ensures { result ≡ digits_value 10 field.now }
{
    value_of(field)
}

/// The field, if there is just one.
pub(crate) fn one<'a>(fields: Fields<'a>) -> Option<&'a [u8]>
    ensures { MatchOption result (one_of (fields_left fields.entry) ≡ None)
        (λ field. one_of (fields_left fields.entry) ≡ Some field.now) }
{
    let mut rest = fields;
    let first = rest.next()?;
    match rest.next() {
        Some(_) => None,
        None => Some(first),
    }
}

/// The fields, if there are just two.
pub(crate) fn two<'a>(fields: Fields<'a>) -> Option<(&'a [u8], &'a [u8])>
    ensures { MatchOption result (two_of (fields_left fields.entry) ≡ None)
        (λ two. two_of (fields_left fields.entry) ≡ Some (two.0.now, two.1.now)) }
{
    let mut rest = fields;
    let first = rest.next()?;
    let second = rest.next()?;
    match rest.next() {
        Some(_) => None,
        None => Some((first, second)),
    }
}

/// An applicant's id and its place, which is `-` if the record ends before it.
pub(crate) fn id_and_place<'a>(fields: Fields<'a>) -> Option<(&'a [u8], &'a [u8])>
    ensures { MatchOption result (placed_of (fields_left fields.entry) ≡ None)
        (λ two. placed_of (fields_left fields.entry) ≡ Some (two.0.now, two.1.now)) }
{
    let mut rest = fields;
    let id = rest.next()?;
    let Some(place) = rest.next() else {
        return Some((id, b"-"));
    };
    match rest.next() {
        Some(_) => None,
        None => Some((id, place)),
    }
}

/// The fields, if there are just four.
pub(crate) fn four<'a>(fields: Fields<'a>) -> Option<(&'a [u8], &'a [u8], &'a [u8], &'a [u8])>
    ensures { MatchOption result (four_of (fields_left fields.entry) ≡ None)
        (λ four. four_of (fields_left fields.entry)
        ≡ Some (four.0.now, four.1.now, four.2.now, four.3.now)) }
{
    let mut rest = fields;
    let first = rest.next()?;
    let second = rest.next()?;
    let third = rest.next()?;
    let fourth = rest.next()?;
    match rest.next() {
        Some(_) => None,
        None => Some((first, second, third, fourth)),
    }
}
