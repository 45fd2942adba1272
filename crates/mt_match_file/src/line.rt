ghost use Rattle.std.specs.Prelude.{◌≡◌, ◌&&◌, ◌||◌, bytes_eq, codes, slice_index_or, Some, None};
ghost use Rattle.mt_lists.specs.Rows.{fields_left};
ghost use Rattle.mt_match_file.specs.Submitted.{applicant_line, aside_at, aside_line, counts_at, four_of, head_line, is_number, line_of, one_of, placed_at, placed_of, program_line, totals_line, two_of};
ghost use Rattle.mt_match_file.specs.View.{line_seen, market_of, read_so_far};

use crate::codes::{
    ASIDE_TWICE, NO_SUCH_APPLICANT, NO_SUCH_COUPLE, NO_SUCH_PROGRAM, OTHER_FIELDS, OTHER_RECORD,
    PLACED_TWICE,
};
use crate::fault::RecordFault;
use crate::fields::{four, id_and_place, is_number, number, one, two};
use crate::ids::Ids;
use crate::so_far::SoFar;
use crate::submitted_match::Count;
use mt_lists::Fields;
use mt_terms::{AppNo, CoupleNo, ProgNo};

/// What a record of a match says.
#[derive(Clone, Copy)]
pub(crate) enum Line {
    /// That a match follows.
    Head,
    /// An applicant's place.
    Place(AppNo, Option<ProgNo>),
    /// Counts of a program, or of all.
    Counts(Count),
    /// That a couple is set aside.
    Aside(CoupleNo),
}

/// Whether a field is the version of a match's text.
fn is_version(field: &[u8]) -> bool
    ensures { result ≡ (bytes_eq field.now (codes "1") || bytes_eq field.now (codes "2")) }
{
    field == b"1".as_slice() || field == b"2".as_slice()
}

/// The record that says that a match follows, by the fields after its first.
fn head_line<'a>(fields: Fields<'a>) -> Result<Line, RecordFault<'a>>
    ensures { line_seen result ≡ head_line (two_of (fields_left fields.entry)) }
{
    match two(fields) {
        Some((version, word)) if is_version(version) && word == b"published".as_slice() => {
            Ok(Line::Head)
        }
        _ => Err(RecordFault::alone(OTHER_FIELDS)),
    }
}

/// The place of an applicant, by the fields after its first.
fn applicant_line<'a>(
    ids: &Ids<'_>,
    places: &[Option<Option<ProgNo>>],
    fields: Fields<'a>,
) -> Result<Line, RecordFault<'a>>
    ensures { line_seen result ≡ applicant_line (market_of ids.now).names places.now
        (placed_of (fields_left fields.entry)) }
{
    let Some((id, field)) = id_and_place(fields) else {
        return Err(RecordFault::alone(OTHER_FIELDS));
    };
    let Some(applicant) = ids.applicant(id) else {
        return Err(RecordFault::of(NO_SUCH_APPLICANT, id));
    };
    if places.get(applicant.index()).copied().flatten().is_some() {
        return Err(RecordFault::of(PLACED_TWICE, id));
    }
    match ids.place(field) {
        Some(place) => Ok(Line::Place(applicant, place)),
        None => Err(RecordFault::of(NO_SUCH_PROGRAM, field)),
    }
}

/// The counts of a program, by the fields after its first.
fn program_line<'a>(ids: &Ids<'_>, fields: Fields<'a>) -> Result<Line, RecordFault<'a>>
    ensures { line_seen result ≡ program_line (market_of ids.now).names
        (four_of (fields_left fields.entry)) }
{
    let Some((id, quota, filled, received)) = four(fields) else {
        return Err(RecordFault::alone(OTHER_FIELDS));
    };
    if !(is_number(quota) && is_number(filled) && is_number(received)) {
        return Err(RecordFault::alone(OTHER_FIELDS));
    }
    match ids.program(id) {
        Some(program) => Ok(Line::Counts(Count::Program {
            program,
            quota: number(quota),
            filled: number(filled),
        })),
        None => Err(RecordFault::of(NO_SUCH_PROGRAM, id)),
    }
}

/// The totals, by the fields after their first.
fn totals_line<'a>(fields: Fields<'a>) -> Result<Line, RecordFault<'a>>
    ensures { line_seen result ≡ totals_line (four_of (fields_left fields.entry)) }
{
    let Some((applicants, unmatched, positions, unfilled)) = four(fields) else {
        return Err(RecordFault::alone(OTHER_FIELDS));
    };
    let are_people = is_number(applicants) && is_number(unmatched);
    if are_people && is_number(positions) && is_number(unfilled) {
        Ok(Line::Counts(Count::Totals {
            applicants: number(applicants),
            unmatched: number(unmatched),
            positions: number(positions),
            unfilled: number(unfilled),
        }))
    } else {
        Err(RecordFault::alone(OTHER_FIELDS))
    }
}

/// The couple that is set aside, by the fields after the first.
fn aside_line<'a>(
    ids: &Ids<'_>,
    so_far: &SoFar,
    fields: Fields<'a>,
) -> Result<Line, RecordFault<'a>>
    ensures { line_seen result ≡ aside_line (market_of ids.now).names
        (read_so_far so_far.now).aside (one_of (fields_left fields.entry)) }
{
    let Some(id) = one(fields) else {
        return Err(RecordFault::alone(OTHER_FIELDS));
    };
    let Some(couple) = ids.couple(id) else {
        return Err(RecordFault::of(NO_SUCH_COUPLE, id));
    };
    if so_far.aside.has(couple) {
        return Err(RecordFault::of(ASIDE_TWICE, id));
    }
    Ok(Line::Aside(couple))
}

/// What a record says after others, or its first fault.
pub(crate) fn line_of<'a>(
    ids: &Ids<'_>,
    so_far: &SoFar,
    fields: Fields<'a>,
) -> Result<Line, RecordFault<'a>>
    ensures { line_seen result ≡ line_of (market_of ids.now).names (read_so_far so_far.now)
        (fields_left fields.entry) }
{
    let mut rest = fields;
    let Some(word) = rest.next() else {
        return Err(RecordFault::alone(OTHER_RECORD));
    };
    if word == b"applicant".as_slice() {
        applicant_line(ids, &so_far.places, rest)
    } else if word == b"program".as_slice() {
        program_line(ids, rest)
    } else if word == b"totals".as_slice() {
        totals_line(rest)
    } else if word == b"match".as_slice() {
        head_line(rest)
    } else if word == b"aside".as_slice() {
        aside_line(ids, so_far, rest)
    } else {
        Err(RecordFault::alone(OTHER_RECORD))
    }
}
