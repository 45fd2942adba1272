ghost use Rattle.std.specs.Prelude.{◌≡◌, ◌+◌, ◌<◌, ◌^◌, length, IfErr, IfOk, Ok, OnOk};
ghost use Rattle.mt_lists.specs.Rows.{fields_left, rows_left};
ghost use Rattle.mt_terms.specs.Market.{applicants};
ghost use Rattle.mt_terms.specs.Places.{ArePlaces};
ghost use Rattle.mt_terms.specs.Registration.Passes.{numbered_from};
ghost use Rattle.mt_order_laws.specs.Reordered.{IsOrderOfSome};
ghost use Rattle.mt_match_file.specs.Errors.{Tells};
ghost use Rattle.mt_match_file.specs.Reading.{Gives, GivesSoFar, HasRoomFor, Reads, ReadsRow};
ghost use Rattle.mt_match_file.specs.Submitted.{all_read, nothing_read, submitted_by};
ghost use Rattle.mt_match_file.specs.View.{market_of, read_so_far};

use crate::fault::MatchError;
use crate::ids::Ids;
use crate::line::line_of;
use crate::so_far::SoFar;
use crate::submitted_match::SubmittedMatch;
use mt_lists::{Fields, Row, Rows, RowsIter};
use mt_market::Roster;
use std::alloc::Global;

/// Adds what a record says.
fn read_fields(
    ids: &Ids<'_>,
    so_far: &mut SoFar,
    number: u64,
    fields: Fields<'_>,
) -> Result<(), MatchError>
    requires { HasRoomFor (market_of ids.now).market so_far.old }
    ensures reads { Reads (market_of ids.now).names (read_so_far so_far.old)
        (read_so_far so_far.new) (number, fields_left fields.entry) result }
    ensures room { OnOk result (HasRoomFor (market_of ids.now).market so_far.new) }
{
    match line_of(ids, so_far, fields) {
        Ok(line) => {
            so_far.add(number, line)?;
            Ok(())
        }
        Err(record_fault) => Err(record_fault.at(number)),
    }
}

/// Adds what a row says, if it has a field.
fn read_row(ids: &Ids<'_>, so_far: &mut SoFar, number: u64, row: &Row<'_>) -> Result<(), MatchError>
    requires { HasRoomFor (market_of ids.now).market so_far.old }
    ensures reads { ReadsRow (market_of ids.now).names (read_so_far so_far.old)
        (read_so_far so_far.new) number row.now result }
    ensures room { OnOk result (HasRoomFor (market_of ids.now).market so_far.new) }
{
    if row.is_empty() {
        return Ok(());
    }
    read_fields(ids, so_far, number, row.fields())
}

/// What all rows say.
fn read_rows(alloc: Global, ids: &Ids<'_>, rows: RowsIter<'_>) -> Result<SoFar, MatchError>
    requires { length (rows_left rows) + 1 < 2 ^ 64 }
    ensures reads { GivesSoFar result (all_read (market_of ids.now).names
        (nothing_read (applicants (market_of ids.now).market))
        (numbered_from 1 (rows_left rows.entry))) }
    ensures room { IfOk result (HasRoomFor (market_of ids.now).market) }
{
    let mut so_far = SoFar::new(alloc, ids.roster())?;
    let mut number = 1;
    for row in rows {
        read_row(ids, &mut so_far, number, &row)?;
        number += 1;
    }
    Ok(so_far)
}

/// The match that the records of a text say, whatever program wrote them: a place for each applicant of the market,
/// the counts, and the couples that are set aside. The error is their first fault, or want of memory. A record is a list of fields without its
/// trailing empty ones. Records are counted from 1, and one without a field is passed over.
pub fn read_match(
    alloc: Global,
    rows: &Rows<'_>,
    roster: &Roster,
) -> Result<SubmittedMatch, MatchError>
    ensures submitted { IfOk result (λ submitted. submitted_by roster.now rows.now ≡ Ok submitted) }
    ensures places { IfOk result (λ submitted. ArePlaces roster.now.market submitted.places) }
    ensures aside { IfOk result (λ submitted. IsOrderOfSome roster.now.market submitted.aside) }
    ensures fault { IfErr result (λ error. Tells error (submitted_by roster.now rows.now)) }
{
    let ids = Ids::of(alloc, roster)?;
    let so_far = read_rows(alloc, &ids, rows.iter())?;
    so_far.into_match(alloc, roster)
}
