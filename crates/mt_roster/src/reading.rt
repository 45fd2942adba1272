ghost use Rattle.std.specs.Prelude.{◌≡◌, ◌+◌, ◌<◌, ◌^◌, length, IfErr, IfOk, Ok};
ghost use Rattle.std.specs.Result.{result_ok};
ghost use Rattle.mt_lists.specs.Rows.{rows_left};
ghost use Rattle.mt_terms.specs.Registration.{market_of, market_under};
ghost use Rattle.mt_terms.specs.Registration.Passes.{numbered_from};
ghost use Rattle.mt_drafts.specs.Drafts.{with_fields};
ghost use Rattle.mt_numbering.specs.Markets.{AcceptsRegistrations};
ghost use Rattle.mt_roster.specs.Faults.{Tells};
ghost use Rattle.mt_records.specs.Refusals.{Gives};
ghost use Rattle.mt_records.specs.Limits.{AreBounded};
ghost use Rattle.mt_roster.specs.Read.{NamesNoVersion, same};

use crate::fault::{RosterError, error_of};
use mt_lists::Rows;
use mt_market::Roster;
use mt_numbering::faultless_market;
use mt_passes::first_fault;
use mt_records::{Body, Fault, FirstFault, body_of};
use mt_terms::codes::NO_VERSION;
use std::alloc::{AllocError, Global};
use std::thread::Threads;

/// A refusal because no version is named, at this record.
fn no_version<'a>(row: u64) -> FirstFault<'a>
    ensures { NamesNoVersion result row }
{
    FirstFault::Fault(Fault {
        code: NO_VERSION,
        row,
        id: b"",
    })
}

/// The market of what follows the record that names a version, or its first fault.
fn read_body<'a, R: Threads + Sync>(
    rt: &R,
    alloc: Global,
    body: &Body<'a>,
) -> Result<Roster, FirstFault<'a>>
    requires limits { AreBounded body.now.rules.limits }
    requires short { body.now.first + length (rows_left body.now.rows) < 2 ^ 64 }
    requires accepted { AcceptsRegistrations body.now.rules (with_fields (rows_left body.now.rows)) }
    ensures { Gives same result (market_under body.now.rules (numbered_from body.now.first (rows_left body.now.rows))) }
{
    match faultless_market(rt, alloc, &body.rules, body.rows)? {
        Some(roster) => Ok(roster),
        None => Err(first_fault(alloc, &body.rules, body.rows, body.first)),
    }
}

/// The market of a file's records, or its first fault.
fn read<'a, R: Threads + Sync>(
    rt: &R,
    alloc: Global,
    rows: &'a Rows<'_>,
) -> Result<Roster, FirstFault<'a>>
    ensures { Gives same result (market_of rows.now) }
{
    match body_of(rows) {
        Ok(body) => read_body(rt, alloc, &body),
        Err(number) => Err(no_version(number)),
    }
}

/// The roster of a file's records: the market that they are. The error is their first fault, or want of memory. A
/// record is a list of fields without its trailing empty ones. Records are counted from 1, and one without a field is
/// passed over.
pub fn roster<R: Threads + Sync>(
    rt: &R,
    alloc: Global,
    rows: &Rows<'_>,
) -> Result<Roster, RosterError>
    ensures market { IfOk result (λ roster. market_of rows.now ≡ Ok roster) }
    ensures fault { IfErr result (λ error. Tells error (market_of rows.now)) }
{
    match read(rt, alloc, rows) {
        Ok(roster) => Ok(roster),
        Err(refusal) => Err(error_of(&refusal)),
    }
}

/// The market of a file's records, if they have no fault. The error is want of memory. Records are as those of
/// `roster`, which finds the first fault too and takes longer if there is one.
pub fn faultless_roster<R: Threads + Sync>(
    rt: &R,
    alloc: Global,
    rows: &Rows<'_>,
) -> Result<Option<Roster>, AllocError>
    ensures { IfOk result (λ found. found ≡ result_ok (market_of rows.now)) }
{
    match body_of(rows) {
        Ok(body) => faultless_market(rt, alloc, &body.rules, body.rows),
        Err(_) => Ok(None),
    }
}
