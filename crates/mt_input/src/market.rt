ghost use Rattle.std.specs.Prelude.{◌≡◌, ◌+◌, ◌<◌, ◌≤◌, ◌↔◌, length, IfErr, IfOk, Ok};
ghost use Rattle.mt_lists.specs.Tap.{bytes_left, failures_of, reads_of};
ghost use Rattle.mt_terms.specs.Registration.{market_of};
ghost use Rattle.mt_terms.specs.declared.codes.TheConstants.{READ_FAULT};
ghost use Rattle.mt_input.specs.Files.{IsMarketOf, market_in, most_bytes};
ghost use Rattle.mt_input.specs.Left.{OfLeft, TakesFile};
ghost use Rattle.mt_input.specs.Refusals.{IsRefusalIn, IsRefusalOf, code_of};

use crate::bytes::bytes_of;
use mt_lists::{ListFault, Rows, Tap, records};
use mt_roster::{Roster, RosterError, roster};
use mt_terms::Refusal;
use mt_terms::codes::{OUT_OF_MEMORY, TWO_MARKS};
use std::alloc::Global;
use std::io::Read;
use std::thread::Threads;

/// The roster of a market's records, or the market's refusal.
fn roster_or_refusal<T: Threads + Sync>(
    rt: &T,
    alloc: Global,
    rows: &Rows<'_>,
) -> Result<Roster, Refusal>
    ensures market { IfOk result (λ roster. market_of rows.now ≡ Ok roster) }
    ensures refused { IfErr result (IsRefusalIn (market_of rows.now)) }
{
    match roster(rt, alloc, rows) {
        Ok(roster) => Ok(roster),
        Err(RosterError::Fault(fault)) => Err(fault),
        Err(RosterError::Memory) => Err(Refusal::alone(OUT_OF_MEMORY)),
    }
}

/// The market in the bytes of a file, which are no more than a file may have. The error is the file's first fault, or
/// want of memory.
pub fn market_in<T: Threads + Sync>(rt: &T, alloc: Global, bytes: &[u8]) -> Result<Roster, Refusal>
    requires { length bytes.now ≤ most_bytes }
    ensures market { IfOk result (IsMarketOf bytes.now) }
    ensures refused { IfErr result (IsRefusalIn (market_in bytes.now)) }
{
    match records(alloc, bytes) {
        Ok(rows) => roster_or_refusal(rt, alloc, &rows),
        Err(ListFault::TwoMarks) => Err(Refusal::alone(TWO_MARKS)),
        Err(ListFault::Memory) => Err(Refusal::alone(OUT_OF_MEMORY)),
    }
}

/// The market that a reader gives. The error is the first fault of its bytes, a failed read or want of memory. The
/// bytes are freed once the roster is complete.
pub fn read_market<T: Threads + Sync, R: Read>(
    rt: &T,
    alloc: Global,
    tap: &mut Tap<R>,
) -> Result<Roster, Refusal>
    requires { reads_of tap.old + most_bytes < u64.MAX }
    ensures market { IfOk result (λ roster. OfLeft (bytes_left R.remaining tap.old)
        (λ bytes. IsMarketOf bytes roster)) }
    ensures refused { IfErr result (IsRefusalOf (bytes_left R.remaining tap.old) market_in) }
    ensures fault { (code_of result ≡ READ_FAULT) ↔ (failures_of tap.old < failures_of tap.new) }
    ensures tap { TakesFile R.remaining tap.old tap.new }
{
    match bytes_of(alloc, tap) {
        Ok(bytes) => market_in(rt, alloc, &bytes),
        Err(refusal) => Err(refusal),
    }
}
