ghost use Rattle.std.specs.Prelude.{◌≡◌, ◌⊎◌, ◌+◌, ◌<◌, ◌≤◌, ◌-◌, ◌↔◌, length, IfErr, IfOk, Ok};
ghost use Rattle.mt_lists.specs.Tap.{bytes_left, failures_of, reads_of};
ghost use Rattle.mt_terms.specs.Places.{ArePlaces};
ghost use Rattle.mt_terms.specs.declared.codes.TheConstants.{READ_FAULT};
ghost use Rattle.mt_match_file.specs.Submitted.{submitted_by};
ghost use Rattle.mt_input.specs.Files.{IsMarketOf, most_bytes};
ghost use Rattle.mt_input.specs.Left.{OfLeft, TakesFile};
ghost use Rattle.mt_input.specs.Refusals.{IsRefusalIn, IsRefusalOf, code_of};
ghost use Rattle.mt_files.specs.Files.{submitted_in};
ghost use Rattle.mt_files.specs.Refusals.{AreFilesIn, IsInTurn, IsRefused, end_code};

use crate::refused_file::Refused;
use crate::source::Source;
use mt_input::{bytes_of, read_market};
use mt_lists::{ListFault, Rows, Tap, records};
use mt_market::Roster;
use mt_match_file::{MatchError, SubmittedMatch, read_match};
use mt_terms::Refusal;
use mt_terms::codes::{OUT_OF_MEMORY, TWO_MARKS};
use std::alloc::Global;
use std::io::Read;
use std::thread::Threads;

/// A market, and a match of its applicants.
#[derive(Drop)]
pub struct Files {
    /// The market.
    pub roster: Roster,
    /// The match.
    pub submitted: SubmittedMatch,
}

/// The match that records give, or its refusal.
fn match_of(alloc: Global, rows: &Rows<'_>, roster: &Roster) -> Result<SubmittedMatch, Refusal>
    ensures submitted { IfOk result (λ submitted. submitted_by roster.now rows.now ≡ Ok submitted) }
    ensures places { IfOk result (λ submitted. ArePlaces roster.now.market submitted.places) }
    ensures refused { IfErr result (IsRefusalIn (submitted_by roster.now rows.now)) }
{
    match read_match(alloc, rows, roster) {
        Ok(submitted) => Ok(submitted),
        Err(MatchError::Fault(fault)) => Err(fault),
        Err(MatchError::Memory) => Err(Refusal::alone(OUT_OF_MEMORY)),
    }
}

/// The match in some bytes, or its refusal.
fn submitted_in(alloc: Global, bytes: &[u8], roster: &Roster) -> Result<SubmittedMatch, Refusal>
    requires { length bytes.now ≤ most_bytes }
    ensures submitted { IfOk result (λ submitted. submitted_in roster.now bytes.now
        ≡ Ok submitted) }
    ensures places { IfOk result (λ submitted. ArePlaces roster.now.market submitted.places) }
    ensures refused { IfErr result (IsRefusalIn (submitted_in roster.now bytes.now)) }
{
    match records(alloc, bytes) {
        Ok(rows) => match_of(alloc, &rows, roster),
        Err(ListFault::TwoMarks) => Err(Refusal::alone(TWO_MARKS)),
        Err(ListFault::Memory) => Err(Refusal::alone(OUT_OF_MEMORY)),
    }
}

/// The match that a reader gives, or its refusal. The bytes are freed once the match is read.
fn read_submitted<S: Read>(
    alloc: Global,
    tap: &mut Tap<S>,
    roster: &Roster,
) -> Result<SubmittedMatch, Refusal>
    requires { reads_of tap.old + most_bytes < u64.MAX }
    ensures submitted { IfOk result (λ submitted. OfLeft (bytes_left S.remaining tap.old)
        (λ bytes. submitted_in roster.now bytes ≡ Ok submitted)) }
    ensures places { IfOk result (λ submitted. ArePlaces roster.now.market submitted.places) }
    ensures refused { IfErr result (IsRefusalOf (bytes_left S.remaining tap.old)
        (submitted_in roster.now)) }
    ensures fault { (code_of result ≡ READ_FAULT) ↔ (failures_of tap.old < failures_of tap.new) }
    ensures tap { TakesFile S.remaining tap.old tap.new }
{
    match bytes_of(alloc, tap) {
        Ok(bytes) => submitted_in(alloc, &bytes, roster),
        Err(refusal) => Err(refusal),
    }
}

/// A market with the match that a reader gives, or the refusal of the match.
fn with_match<S: Read>(alloc: Global, roster: Roster, tap: &mut Tap<S>) -> Result<Files, Refused>
    requires { reads_of tap.old + most_bytes < u64.MAX }
    ensures roster { IfOk result (λ files. files.roster ≡ roster) }
    ensures submitted { IfOk result (λ files. OfLeft (bytes_left S.remaining tap.old)
        (λ bytes. submitted_in roster bytes ≡ Ok files.submitted)) }
    ensures places { IfOk result (λ files. ArePlaces roster.market files.submitted.places) }
    ensures source { IfErr result (λ e. e.source ≡ Source.Match) }
    ensures refused { IfErr result (λ e. IsRefusalOf (bytes_left S.remaining tap.old)
        (submitted_in roster) e.refusal) }
    ensures fault { (end_code result ≡ READ_FAULT) ↔ (failures_of tap.old < failures_of tap.new) }
    ensures tap { TakesFile S.remaining tap.old tap.new }
{
    match read_submitted(alloc, tap, &roster) {
        Ok(submitted) => Ok(Files { roster, submitted }),
        Err(refusal) => Err(Refused {
            source: Source::Match,
            refusal,
        }),
    }
}

/// The market and the match that two readers give. The market is read first, and one that is refused leaves the match
/// unread. The error names the file that is refused, and its first fault, a failed read or want of memory.
pub fn read_files<T: Threads + Sync, R: Read, S: Read>(
    rt: &T,
    alloc: Global,
    market: &mut Tap<R>,
    matched: &mut Tap<S>,
) -> Result<Files, Refused>
    requires market { reads_of market.old + most_bytes < u64.MAX }
    requires matched { reads_of matched.old + most_bytes < u64.MAX }
    ensures files { IfOk result (AreFilesIn (bytes_left R.remaining market.old)
        (bytes_left S.remaining matched.old)) }
    ensures places { IfOk result (λ files. ArePlaces files.roster.market files.submitted.places) }
    ensures refused { IfErr result (IsRefused (bytes_left R.remaining market.old)
        (bytes_left S.remaining matched.old)) }
    ensures in_turn { IfErr result (λ e. IsInTurn (bytes_left R.remaining market.old)
        (reads_of matched.new - reads_of matched.old) e.source) }
    ensures fault { (end_code result ≡ READ_FAULT)
        ↔ ((failures_of market.old < failures_of market.new)
        ⊎ (failures_of matched.old < failures_of matched.new)) }
    ensures market_tap { TakesFile R.remaining market.old market.new }
    ensures match_tap { TakesFile S.remaining matched.old matched.new }
{
    match read_market(rt, alloc, market) {
        Ok(roster) => with_match(alloc, roster, matched),
        Err(refusal) => Err(Refused {
            source: Source::Market,
            refusal,
        }),
    }
}
