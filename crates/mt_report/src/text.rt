ghost use Rattle.std.specs.Prelude.{◌≡◌, ◌+◌, ◌*◌, ◌<◌, ◌++◌, length, codes, decimal, None, IfOk, OnOk};
ghost use Rattle.mt_terms.specs.Matching.{filled_counts, place_of};
ghost use Rattle.mt_terms.specs.Text.{applicant_lines, counts_line, place_line, place_text, program_lines, published as published_text, sums_line, totals_line};
ghost use Rattle.mt_terms.specs.Places.{ArePlaces};

use crate::counts::{filled_counts, filled_total, position_count, unmatched_count};
use itoa::Buffer;
use mt_market::Roster;
use mt_terms::{AppNo, Match, ProgNo};
use std::alloc::{AllocError, Global};

/// As many bytes as the line of an applicant or a program takes at most if ids are short.
const LINE_LEN: usize = 32;

/// Adds a few bytes. For these a loop takes less time than the call that copies a slice.
#[inline(always)]
fn push_bytes(text: &mut Vec<u8>, bytes: &[u8]) -> Result<(), AllocError>
    ensures { OnOk result (text.new.items ≡ text.old.items ++ bytes.now) }
{
    text.reserve(bytes.len())?;
    for byte in bytes {
        text.push_reserved(*byte);
    }
    Ok(())
}

/// Adds a comma and a number.
fn push_number(text: &mut Vec<u8>, number: u64) -> Result<(), AllocError>
    ensures ok { OnOk result (text.new.items ≡ text.old.items ++ codes "," ++ decimal number) }
{
    let mut digits = Buffer::new();
    text.push(b',')?;
    push_bytes(text, digits.format(number).as_bytes())
}

/// Adds the line of an applicant.
fn push_applicant(text: &mut Vec<u8>, id: &[u8], place: &[u8]) -> Result<(), AllocError>
    ensures ok { OnOk result (text.new.items ≡ text.old.items ++ place_line id.now place.now) }
{
    push_bytes(text, b"applicant,")?;
    push_bytes(text, id)?;
    text.push(b',')?;
    push_bytes(text, place)?;
    text.push(b'\n')?;
    Ok(())
}

/// Adds the line of a program.
fn push_program(
    text: &mut Vec<u8>,
    id: &[u8],
    quota: u32,
    filled: u32,
    received: u32,
) -> Result<(), AllocError>
    ensures ok { OnOk result (text.new.items
        ≡ text.old.items ++ counts_line id.now quota filled received) }
{
    push_bytes(text, b"program,")?;
    push_bytes(text, id)?;
    push_number(text, u64::from(quota))?;
    push_number(text, u64::from(filled))?;
    push_number(text, u64::from(received))?;
    text.push(b'\n')?;
    Ok(())
}

/// The id of a place, or `-`.
fn place_id<'a>(roster: &'a Roster, matched: &Match, applicant: AppNo) -> &'a [u8]
    requires { ArePlaces roster.now.market matched.now.places }
    ensures { result.now ≡ place_text roster.now.names (place_of matched.now.places applicant) }
{
    match matched.place(applicant) {
        Some(program) => roster.program_id(program),
        None => b"-",
    }
}

/// Adds the lines of all applicants.
pub(crate) fn push_applicants(
    text: &mut Vec<u8>,
    roster: &Roster,
    matched: &Match,
) -> Result<(), AllocError>
    requires { ArePlaces roster.now.market matched.now.places }
    ensures ok { OnOk result (text.new.items
        ≡ text.old.items ++ applicant_lines roster.now.market roster.now.names matched.now.places) }
{
    for number in 0..roster.applicants() {
        let applicant = AppNo(number);
        let place = place_id(roster, matched, applicant);
        push_applicant(text, roster.applicant_id(applicant), place)?;
    }
    Ok(())
}

/// Adds the lines of all programs, with how many are placed at each and how many proposals each received.
pub(crate) fn push_programs(
    text: &mut Vec<u8>,
    roster: &Roster,
    matched: &Match,
    counts: &[u32],
    received: &[u32],
) -> Result<(), AllocError>
    requires counts { counts.now ≡ filled_counts roster.now.market matched.now.places }
    requires received { length received.now ≡ length roster.now.market.programs }
    ensures ok { OnOk result (text.new.items ≡ text.old.items
        ++ program_lines roster.now.market roster.now.names matched.now.places received.now) }
{
    for number in 0..roster.programs() {
        let program = ProgNo(number);
        let at = program.index();
        push_program(
            text,
            roster.program_id(program),
            roster.quota(program),
            counts[at],
            received[at],
        )?;
    }
    Ok(())
}

/// Adds the line of these totals.
fn push_numbers(
    text: &mut Vec<u8>,
    applicants: u32,
    unmatched: u32,
    positions: u64,
    unfilled: u64,
) -> Result<(), AllocError>
    ensures ok { OnOk result (text.new.items
        ≡ text.old.items ++ sums_line applicants unmatched positions unfilled) }
{
    text.extend_from_slice(b"totals")?;
    push_number(text, u64::from(applicants))?;
    push_number(text, u64::from(unmatched))?;
    push_number(text, positions)?;
    push_number(text, unfilled)?;
    text.push(b'\n')?;
    Ok(())
}

/// Adds the line of the totals.
pub(crate) fn push_totals(
    text: &mut Vec<u8>,
    roster: &Roster,
    matched: &Match,
    counts: &[u32],
) -> Result<(), AllocError>
    requires places { ArePlaces roster.now.market matched.now.places }
    requires counts { counts.now ≡ filled_counts roster.now.market matched.now.places }
    ensures ok { OnOk result (text.new.items
        ≡ text.old.items ++ totals_line roster.now.market matched.now.places) }
{
    let applicants = roster.applicants();
    let unmatched = unmatched_count(matched.places.as_slice());
    let positions = position_count(roster);
    let unfilled = positions.saturating_sub(filled_total(counts));
    push_numbers(text, applicants, unmatched, positions, unfilled)
}

/// How much room a text is given at once, for its lines of applicants and programs. A longer one takes more as it
/// grows.
fn likely_len(roster: &Roster) -> usize {
    (roster.applicants() as usize + roster.programs() as usize) * LINE_LEN
}

/// A text of this line so far, with room for the others.
pub(crate) fn text_of(alloc: Global, roster: &Roster, head: &[u8]) -> Result<Vec<u8>, AllocError>
    ensures { IfOk result (λ v. v.items ≡ head.now) }
{
    let mut text = Vec::with_capacity(alloc, likely_len(roster))?;
    text.extend_from_slice(head)?;
    Ok(text)
}

/// The text of a match: every applicant with its place, every program, and the totals. A program has how many are
/// placed there and how many proposals of singles it received. There is one place for each applicant, each of them a
/// program of the roster, and one number of proposals for each program. The error is want of memory.
pub fn published(
    alloc: Global,
    roster: &Roster,
    matched: &Match,
    received: &[u32],
) -> Result<Vec<u8>, AllocError>
    requires places { ArePlaces roster.now.market matched.now.places }
    requires received { length received.now ≡ length roster.now.market.programs }
    ensures { IfOk result (λ v. v.items
        ≡ published_text roster.now.market roster.now.names matched.now.places received.now) }
{
    let counts = filled_counts(alloc, roster.programs() as usize, matched.places.as_slice())?;
    let mut text = text_of(alloc, roster, b"match,1,published\n")?;
    push_applicants(&mut text, roster, matched)?;
    push_programs(&mut text, roster, matched, &counts, received)?;
    push_totals(&mut text, roster, matched, &counts)?;
    Ok(text)
}
