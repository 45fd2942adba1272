//! Files of records by example: the whole market of each that is accepted, by its readers, or its first fault.
ghost use Rattle.std.specs.Prelude.{◌<◌, length};
ghost use Rattle.mt_terms.specs.Market.{applicants};

mod faults;
mod limits;
mod long_lists;
mod markets;
mod withdrawals;

use mt_lists::records;
use mt_roster::{Roster, RosterError, faultless_roster, roster};
use mt_samples::markets::{SampleError, roster_of};
use mt_terms::{Agent, AppNo, CoupleNo, ProgNo};
use std::alloc::Global;
use std::thread::Threads;

/// Adds to a text. If memory is refused, the text lacks that, and is not the one that is wanted.
fn add(text: &mut String, part: &str) {
    let _ = text.push_str(part);
}

/// Adds an id, whose bytes are ASCII.
fn add_id(text: &mut String, id: &[u8]) {
    for byte in id {
        let _ = text.push(char::from(*byte));
    }
}

/// Adds a blank and a number to a text.
fn add_number(text: &mut String, number: u32) {
    let _ = write!(text, " {number}");
}

/// Adds a blank and a program's number to a text, or `-` for none.
fn add_place(text: &mut String, place: Option<ProgNo>) {
    match place {
        Some(program) => add_number(text, program.0),
        None => add(text, " -"),
    }
}

/// Adds a program's line: `program ID QUOTA: APPLICANTS`.
fn add_program(text: &mut String, roster: &Roster, program: ProgNo)
    requires { program < length roster.now.market.programs }
{
    add(text, "program ");
    add_id(text, roster.program_id(program));
    add_number(text, roster.quota(program));
    add(text, ":");
    for applicant in roster.program_list(program) {
        add_number(text, applicant.0);
    }
    add(text, "\n");
}

/// Adds an applicant's line: `applicant ID single NUMBER: PROGRAMS`, or `applicant ID couple NUMBER:` for a member.
fn add_applicant(text: &mut String, roster: &Roster, applicant: AppNo)
    requires { applicant < applicants roster.now.market }
{
    let (kind, number) = match roster.agent_of(applicant) {
        Agent::Single(single) => (" single", single.0),
        Agent::Couple(couple) => (" couple", couple.0),
    };
    add(text, "applicant ");
    add_id(text, roster.applicant_id(applicant));
    add(text, kind);
    add_number(text, number);
    add(text, ":");
    for program in roster.single_list(applicant) {
        add_number(text, program.0);
    }
    add(text, "\n");
}

/// Adds a couple's line: `couple ID MEMBER MEMBER: PLACE PLACE, PLACE PLACE,`.
fn add_couple(text: &mut String, roster: &Roster, couple: CoupleNo)
    requires { couple < length roster.now.market.couples }
{
    let (first, second) = roster.members(couple);
    add(text, "couple ");
    add_id(text, roster.couple_id(couple));
    add_number(text, first.0);
    add_number(text, second.0);
    add(text, ":");
    for (first, second) in roster.couple_list(couple) {
        add_place(text, *first);
        add_place(text, *second);
        add(text, ",");
    }
    add(text, "\n");
}

/// Whether a roster is the one of this text: by all its readers, a line for each program, applicant and couple, by number.
fn shows(alloc: Global, roster: &Roster, market: &str) -> bool {
    let mut text = String::new(alloc);
    for number in 0..roster.programs() {
        add_program(&mut text, roster, ProgNo(number));
    }
    for number in 0..roster.applicants() {
        add_applicant(&mut text, roster, AppNo(number));
    }
    for number in 0..roster.couples() {
        add_couple(&mut text, roster, CoupleNo(number));
    }
    text.as_str() == market
}

/// Whether a file is accepted, and its market is the one of this text. Both readings of the records have to say so.
fn gives<R: Threads + Sync>(
    rt: &R,
    alloc: Global,
    file: &str,
    market: &str,
) -> Result<bool, SampleError> {
    let roster = roster_of(rt, alloc, file.as_bytes())?;
    let rows = records(alloc, file.as_bytes()).map_err(|_| SampleError::Fault)?;
    let Some(faultless) = faultless_roster(rt, alloc, &rows)? else {
        return Ok(false);
    };
    Ok(shows(alloc, &roster, market) && shows(alloc, &faultless, market))
}

/// A fault's code, the number of its record, and its id.
type Fault<'a> = (u16, u64, &'a str);

/// Whether an answer is a refusal for this fault.
fn is_refusal(answer: &Result<Roster, RosterError>, (code, row, id): Fault<'_>) -> bool {
    match answer {
        Err(RosterError::Fault(refusal)) => {
            refusal.code == code && refusal.row == row && refusal.id.as_bytes() == id.as_bytes()
        }
        Err(RosterError::Memory) | Ok(_) => false,
    }
}

/// Whether a file is refused for this fault, and has no market in the reading that names none.
fn is_refused<R: Threads + Sync>(rt: &R, alloc: Global, file: &str, fault: Fault<'_>) -> bool {
    match records(alloc, file.as_bytes()) {
        Ok(rows) => {
            is_refusal(&roster(rt, alloc, &rows), fault)
                && matches!(faultless_roster(rt, alloc, &rows), Ok(None))
        }
        Err(_) => false,
    }
}
