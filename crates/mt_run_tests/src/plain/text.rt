//! The text of a match. If memory is refused, the text lacks a part.
ghost use Rattle.std.specs.Prelude.{◌<◌, length};
ghost use Rattle.mt_terms.specs.Market.{applicants};

use super::market::{place_of, wishes};
use super::tables::plain_rank;
use mt_roster::Roster;
use mt_terms::{AppNo, ProgNo};
use std::alloc::Global;

// An id, whose bytes are ASCII.
fn add_id(text: &mut String, id: &[u8]) {
    for byte in id {
        let _ = text.push(char::from(*byte));
    }
}

// Whether the single proposed to the program on its way to the best match.
fn has_proposed(
    roster: &Roster,
    singles: &[Option<ProgNo>],
    program: ProgNo,
    applicant: AppNo,
) -> bool {
    for wish in wishes(roster, applicant) {
        if *wish == program {
            return plain_rank(roster, program, applicant).is_some();
        }
        if place_of(singles, applicant) == Some(*wish) {
            return false;
        }
    }
    false
}

fn proposals(roster: &Roster, singles: &[Option<ProgNo>], program: ProgNo) -> u32 {
    let mut count = 0u32;
    for number in 0..roster.applicants() {
        if has_proposed(roster, singles, program, AppNo(number)) {
            count = count.saturating_add(1);
        }
    }
    count
}

fn placed_at(roster: &Roster, places: &[Option<ProgNo>], place: Option<ProgNo>) -> u32 {
    let mut count = 0u32;
    for number in 0..roster.applicants() {
        if place_of(places, AppNo(number)) == place {
            count = count.saturating_add(1);
        }
    }
    count
}

fn add_applicant(text: &mut String, roster: &Roster, places: &[Option<ProgNo>], applicant: AppNo)
    requires { applicant < applicants roster.now.market }
{
    let _ = text.push_str("applicant,");
    add_id(text, roster.applicant_id(applicant));
    let _ = text.push_str(",");
    match place_of(places, applicant) {
        Some(program) if program.0 < roster.programs() => {
            add_id(text, roster.program_id(program));
        }
        _ => {
            let _ = text.push_str("-");
        }
    }
    let _ = text.push_str("\n");
}

fn add_program(
    text: &mut String,
    roster: &Roster,
    singles: &[Option<ProgNo>],
    places: &[Option<ProgNo>],
    program: ProgNo,
)
    requires { program < length roster.now.market.programs }
{
    let _ = text.push_str("program,");
    add_id(text, roster.program_id(program));
    let quota = roster.quota(program);
    let filled = placed_at(roster, places, Some(program));
    let proposals = proposals(roster, singles, program);
    let _ = write!(text, ",{quota},{filled},{proposals}\n");
}

fn positions(roster: &Roster) -> u32 {
    let mut sum = 0u32;
    for number in 0..roster.programs() {
        sum = sum.saturating_add(roster.quota(ProgNo(number)));
    }
    sum
}

fn add_totals(text: &mut String, roster: &Roster, places: &[Option<ProgNo>]) {
    let applicants = roster.applicants();
    let unmatched = placed_at(roster, places, None);
    let positions = positions(roster);
    let unfilled = positions.saturating_sub(applicants.saturating_sub(unmatched));
    let _ = write!(
        text,
        "totals,{applicants},{unmatched},{positions},{unfilled}\n"
    );
}

/// The text that is published for a match with these places, after this best match of the singles.
pub(crate) fn plain_text(
    alloc: Global,
    roster: &Roster,
    singles: &[Option<ProgNo>],
    places: &[Option<ProgNo>],
) -> String {
    let mut text = String::new(alloc);
    let _ = text.push_str("match,1,published\n");
    for number in 0..roster.applicants() {
        add_applicant(&mut text, roster, places, AppNo(number));
    }
    for number in 0..roster.programs() {
        add_program(&mut text, roster, singles, places, ProgNo(number));
    }
    add_totals(&mut text, roster, places);
    text
}
