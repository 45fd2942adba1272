//! The readers of a roster and of a match, for any number. For a number that nobody has they give nothing.
use mt_roster::Roster;
use mt_terms::{Agent, AppNo, CoupleNo, ProgNo};

/// How many posts the program has.
pub(crate) fn posts(roster: &Roster, program: ProgNo) -> u32 {
    if program.0 < roster.programs() {
        roster.quota(program)
    } else {
        0
    }
}

/// The program's list.
pub(crate) fn ranking(roster: &Roster, program: ProgNo) -> &[AppNo] {
    if program.0 < roster.programs() {
        roster.program_list(program)
    } else {
        &[]
    }
}

/// The single's list.
pub(super) fn wishes(roster: &Roster, applicant: AppNo) -> &[ProgNo] {
    if applicant.0 < roster.applicants() {
        roster.single_list(applicant)
    } else {
        &[]
    }
}

/// The couple's list.
pub(super) fn pairs(roster: &Roster, couple: CoupleNo) -> &[(Option<ProgNo>, Option<ProgNo>)] {
    if couple.0 < roster.couples() {
        roster.couple_list(couple)
    } else {
        &[]
    }
}

pub(super) fn members(roster: &Roster, couple: CoupleNo) -> Option<(AppNo, AppNo)> {
    if couple.0 < roster.couples() {
        Some(roster.members(couple))
    } else {
        None
    }
}

pub(super) fn agent_of(roster: &Roster, applicant: AppNo) -> Agent {
    if applicant.0 < roster.applicants() {
        roster.agent_of(applicant)
    } else {
        Agent::Single(applicant)
    }
}

/// Where the applicant is.
pub(super) fn place_of(places: &[Option<ProgNo>], applicant: AppNo) -> Option<ProgNo> {
    places.get(applicant.index()).copied().flatten()
}
