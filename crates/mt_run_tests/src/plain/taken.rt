//! Which options are better, and would be taken.
use super::market::{members, pairs, place_of, posts, ranking, wishes};
use mt_roster::Roster;
use mt_terms::{Agent, AppNo, CoupleNo, ProgNo};

// Where the applicant is once some are sent to other places.
fn place_after(
    places: &[Option<ProgNo>],
    sent: &[(AppNo, Option<ProgNo>)],
    applicant: AppNo,
) -> Option<ProgNo> {
    for (member, place) in sent {
        if member.0 == applicant.0 {
            return *place;
        }
    }
    place_of(places, applicant)
}

// Whether the applicant's new place is none, or its program would choose it with all of them sent there.
fn is_taken(
    roster: &Roster,
    places: &[Option<ProgNo>],
    sent: &[(AppNo, Option<ProgNo>)],
    applicant: AppNo,
    place: Option<ProgNo>,
) -> bool {
    let Some(program) = place else {
        return true;
    };
    let mut above = 0u32;
    for listed in ranking(roster, program) {
        if listed.0 == applicant.0 {
            return above < posts(roster, program);
        }
        if place_after(places, sent, *listed) == Some(program) {
            above = above.saturating_add(1);
        }
    }
    false
}

fn first_program(roster: &Roster, places: &[Option<ProgNo>], applicant: AppNo) -> Option<u32> {
    let mut option = 0u32;
    for program in wishes(roster, applicant) {
        let place = Some(*program);
        if place_of(places, applicant) == place {
            return None;
        }
        if is_taken(roster, places, &[(applicant, place)], applicant, place) {
            return Some(option);
        }
        option = option.saturating_add(1);
    }
    None
}

fn first_pair(roster: &Roster, places: &[Option<ProgNo>], couple: CoupleNo) -> Option<u32> {
    let (first, second) = members(roster, couple)?;
    let present = (place_of(places, first), place_of(places, second));
    let mut option = 0u32;
    for pair in pairs(roster, couple) {
        if present == *pair {
            return None;
        }
        let sent = [(first, pair.0), (second, pair.1)];
        if is_taken(roster, places, &sent, first, pair.0)
            && is_taken(roster, places, &sent, second, pair.1)
        {
            return Some(option);
        }
        option = option.saturating_add(1);
    }
    None
}

/// The position on the agent's list of its first better option that would be taken.
pub(super) fn first_taken(
    roster: &Roster,
    places: &[Option<ProgNo>],
    agent: &Agent,
) -> Option<u32> {
    match agent {
        Agent::Single(single) => first_program(roster, places, *single),
        Agent::Couple(couple) => first_pair(roster, places, *couple),
    }
}
