//! The finding against a match.
use super::market::{agent_of, members, pairs, place_of, posts, ranking, wishes};
use super::tables::plain_rank;
use super::taken::first_taken;
use mt_roster::Roster;
use mt_terms::{Agent, AppNo, Blocker, ProgNo, Verdict};

// Whether the single's list lacks its place, or the couple's list its two places. A couple is reported at its lower
// number.
fn is_off_own_list(roster: &Roster, places: &[Option<ProgNo>], applicant: AppNo) -> bool {
    match agent_of(roster, applicant) {
        Agent::Single(single) => match place_of(places, single) {
            None => false,
            Some(program) => !wishes(roster, single).contains(&program),
        },
        Agent::Couple(couple) => {
            let Some((first, second)) = members(roster, couple) else {
                return true;
            };
            let present = (place_of(places, first), place_of(places, second));
            applicant.0 == first.0.min(second.0)
                && present != (None, None)
                && !pairs(roster, couple).contains(&present)
        }
    }
}

fn is_unlisted(roster: &Roster, places: &[Option<ProgNo>], applicant: AppNo) -> bool {
    let is_off_list = match place_of(places, applicant) {
        None => false,
        Some(program) => plain_rank(roster, program, applicant).is_none(),
    };
    is_off_list || is_off_own_list(roster, places, applicant)
}

// Nobody is unlisted here, so all who are placed at the program are on its list.
fn is_over(roster: &Roster, places: &[Option<ProgNo>], program: ProgNo) -> bool {
    let mut placed = 0u32;
    for listed in ranking(roster, program) {
        if place_of(places, *listed) == Some(program) {
            placed = placed.saturating_add(1);
        }
    }
    placed > posts(roster, program)
}

// The applicant is a single, or the first member of its couple.
fn blocker_led_by(roster: &Roster, places: &[Option<ProgNo>], applicant: AppNo) -> Option<Blocker> {
    let agent = agent_of(roster, applicant);
    if let Agent::Couple(couple) = &agent {
        if members(roster, *couple)?.0.0 != applicant.0 {
            return None;
        }
    }
    let option = first_taken(roster, places, &agent)?;
    Some(Blocker { agent, option })
}

/// The first finding against the match: by applicants, by programs, and by the agents that block.
pub(crate) fn plain_verdict(roster: &Roster, places: &[Option<ProgNo>]) -> Verdict {
    for number in 0..roster.applicants() {
        if is_unlisted(roster, places, AppNo(number)) {
            return Verdict::Unlisted(AppNo(number));
        }
    }
    for number in 0..roster.programs() {
        if is_over(roster, places, ProgNo(number)) {
            return Verdict::Over(ProgNo(number));
        }
    }
    for number in 0..roster.applicants() {
        if let Some(blocker) = blocker_led_by(roster, places, AppNo(number)) {
            return Verdict::Blocks(blocker);
        }
    }
    Verdict::Stable
}
