//! The rank tables.
use super::market::{agent_of, ranking, wishes};
use mt_ranks::PackedLive;
use mt_roster::Roster;
use mt_terms::{Agent, AppNo, ProgNo};

/// The applicant's position on the program's list.
pub(crate) fn plain_rank(roster: &Roster, program: ProgNo, applicant: AppNo) -> Option<u32> {
    let mut rank = 0u32;
    for listed in ranking(roster, program) {
        if listed.0 == applicant.0 {
            return Some(rank);
        }
        rank = rank.saturating_add(1);
    }
    None
}

/// Whether the live list is of those programs on the applicant's list that list it too, each with the plain rank.
pub(crate) fn is_plain_live(roster: &Roster, live: &[PackedLive], applicant: AppNo) -> bool {
    let mut next = 0usize;
    for program in wishes(roster, applicant) {
        if let Some(rank) = plain_rank(roster, *program, applicant) {
            match live.get(next) {
                Some(entry)
                    if entry.unpacked().program == *program && entry.unpacked().rank == rank => {}
                _ => return false,
            }
            next = next.saturating_add(1);
        }
    }
    next == live.len()
}

/// Whether the applicant is a single.
pub(crate) fn is_plain_single(roster: &Roster, applicant: AppNo) -> bool {
    applicant.0 < roster.applicants() && matches!(agent_of(roster, applicant), Agent::Single(_))
}
