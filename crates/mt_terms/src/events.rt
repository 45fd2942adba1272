use crate::numbers::AppNo;

/// What can happen next while the singles are matched.
#[derive(Clone, Copy, Debug)]
pub enum Event {
    /// The applicant proposes to the next program on its live list.
    Propose(AppNo),
    /// The applicant learns that the program which held it holds it no longer.
    Notice(AppNo),
}

/// The reply to an event.
#[derive(Clone, Copy, Debug, PartialEq, Eq)]
pub enum Reply {
    /// The program holds the applicant.
    Kept,
    /// The program holds the applicant, and this one no longer.
    KeptInstead(AppNo),
    /// The program doesn't hold the applicant.
    Refused,
    /// The applicant knows that it is held no longer.
    Noticed,
    /// The event wasn't due, and nothing changed.
    NotDue,
}
