use mt_hall::{HallName, Pass};
use mt_terms::AppNo;

/// What the audit found when the workers had ended, and what was left after it.
#[derive(Clone, Copy, Debug, PartialEq, Eq)]
pub struct Closing {
    /// Whether the passes' counts add up to the floor's.
    pub agrees: bool,
    /// A place whose desk bears another number, with that number.
    pub astray: Option<(AppNo, AppNo)>,
    /// How many proposals the workers had left to be made.
    pub late: u64,
}

/// What a worker passes with each ticket. Whatever a gate does, and however long it takes, the match is the same.
pub trait Gate {
    /// Called each time a worker has taken a ticket, before it acts on it.
    fn before(&self, worker: u32, applicant: AppNo);

    /// Called when the worker has done with a ticket, with the pass that it carries.
    fn after<K: HallName>(&self, worker: u32, pass: &Pass<K>);

    /// Called once on the calling thread, when the hall is closed and the floor is finished.
    fn closed(&self, _closing: &Closing) {}
}

/// The gate that does nothing.
#[derive(Clone, Copy)]
pub struct Open;

impl Gate for Open {
    fn before(&self, _worker: u32, _applicant: AppNo) {}

    fn after<K: HallName>(&self, _worker: u32, _pass: &Pass<K>) {}
}
