ghost use Rattle.std.specs.Prelude.{◌≡◌};

use mt_terms::{CoupleNo, Match, ProgNo};
use std::marker::Model;

/// What a record of a match says besides places.
#[derive(Clone, Copy)]
pub enum Count {
    /// A program with its quota, and how many are placed there.
    Program {
        /// The program.
        program: ProgNo,
        /// Its posts.
        quota: u64,
        /// How many applicants are placed there.
        filled: u64,
    },
    /// The totals.
    Totals {
        /// How many applicants there are.
        applicants: u64,
        /// How many of them have no place.
        unmatched: u64,
        /// How many posts there are.
        positions: u64,
        /// How many of them are free.
        unfilled: u64,
    },
}

/// What a record of a match says besides places, with the number of the record.
#[derive(Clone, Copy)]
pub struct Counted {
    /// The number of the record, from 1.
    pub row: u64,
    /// What it says.
    pub count: Count,
}

/// What the records of a match say: a place for each applicant of a market, the counts, and the couples that are set
/// aside.
pub struct SubmittedMatch {
    matched: Match,
    counts: Vec<Counted>,
    aside: Vec<CoupleNo>,
}

impl Drop for SubmittedMatch {
    fn drop(self) {
        let SubmittedMatch {
            matched: _,
            counts: _,
            aside: _,
        } = self;
    }
}

impl Model for SubmittedMatch {
    ghost use Rattle.mt_match_file.specs.Submitted.{Submitted};

    ghost Value = { Submitted };

    ghost view = { λ submitted. record { places = submitted.matched.places; counts = submitted.counts.items; aside = submitted.aside.items } };
}

impl SubmittedMatch {
    pub(crate) fn new(matched: Match, counts: Vec<Counted>, aside: Vec<CoupleNo>) -> Self
        ensures places { result.places ≡ matched.places }
        ensures counts { result.counts ≡ counts.items }
        ensures aside { result.aside ≡ aside.items }
    {
        SubmittedMatch {
            matched,
            counts,
            aside,
        }
    }

    /// The match that the places are.
    pub fn matched(&self) -> &Match
        ensures { result.now.places ≡ self.now.places }
    {
        &self.matched
    }

    /// What the records say besides places, in their order.
    pub fn counts(&self) -> &[Counted]
        ensures { result.now ≡ self.now.counts }
    {
        &self.counts
    }

    /// The couples that are set aside, in the order of their records.
    pub fn aside(&self) -> &[CoupleNo]
        ensures { result.now ≡ self.now.aside }
    {
        &self.aside
    }
}
