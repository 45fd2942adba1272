ghost use Rattle.std.specs.Prelude.{◌≡◌, ◌<◌, ℕ, List, Option, None, length, slice_index_or};

use crate::numbers::{AppNo, ProgNo};
use std::marker::Model;

/// One place for each applicant, by number: a program, or none.
#[derive(Drop)]
pub struct Places {
    places: Vec<Option<ProgNo>>,
}

impl Model for Places {
    ghost Value = { List (Option ℕ) };

    ghost view = { λ p. p.places.items };
}

impl Places {
    /// The places that a vector lists.
    pub fn new(places: Vec<Option<ProgNo>>) -> Self
        ensures { result ≡ places.items }
    {
        Places { places }
    }

    /// The vector of the places.
    pub fn into_vec(self) -> Vec<Option<ProgNo>>
        ensures { result.items ≡ self }
    {
        self.places
    }

    /// The places, by the applicants' numbers.
    pub fn as_slice(&self) -> &[Option<ProgNo>]
        ensures { result.now ≡ self.now }
    {
        self.places.as_slice()
    }
}

/// A match: where each applicant is placed.
#[derive(Drop)]
pub struct Match {
    /// One place for each applicant, by number.
    pub places: Places,
}

impl Match {
    /// The applicant's place, or none if it is unplaced or there is no such applicant.
    pub fn place(&self, applicant: AppNo) -> Option<ProgNo>
        ensures { result ≡ slice_index_or self.now.places applicant None }
    {
        self.places
            .as_slice()
            .get(applicant.index())
            .copied()
            .flatten()
    }
}
