ghost use Rattle.std.specs.Prelude.{◌≡◌, ℕ};

use std::marker::Model;

/// An applicant's number, by order of registration from 0. A couple's members are applicants too.
#[derive(Clone, Copy, Debug, PartialEq, Eq)]
pub struct AppNo(pub u32);

impl Model for AppNo {
    ghost Value = { ℕ };

    ghost view = { λ n. n.0 };

    ghost inverse = { λ n. record { 0 = n } };
}

impl AppNo {
    /// The number as an index.
    pub fn index(self) -> usize
        ensures { result ≡ self }
    {
        self.0 as usize
    }
}

/// A program's number, by order of registration from 0.
#[derive(Clone, Copy, Debug, PartialEq, Eq)]
pub struct ProgNo(pub u32);

impl Model for ProgNo {
    ghost Value = { ℕ };

    ghost view = { λ n. n.0 };

    ghost inverse = { λ n. record { 0 = n } };
}

impl ProgNo {
    /// The number as an index.
    pub fn index(self) -> usize
        ensures { result ≡ self }
    {
        self.0 as usize
    }
}

/// A couple's number, by order of registration from 0.
#[derive(Clone, Copy, Debug, PartialEq, Eq)]
pub struct CoupleNo(pub u32);

impl Model for CoupleNo {
    ghost Value = { ℕ };

    ghost view = { λ n. n.0 };

    ghost inverse = { λ n. record { 0 = n } };
}

impl CoupleNo {
    /// The number as an index.
    pub fn index(self) -> usize
        ensures { result ≡ self }
    {
        self.0 as usize
    }
}

/// Who ranks options: an applicant with a list of its own, or a couple with a list of pairs.
#[derive(Clone, Copy, Debug, PartialEq, Eq)]
pub enum Agent {
    Single(AppNo),
    Couple(CoupleNo),
}
