ghost use Rattle.std.specs.Prelude.{◌≡◌, ◌<◌, ◌^◌, ℕ};

use mt_terms::{AppNo, ProgNo};

/// A new number of an id: a place in the order of registration, from 0.
pub trait Number: Copy + Drop {
    ghost at: { ℕ → Self };

    /// The number that is this place.
    fn at(place: usize) -> Self
        requires { place < 2 ^ 32 }
        ensures { result ≡ at place };
}

impl Number for AppNo {
    ghost at = { λ place. place };

    fn at(place: usize) -> Self {
        AppNo(place as u32)
    }
}

impl Number for ProgNo {
    ghost at = { λ place. place };

    fn at(place: usize) -> Self {
        ProgNo(place as u32)
    }
}
