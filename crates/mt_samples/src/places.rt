//! Whether a list of places is one for a roster.
ghost use Rattle.std.specs.Prelude.{◌≡◌, length, IsTrue};
ghost use Rattle.std.specs.List.{list_all};
ghost use Rattle.mt_terms.specs.Registration.Accepted.{is_none_or_below};
ghost use Rattle.mt_terms.specs.Places.{ArePlaces};

use mt_market::Roster;
use mt_terms::ProgNo;

// Whether a place is none, or a program of the roster.
fn is_place(roster: &Roster, place: Option<ProgNo>) -> bool
    ensures { result ≡ is_none_or_below (length roster.now.market.programs) place }
{
    match place {
        None => true,
        Some(program) => program.0 < roster.programs(),
    }
}

// Whether each place is none, or a program of the roster.
fn all_places(roster: &Roster, places: &[Option<ProgNo>]) -> bool
    ensures { result ≡ list_all (λ place. is_none_or_below (length roster.now.market.programs) place) places.now }
{
    places.iter().all(|place| is_place(roster, *place))
}

/// Whether there is one place for each applicant, each of them a program of the roster.
pub fn are_places(roster: &Roster, places: &[Option<ProgNo>]) -> bool
    ensures { IsTrue result → ArePlaces roster.now.market places.now }
{
    places.len() == roster.applicants() as usize && all_places(roster, places)
}
