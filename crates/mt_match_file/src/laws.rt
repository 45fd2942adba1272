//! Laws of what the records of a match say: each is the contract of a function that does nothing.

ghost use Rattle.mt_match_file.specs.Laws.{FaultsAreNamed, TellsAside, TellsPlaces};

/// A fault of a match has a code of its own, and its id is an id or empty.
pub fn faults_are_named()
    ensures { FaultsAreNamed }
{}

/// A match that is read has one place for each applicant of the market: a program of the market, or none.
pub fn tells_places()
    ensures { TellsPlaces }
{}

/// A match that is read sets aside couples of the market alone, each of them once.
pub fn tells_aside()
    ensures { TellsAside }
{}
