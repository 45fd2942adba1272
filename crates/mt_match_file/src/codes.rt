//! The codes of the faults of a match: why it can't be judged.

/// The first field is no kind of record.
pub const OTHER_RECORD: u16 = 50;

/// The fields are not those of a record of its kind.
pub const OTHER_FIELDS: u16 = 51;

/// A record of an applicant that is none of the market.
pub const NO_SUCH_APPLICANT: u16 = 52;

/// An applicant that a record before placed already.
pub const PLACED_TWICE: u16 = 53;

/// A program that is none of the market.
pub const NO_SUCH_PROGRAM: u16 = 54;

/// An applicant of the market that no record places.
pub const NOT_PLACED: u16 = 55;

/// A couple that is none of the market.
pub const NO_SUCH_COUPLE: u16 = 57;

/// A couple that a record before set aside already.
pub const ASIDE_TWICE: u16 = 58;
