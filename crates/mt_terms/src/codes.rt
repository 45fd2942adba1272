//! The codes of refusals: why a run ends without a match.

/// The input has more bytes than the limit.
pub const TOO_LARGE: u16 = 10;

/// The input begins with two byte order marks.
pub const TWO_MARKS: u16 = 11;

/// No record has a field, or the first that has one names no version.
pub const NO_VERSION: u16 = 12;

/// The first field is no kind of record, or the second field of a withdrawal is no kind.
pub const UNKNOWN_KIND: u16 = 13;

/// Too few fields, or too many, for the kind of record.
pub const FIELD_COUNT: u16 = 14;

/// A field that should be an id isn't one.
pub const BAD_ID: u16 = 15;

/// A field that should be a quota isn't one.
pub const BAD_QUOTA: u16 = 16;

/// An id is registered already.
pub const DUPLICATE_ID: u16 = 17;

/// A list has an id or a pair twice, or a row is withdrawn twice.
pub const DUPLICATE_ENTRY: u16 = 18;

/// A limit is passed.
pub const TOO_MANY: u16 = 19;

/// A program lists an applicant that no record registers.
pub const UNKNOWN_APPLICANT: u16 = 20;

/// An applicant or a couple lists a program that no record registers.
pub const UNKNOWN_PROGRAM: u16 = 21;

/// A withdrawal names a row that no record registers.
pub const NOT_REGISTERED: u16 = 22;

/// Memory was refused.
pub const OUT_OF_MEMORY: u16 = 30;

/// A read failed.
pub const READ_FAULT: u16 = 31;

/// The couples' rounds would exceed the budget.
pub const BUDGET_SPENT: u16 = 41;
