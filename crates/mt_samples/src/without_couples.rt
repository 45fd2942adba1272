//! Small markets without couples, with the text that is published for each.

/// A file that says no more than its version.
pub const NOBODY: &[u8] = b"match,1\n";

pub const NOBODY_TEXT: &[u8] = b"match,1,published\n\
    totals,0,0,0,0\n";

/// Z has no post, and is the only wish of a1. The applicants a1 and a2 have the numbers 0 and 1. The programs Z and Y
/// have 0 and 1.
pub const QUOTA_OF_ZERO: &[u8] = b"match,1\n\
    program,Z,0,a1,a2\n\
    program,Y,1,a2\n\
    applicant,a1,Z\n\
    applicant,a2,Z,Y\n";

pub const QUOTA_OF_ZERO_TEXT: &[u8] = b"match,1,published\n\
    applicant,a1,-\n\
    applicant,a2,Y\n\
    program,Z,0,0,2\n\
    program,Y,1,1,1\n\
    totals,2,1,1,0\n";

/// Each applicant lists the one program that doesn't list it.
pub const NO_ENTRY_IS_MUTUAL: &[u8] = b"match,1\n\
    program,P,1,a1\n\
    program,Q,1\n\
    applicant,a1,Q\n\
    applicant,a2,P\n";

pub const NO_ENTRY_IS_MUTUAL_TEXT: &[u8] = b"match,1,published\n\
    applicant,a1,-\n\
    applicant,a2,-\n\
    program,P,1,0,0\n\
    program,Q,1,0,0\n\
    totals,2,2,2,2\n";

/// Of three applicants b is the third on the list of a program with two posts.
pub const THIRD_ON_A_LIST_FOR_TWO_POSTS: &[u8] = b"match,1\n\
    program,P,2,c,a,b\n\
    applicant,a,P\n\
    applicant,b,P\n\
    applicant,c,P\n";

pub const THIRD_ON_A_LIST_FOR_TWO_POSTS_TEXT: &[u8] = b"match,1,published\n\
    applicant,a,P\n\
    applicant,b,-\n\
    applicant,c,P\n\
    program,P,2,2,3\n\
    totals,3,1,2,0\n";

/// The longest id of version 1.
pub const LONGEST_ID: &[u8] = b"match,1\n\
    applicant,abcdefghijklmnopqrstuvwxyz012345\n";

pub const LONGEST_ID_TEXT: &[u8] = b"match,1,published\n\
    applicant,abcdefghijklmnopqrstuvwxyz012345,-\n\
    totals,1,1,0,0\n";

/// The longest id of version 2.
pub const LONGEST_ID_OF_VERSION_2: &[u8] = b"match,2\n\
    applicant,abcdefghijklmnopqrstuvwxyz012345abcdefghijklmnopqrstuvwxyz012345\n";

pub const LONGEST_ID_OF_VERSION_2_TEXT: &[u8] = b"match,1,published\n\
    applicant,abcdefghijklmnopqrstuvwxyz012345abcdefghijklmnopqrstuvwxyz012345,-\n\
    totals,1,1,0,0\n";

/// The largest quota.
pub const LARGEST_QUOTA: &[u8] = b"match,1\n\
    program,P,9999\n";

pub const LARGEST_QUOTA_TEXT: &[u8] = b"match,1,published\n\
    program,P,9999,0,0\n\
    totals,0,0,9999,9999\n";

/// The crossed wishes as a spreadsheet writes them, with the same text.
pub const SPREADSHEET_EXPORT: &[u8] = b"\xEF\xBB\xBFmatch,1,,\r\n\
    \"program\",P1,1,\"a2\",a1\r\n\
    \r\n\
    program,P2,01,a1,a2,\r\n\
    ,,,\r\n\
    applicant,a1,P1,P2\r\n\
    applicant,\"a2\",P2,P1";

/// The chain of rejections, with P2 as program 0, and a3, a1 and a2 as the applicants 0, 1 and 2.
pub const RECORDS_IN_ANY_ORDER: &[u8] = b"match,1\n\
    applicant,a3,P1\n\
    program,P2,1,a1,a2\n\
    applicant,a1,P1,P2\n\
    program,P1,1,a2,a3,a1\n\
    applicant,a2,P2,P1\n";

pub const RECORDS_IN_ANY_ORDER_TEXT: &[u8] = b"match,1,published\n\
    applicant,a3,-\n\
    applicant,a1,P2\n\
    applicant,a2,P1\n\
    program,P2,1,1,2\n\
    program,P1,1,1,3\n\
    totals,3,1,2,0\n";
