//! The text of a match and the lines of refusals, byte for byte.

use crate::expect::{holds_for, same};
use mt_report::{published, published_aside, refused};
use mt_roster::Roster;
use mt_samples::markets::{CHAIN, CHAIN_TEXT, SampleError, roster_of};
use mt_samples::places::are_places;
use mt_terms::{CoupleNo, Match, Places, ProgNo};
use std::alloc::{AllocError, Global};

// Whether the match with these places has this text, after these numbers of proposals to the programs.
fn has_text(
    alloc: Global,
    roster: &Roster,
    places: &[Option<ProgNo>],
    proposals: &[u32],
    text: &[u8],
) -> Result<bool, AllocError> {
    if !are_places(roster, places) || proposals.len() != roster.programs() as usize {
        return Ok(false);
    }
    let matched = Match {
        places: Places::new(places.to_vec(alloc)?),
    };
    let found = published(alloc, roster, &matched, proposals)?;
    Ok(found.as_slice() == text)
}

#[test]
fn a_match_as_a_text(rt: HostRuntime) -> Result<(), SampleError> {
    let roster = roster_of(&rt, rt.alloc(), CHAIN)?;
    let places = [Some(ProgNo(1)), Some(ProgNo(0)), None];
    let has_text = has_text(rt.alloc(), &roster, &places, &[3, 2], CHAIN_TEXT);
    same(&rt, has_text, Ok(true));
    Ok(())
}

// A single and a couple, and the text of the single's match if the couple is set aside.
const COUPLE: &[u8] = b"match,2\n\
program,x,1,a,s\n\
program,y,1,s,b\n\
applicant,s,x,y\n\
couple,c,a,b,x,y\n";

const COUPLE_ASIDE_TEXT: &[u8] = b"match,2,published\n\
applicant,s,x\n\
applicant,a,-\n\
applicant,b,-\n\
program,x,1,1,1\n\
program,y,1,0,0\n\
aside,c\n\
totals,3,2,2,1\n";

// Whether that match has that text.
fn has_text_aside(alloc: Global, roster: &Roster) -> Result<bool, AllocError> {
    let places = [Some(ProgNo(0)), None, None];
    if !are_places(roster, &places) || roster.programs() != 2 || roster.couples() != 1 {
        return Ok(false);
    }
    let matched = Match {
        places: Places::new(places.to_vec(alloc)?),
    };
    let found = published_aside(alloc, roster, &matched, &[1, 0], &[CoupleNo(0)])?;
    Ok(found.as_slice() == COUPLE_ASIDE_TEXT)
}

#[test]
fn a_match_with_a_couple_set_aside_as_a_text(rt: HostRuntime) -> Result<(), SampleError> {
    let roster = roster_of(&rt, rt.alloc(), COUPLE)?;
    same(&rt, has_text_aside(rt.alloc(), &roster), Ok(true));
    Ok(())
}

// Whether a refusal for a known code, with an id that isn't too long, has this line.
fn has_line(code: u16, row: u64, id: &str, line: &str) -> bool {
    matches!(code, 10..=22 | 30 | 31 | 41)
        && id.len() <= 64
        && refused(code, row, id.as_bytes()).as_bytes() == line.as_bytes()
}

const ID_64: &str = "abcdefghijklmnopqrstuvwxyz012345ABCDEFGHIJKLMNOPQRSTUVWXYZ._:-67";

const ID_32: &str = "abcdefghijklmnopqrstuvwxyz012345";

// The longest line of an input, and that of one in version 1.
const LONGEST: &str =
    "match,1,refused,20,UnknownApplicant,33554432,abcdefghijklmnopqrstuvwxyz012345ABCDEFGHIJKLMNOPQRSTUVWXYZ._:-67\n";

const LONGEST_OF_VERSION_1: &str =
    "match,1,refused,20,UnknownApplicant,33554432,abcdefghijklmnopqrstuvwxyz012345\n";

// A code, the number of a record, an id, and the line of that refusal.
const LINES: &[(u16, u64, &str, &str)] = &[
    (10, 0, "", "match,1,refused,10,TooLarge,0,-\n"),
    (11, 0, "", "match,1,refused,11,TwoMarks,0,-\n"),
    (12, 1, "", "match,1,refused,12,NoVersion,1,-\n"),
    (13, 2, "", "match,1,refused,13,UnknownKind,2,-\n"),
    (14, 2, "", "match,1,refused,14,FieldCount,2,-\n"),
    (15, 2, "", "match,1,refused,15,BadId,2,-\n"),
    (16, 2, "P", "match,1,refused,16,BadQuota,2,P\n"),
    (17, 3, "a", "match,1,refused,17,DuplicateId,3,a\n"),
    (18, 2, "P", "match,1,refused,18,DuplicateEntry,2,P\n"),
    (
        19,
        20_002,
        "p20001",
        "match,1,refused,19,TooMany,20002,p20001\n",
    ),
    (20, 2, "z", "match,1,refused,20,UnknownApplicant,2,z\n"),
    (21, 5, "P", "match,1,refused,21,UnknownProgram,5,P\n"),
    (22, 5, "a", "match,1,refused,22,NotRegistered,5,a\n"),
    (30, 0, "", "match,1,refused,30,OutOfMemory,0,-\n"),
    (31, 0, "", "match,1,refused,31,ReadFault,0,-\n"),
    (41, 0, "", "match,1,refused,41,BudgetSpent,0,-\n"),
    // With ids of 64 and of 32 bytes, and the largest number of a record that an input has, and with any number.
    (20, 33_554_432, ID_64, LONGEST),
    (20, 33_554_432, ID_32, LONGEST_OF_VERSION_1),
    (
        20,
        u64::MAX,
        ID_64,
        "match,1,refused,20,UnknownApplicant,18446744073709551615,abcdefghijklmnopqrstuvwxyz012345ABCDEFGHIJKLMNOPQRSTUVWXYZ._:-67\n",
    ),
];

#[test]
fn each_code_has_its_line(rt: HostRuntime) {
    for (code, row, id, line) in LINES {
        holds_for(&rt, has_line(*code, *row, id, line), line);
    }
    same(&rt, LONGEST.len(), 110);
    same(&rt, LONGEST_OF_VERSION_1.len(), 78);
}
