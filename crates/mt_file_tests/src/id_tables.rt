//! Tables of ids: each id once, found with its number whatever its length.
use crate::expect::same;
use mt_ids::{IdTable, Seed};
use std::hash::DefaultHasher;
use std::process::Abort;

// Ids of up to three, seven, fifteen and more bytes. Of each length some differ in their last byte alone, and some in
// an earlier one.
const IDS: [&[u8]; 14] = [
    b"a",
    b"b",
    b"ab",
    b"b.a",
    b"b.b",
    b"a234567",
    b"a234568",
    b"b234567",
    b"a2345678",
    b"a2345679",
    b"a23456789012345",
    b"a13456789012345",
    b"a234567890123456",
    b"a234567890123457",
];

// Those that aren't there: one is empty, one has a zero at its end, and each of the others is like one that is there.
const OTHERS: [&[u8]; 8] = [
    b"",
    b"a\0",
    b"a23456",
    b"b2345678",
    b"a2345678901234",
    b"a2345678901234\0",
    b"a234567890123458",
    b"a2345678901234567",
];

#[test]
fn ids_of_any_length_are_found(rt: HostRuntime) {
    let mut table = IdTable::new(rt.alloc(), Seed::of(&DefaultHasher::new()));
    for place in 0..IDS.len() {
        same(&rt, table.number(IDS[place]), None);
        same(&rt, table.add(IDS[place]).ok(), Some(true));
        same(&rt, table.number(IDS[place]), Some(place));
        same(&rt, table.add(IDS[place]).ok(), Some(false));
    }
    same(&rt, table.len(), IDS.len());
    for place in 0..IDS.len() {
        same(&rt, table.number(IDS[place]), Some(place));
        same(&rt, table.contains(IDS[place]), true);
    }
    for other in OTHERS {
        same(&rt, table.number(other), None);
        same(&rt, table.contains(other), false);
    }
}
