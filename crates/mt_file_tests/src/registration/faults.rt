//! Refused files: of each the code, the record and the id of the first fault.
use crate::expect::holds_for;
use crate::registration::{Fault, is_refused, limits, withdrawals};
use std::alloc::Global;
use std::process::Abort;
use std::thread::Threads;

const NO_VERSION: &[(&str, Fault<'static>)] = &[
    ("", (12, 0, "")),
    (",,,\n\n,\n", (12, 0, "")),
    ("match,3\n", (12, 1, "")),
    ("match\n", (12, 1, "")),
    ("match,1,x\n", (12, 1, "")),
    ("match,01\n", (12, 1, "")),
    ("Match,1\n", (12, 1, "")),
    ("program,P,1\nmatch,1\n", (12, 1, "")),
    // Records without a field keep their numbers.
    (",\n\n,\nmatch,3\n", (12, 3, "")),
    // It comes before any other fault of the file.
    ("match,3\npost,P,1\nprogram,P\n", (12, 1, "")),
];

const UNKNOWN_KIND: &[(&str, Fault<'static>)] = &[
    ("match,1\npost,P,1\n", (13, 2, "")),
    ("match,1\nmatch,1\n", (13, 2, "")),
    ("match,1\n\"\",P\n", (13, 2, "")),
    // Not for its number of fields or its ids.
    ("match,1\n,\npost,b!\n", (13, 3, "")),
    // A fault of an earlier record comes first.
    ("match,1\napplicant,b!\npost,P,1\n", (15, 2, "")),
];

const FIELD_COUNT: &[(&str, Fault<'static>)] = &[
    ("match,1\nprogram\n", (14, 2, "")),
    ("match,1\nprogram,P\n", (14, 2, "")),
    ("match,1\napplicant\n", (14, 2, "")),
    ("match,1\ncouple,c,a\n", (14, 2, "")),
    ("match,1\ncouple,c,a,b,x\n", (14, 2, "")),
    ("match,1\ncouple,c,a,b,x,y,x\n", (14, 2, "")),
    // Empty fields at the end don't count.
    ("match,1\nprogram,P,,\n", (14, 2, "")),
    ("match,1\ncouple,c,a,b,x,\n", (14, 2, "")),
    // Before the ids.
    ("match,1\ncouple,c!,a,b,x\n", (14, 2, "")),
    // A fault of an earlier record comes first, whatever its code.
    ("match,1\nprogram,P,1,a,a\ncouple,c,a,b,x\n", (18, 2, "P")),
];

const BAD_ID: &[(&str, Fault<'static>)] = &[
    ("match,1\napplicant,\"a\"\"1\"\n", (15, 2, "")),
    ("match,1\nprogram,,1,a\n", (15, 2, "")),
    ("match,1\nprogram,P,1,a,,b\n", (15, 2, "")),
    ("match,1\napplicant,a b\n", (15, 2, "")),
    ("match,1\napplicant,\u{E9}\n", (15, 2, "")),
    ("match,1\napplicant,-\n", (15, 2, "")),
    ("match,1\napplicant,a,-\n", (15, 2, "")),
    ("match,1\ncouple,c,-,b\n", (15, 2, "")),
    ("match,1\ncouple,c,a,b!\n", (15, 2, "")),
    ("match,1\ncouple,c,a,b,x!,y\n", (15, 2, "")),
    // A pair of one program and none is for version 2, and never of none and none.
    ("match,1\ncouple,c,a,b,x,-\n", (15, 2, "")),
    ("match,1\ncouple,c,a,b,-,x\n", (15, 2, "")),
    ("match,1\ncouple,c,a,b,-,-\n", (15, 2, "")),
    ("match,2\ncouple,c,a,b,-,-\n", (15, 2, "")),
    ("match,2\ncouple,c,a,b,x,-,-,y!\n", (15, 2, "")),
    ("match,2\nprogram,P,1,-\n", (15, 2, "")),
    // The first pass comes first.
    ("match,1\napplicant,a,Q\nprogram,P,1,b!\n", (15, 3, "")),
    // All ids of a record before its quota.
    ("match,1\nprogram,P,x,b!\n", (15, 2, "")),
    // An earlier record's fault.
    ("match,1\nprogram,P,x\napplicant,b!\n", (16, 2, "P")),
];

const BAD_QUOTA: &[(&str, Fault<'static>)] = &[
    ("match,1\nprogram,P,10000\n", (16, 2, "P")),
    ("match,1\nprogram,P,00001\n", (16, 2, "P")),
    ("match,1\nprogram,P,-1\n", (16, 2, "P")),
    ("match,1\nprogram,P,1a,a\n", (16, 2, "P")),
    ("match,1\nprogram,P,,a\n", (16, 2, "P")),
    // Before an id that is registered already, and before an id twice in a list.
    ("match,1\nprogram,P,1\nprogram,P,x,a,a\n", (16, 3, "P")),
    // An earlier record's fault.
    (
        "match,1\napplicant,a\napplicant,a\nprogram,P,x\n",
        (17, 3, "a"),
    ),
];

const DUPLICATE_ID: &[(&str, Fault<'static>)] = &[
    (
        "match,1\nprogram,P,1\nprogram,Q,1\nprogram,P,2\n",
        (17, 4, "P"),
    ),
    ("match,1\napplicant,a\napplicant,a\n", (17, 3, "a")),
    ("match,1\ncouple,c,a,b\napplicant,a\n", (17, 3, "a")),
    ("match,1\napplicant,b\ncouple,c,a,b\n", (17, 3, "b")),
    ("match,1\ncouple,c,a,a\n", (17, 2, "a")),
    // The first such id in the order own, first member, second member.
    ("match,1\ncouple,c,a,b\ncouple,c,b,a\n", (17, 3, "c")),
    ("match,1\ncouple,c,a,b\ncouple,d,b,a\n", (17, 3, "b")),
    ("match,1\ncouple,c,a,b\ncouple,d,e,a\n", (17, 3, "a")),
    ("match,1\ncouple,c,a,b\ncouple,d,a,a\n", (17, 3, "a")),
    // Before an id twice in a list.
    ("match,1\nprogram,P,1\nprogram,P,1,a,a\n", (17, 3, "P")),
    // An earlier record's fault.
    ("match,1\napplicant,a,P,P\napplicant,a\n", (18, 2, "a")),
];

const DUPLICATE_ENTRY: &[(&str, Fault<'static>)] = &[
    ("match,1\nprogram,P,1,a,a\n", (18, 2, "P")),
    ("match,1\nprogram,P,1,a,b,a\n", (18, 2, "P")),
    ("match,1\napplicant,a,P,Q,R,Q\n", (18, 2, "a")),
    ("match,1\ncouple,c,a,b,x,y,y,x,x,y\n", (18, 2, "c")),
    ("match,2\ncouple,c,a,b,x,-,-,x,x,-\n", (18, 2, "c")),
    // Nothing is looked up before the first pass is over.
    ("match,1\nprogram,P,1,z\napplicant,a,Q,Q\n", (18, 3, "a")),
    // An earlier record's fault.
    (
        "match,1\napplicant,a\napplicant,a\nprogram,P,1,a,a\n",
        (17, 3, "a"),
    ),
    // One program twice in a pair, and pairs of the same two programs, are no repeats: x is unknown.
    ("match,1\ncouple,c,a,b,x,x,x,y,y,x\n", (21, 2, "x")),
];

const UNKNOWN_APPLICANT: &[(&str, Fault<'static>)] = &[
    ("match,1\nprogram,P,1,z\n", (20, 2, "z")),
    ("match,1\nprogram,P,1,a,z,y\napplicant,a\n", (20, 2, "z")),
    // A program or a couple of that id is no applicant.
    ("match,1\nprogram,P,1,P\ncouple,P,a,b\n", (20, 2, "P")),
    ("match,1\nprogram,P,1,a,b,c\ncouple,c,a,b\n", (20, 2, "c")),
    // The record decides before the code.
    ("match,1\napplicant,a,Q\nprogram,P,1,z\n", (21, 2, "Q")),
    ("match,1\nprogram,P,1,z\napplicant,a,Q\n", (20, 2, "z")),
];

const UNKNOWN_PROGRAM: &[(&str, Fault<'static>)] = &[
    ("match,1\napplicant,a,Q\nprogram,P,1,b\n", (21, 2, "Q")),
    ("match,1\nprogram,P,1\napplicant,a,P,R,Q\n", (21, 3, "R")),
    (
        "match,1\nprogram,P,1\ncouple,c,a,b,P,P,P,R,Q,P\n",
        (21, 3, "R"),
    ),
    ("match,1\nprogram,P,1\ncouple,c,a,b,R,Q\n", (21, 3, "R")),
    // The `-` of a pair is no program.
    (
        "match,2\nprogram,P,1\ncouple,c,a,b,P,-,-,P,-,Q\n",
        (21, 3, "Q"),
    ),
    // An earlier record's fault.
    ("match,1\nprogram,P,1,c\napplicant,a,Q\n", (20, 2, "c")),
    // Cut in the last record, which has no end.
    (
        "match,1\nprogram,P1,1,a2,a1\nprogram,P2,1,a1,a2\napplicant,a1,P1,P2\napplicant,a2,P2,P",
        (21, 5, "P"),
    ),
];

fn expect_refused<R: Abort + Threads + Sync>(
    rt: &R,
    alloc: Global,
    files: &[(&str, Fault<'static>)],
) {
    for (file, fault) in files {
        holds_for(rt, is_refused(rt, alloc, file, *fault), file);
    }
}

#[test]
fn files_that_are_refused(rt: HostRuntime) {
    let alloc = rt.alloc();
    expect_refused(&rt, alloc, NO_VERSION);
    expect_refused(&rt, alloc, UNKNOWN_KIND);
    expect_refused(&rt, alloc, FIELD_COUNT);
    expect_refused(&rt, alloc, BAD_ID);
    expect_refused(&rt, alloc, BAD_QUOTA);
    expect_refused(&rt, alloc, DUPLICATE_ID);
    expect_refused(&rt, alloc, DUPLICATE_ENTRY);
    expect_refused(&rt, alloc, UNKNOWN_APPLICANT);
    expect_refused(&rt, alloc, UNKNOWN_PROGRAM);
    expect_refused(&rt, alloc, limits::REFUSED);
    expect_refused(&rt, alloc, withdrawals::REFUSED);
}
