//! Accepted files. Numbers go by order of registration from 0, for programs, applicants and couples each.
use crate::expect::holds_for;
use crate::registration::{gives, limits, withdrawals};
use mt_model::laws;
use std::alloc::Global;
use std::process::Abort;
use std::thread::Threads;

const CROSSED: &str =
    "program P1 1: 1 0\nprogram P2 1: 0 1\napplicant a1 single 0: 0 1\napplicant a2 single 1: 1 0\n";

const ACCEPTED: &[(&str, &str)] = &[
    // An empty market.
    ("match,1", ""),
    ("match,1\n", ""),
    ("match,2\n", ""),
    (",\n\nmatch,1,,\n,,,\n", ""),
    // Two programs and two applicants: each wants most the one that wants it least. The third file is as a
    // spreadsheet writes it. It has a mark, quotes, a quota with a leading zero, empty fields at the end of records
    // and an empty line. It also has a record without a field, and no end to the last record.
    (
        "match,1\nprogram,P1,1,a2,a1\nprogram,P2,1,a1,a2\napplicant,a1,P1,P2\napplicant,a2,P2,P1\n",
        CROSSED,
    ),
    (
        "match,2\nprogram,P1,1,a2,a1\nprogram,P2,1,a1,a2\napplicant,a1,P1,P2\napplicant,a2,P2,P1\n",
        CROSSED,
    ),
    (
        "\u{FEFF}match,1,,\r\n\"program\",P1,1,\"a2\",a1\r\n\r\nprogram,P2,01,a1,a2,\r\n,,,\r\napplicant,a1,P1,P2\r\napplicant,\"a2\",P2,P1",
        CROSSED,
    ),
    // Applicants and programs may be registered in any order and before they are known: P2 is program 0, and a3, a1, a2
    // are the applicants 0, 1, 2.
    (
        "match,1\napplicant,a3,P1\nprogram,P2,1,a1,a2\napplicant,a1,P1,P2\nprogram,P1,1,a2,a3,a1\napplicant,a2,P2,P1\n",
        "program P2 1: 1 2\nprogram P1 1: 2 0 1\napplicant a3 single 0: 1\napplicant a1 single 1: 1 0\napplicant a2 single 2: 0 1\n",
    ),
    // Q wants nobody, and a2 wants a program that doesn't list it: entries of one side stay on the lists. A quota may be
    // 0 or 9,999, and an id may be the same in each of the three name spaces.
    (
        "match,1\nprogram,P,0,a1\nprogram,Q,9999\nprogram,a1,0007\napplicant,a1,Q\napplicant,a2,P\ncouple,a1,P,Q\n",
        "program P 0: 0\nprogram Q 9999:\nprogram a1 7:\napplicant a1 single 0: 1\napplicant a2 single 1: 0\napplicant P couple 0:\napplicant Q couple 0:\ncouple a1 2 3:\n",
    ),
    // The couple registers a and then b, after s. Its first pair sends both members to one program.
    (
        "match,1\nprogram,x,2,a,s,b\nprogram,y,1,s,b\napplicant,s,x,y\ncouple,c,a,b,x,x,x,y\n",
        "program x 2: 1 0 2\nprogram y 1: 0 2\napplicant s single 0: 0 1\napplicant a couple 0:\napplicant b couple 0:\ncouple c 1 2: 0 0, 0 1,\n",
    ),
    // The programs p, q, r are 0, 1, 2, and the applicants d1, d2, s, a1, a2, e1, e2 are 0 to 6.
    (
        "match,1\nprogram,p,1,d1,a1\nprogram,q,1,a2\nprogram,r,1,e1,d2\ncouple,D,d1,d2,p,r\napplicant,s,q\ncouple,A,a1,a2,p,q,q,p\ncouple,E,e1,e2,r,r\n",
        "program p 1: 0 3\nprogram q 1: 4\nprogram r 1: 5 1\napplicant d1 couple 0:\napplicant d2 couple 0:\napplicant s single 2: 1\napplicant a1 couple 1:\napplicant a2 couple 1:\napplicant e1 couple 2:\napplicant e2 couple 2:\ncouple D 0 1: 0 2,\ncouple A 3 4: 0 1, 1 0,\ncouple E 5 6: 2 2,\n",
    ),
    // In version 2 one member of a pair may have no place. `x,-` and `-,x` are two pairs.
    (
        "match,2\nprogram,x,1,a,s\nprogram,y,1,s,b\napplicant,s,x,y\ncouple,c,a,b,x,y,x,-,-,x,-,y\n",
        "program x 1: 1 0\nprogram y 1: 0 2\napplicant s single 0: 0 1\napplicant a couple 0:\napplicant b couple 0:\ncouple c 1 2: 0 1, 0 -, - 0, - 1,\n",
    ),
];

fn expect_accepted<R: Abort + Threads + Sync>(rt: &R, alloc: Global, files: &[(&str, &str)]) {
    for (file, market) in files {
        holds_for(rt, gives(rt, alloc, file, market) == Ok(true), file);
    }
}

#[test]
fn files_that_are_accepted(rt: HostRuntime) {
    let alloc = rt.alloc();
    expect_accepted(&rt, alloc, ACCEPTED);
    expect_accepted(&rt, alloc, limits::ACCEPTED);
    expect_accepted(&rt, alloc, withdrawals::ACCEPTED);
    laws::fault_ids();
}
