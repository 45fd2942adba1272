//! The limits of the two versions.
use crate::expect::{holds_for, same};
use crate::registration::{Fault, is_refused};
use mt_samples::markets::{SampleError, roster_of};
use std::alloc::{AllocError, Global};
use std::thread::Threads;

// Ids of 32 bytes, and of 64 in version 2.
pub(crate) const ACCEPTED: &[(&str, &str)] = &[
    (
        "match,1\napplicant,abcdefghijklmnopqrstuvwxyz012345\n",
        "applicant abcdefghijklmnopqrstuvwxyz012345 single 0:\n",
    ),
    (
        "match,2\napplicant,abcdefghijklmnopqrstuvwxyz012345\n",
        "applicant abcdefghijklmnopqrstuvwxyz012345 single 0:\n",
    ),
    (
        "match,2\napplicant,abcdefghijklmnopqrstuvwxyz012345abcdefghijklmnopqrstuvwxyz01234.\n",
        "applicant abcdefghijklmnopqrstuvwxyz012345abcdefghijklmnopqrstuvwxyz01234. single 0:\n",
    ),
];

pub(crate) const REFUSED: &[(&str, Fault<'static>)] = &[
    // The same ids twice.
    (
        "match,1\napplicant,abcdefghijklmnopqrstuvwxyz012345\napplicant,abcdefghijklmnopqrstuvwxyz012345\n",
        (17, 3, "abcdefghijklmnopqrstuvwxyz012345"),
    ),
    (
        "match,2\napplicant,abcdefghijklmnopqrstuvwxyz012345\napplicant,abcdefghijklmnopqrstuvwxyz012345\n",
        (17, 3, "abcdefghijklmnopqrstuvwxyz012345"),
    ),
    (
        "match,2\napplicant,abcdefghijklmnopqrstuvwxyz012345abcdefghijklmnopqrstuvwxyz01234.\napplicant,abcdefghijklmnopqrstuvwxyz012345abcdefghijklmnopqrstuvwxyz01234.\n",
        (
            17,
            3,
            "abcdefghijklmnopqrstuvwxyz012345abcdefghijklmnopqrstuvwxyz01234.",
        ),
    ),
    // Ids of one byte more, and of 64 in version 1.
    (
        "match,1\napplicant,abcdefghijklmnopqrstuvwxyz0123456\n",
        (15, 2, ""),
    ),
    (
        "match,2\napplicant,abcdefghijklmnopqrstuvwxyz012345abcdefghijklmnopqrstuvwxyz01234.6\n",
        (15, 2, ""),
    ),
    (
        "match,1\napplicant,abcdefghijklmnopqrstuvwxyz012345abcdefghijklmnopqrstuvwxyz01234.\n",
        (15, 2, ""),
    ),
];

// How many programs, applicants and couples a file has.
fn sizes_of<R: Threads + Sync>(
    rt: &R,
    alloc: Global,
    file: &str,
) -> Result<(u32, u32, u32), SampleError> {
    let roster = roster_of(rt, alloc, file.as_bytes())?;
    Ok((roster.programs(), roster.applicants(), roster.couples()))
}

// A file of the most programs, with this line behind them.
fn most_programs(alloc: Global, head: &str, last: &str) -> Result<String, AllocError> {
    let mut file = String::from_str(alloc, head)?;
    for number in 1..20_001u32 {
        write!(file, "program,p{number},0\n")?;
    }
    file.push_str(last)?;
    Ok(file)
}

fn sizes_of_most_programs<R: Threads + Sync>(
    rt: &R,
    alloc: Global,
) -> Result<(u32, u32, u32), SampleError> {
    let file = most_programs(alloc, "match,1\n", "")?;
    sizes_of(rt, alloc, file.as_str())
}

// Heads of files, lines behind the most programs, and the faults of these.
const BEHIND_PROGRAMS: &[(&str, &str, Fault<'static>)] = &[
    ("match,1\n", "program,p20001,0\n", (19, 20_002, "p20001")),
    ("match,1\n", "program,q,1,a,a\n", (18, 20_002, "q")),
    ("match,1\n", "program,p9,1\n", (17, 20_002, "p9")),
    ("match,1\n", "program,q,x\n", (16, 20_002, "q")),
    ("match,1\n", "applicant,a,q\n", (21, 20_002, "q")),
    // A withdrawn program counts.
    (
        "match,2\nwithdraw,program,p1\n",
        "program,p20001,0\n",
        (19, 20_003, "p20001"),
    ),
];

fn is_refused_behind_programs<R: Threads + Sync>(
    rt: &R,
    alloc: Global,
    head: &str,
    last: &str,
    fault: Fault<'_>,
) -> Result<bool, AllocError> {
    let file = most_programs(alloc, head, last)?;
    Ok(is_refused(rt, alloc, file.as_str(), fault))
}

// The refusal of a program more than 20,000 names its record and id. It comes after what is earlier in the order of
// codes.
#[test]
fn one_program_too_many(rt: HostRuntime) {
    let sizes = sizes_of_most_programs(&rt, rt.alloc());
    same(&rt, sizes, Ok((20_000, 0, 0)));
    for (head, last, fault) in BEHIND_PROGRAMS {
        let is_refused = is_refused_behind_programs(&rt, rt.alloc(), head, last, *fault);
        holds_for(&rt, is_refused == Ok(true), last);
    }
}

// A file of the most couples that it may have.
fn most_couples(alloc: Global) -> Result<String, AllocError> {
    let mut file = String::from_str(alloc, "match,1\n")?;
    for number in 1..10_001u32 {
        write!(file, "couple,c{number},a{number},b{number}\n")?;
    }
    Ok(file)
}

#[test]
fn one_couple_too_many(rt: HostRuntime) -> Result<(), AllocError> {
    let mut file = most_couples(rt.alloc())?;
    let sizes = sizes_of(&rt, rt.alloc(), file.as_str());
    same(&rt, sizes, Ok((0, 20_000, 10_000)));
    file.push_str("couple,c,a,b\n")?;
    assert!(rt; is_refused(&rt, rt.alloc(), file.as_str(), (19, 10_002, "c")));
    Ok(())
}
