//! One list that is long enough to be looked up in pieces by several threads.
use crate::expect::holds_for;
use crate::registration::{Fault, gives, is_refused};
use mt_samples::markets::SampleError;
use std::alloc::{AllocError, Global};
use std::thread::Threads;

// How many applicants are on the list.
const APPLICANTS: u32 = 33_000;

// A file with this head up to a program's quota. The program lists all applicants, the last one first, and then these.
fn long_list(alloc: Global, head: &str, last: &str) -> Result<String, AllocError> {
    let mut file = String::from_str(alloc, head)?;
    for number in (0..APPLICANTS).rev() {
        write!(file, ",a{number}")?;
    }
    file.push_str(last)?;
    file.push_str("\n")?;
    for number in 0..APPLICANTS {
        write!(file, "applicant,a{number}\n")?;
    }
    Ok(file)
}

// The market of that file, if the first applicants, as many as `withdrawn`, don't stay.
fn long_market(alloc: Global, withdrawn: u32) -> Result<String, AllocError> {
    let mut market = String::from_str(alloc, "program p 1:")?;
    for number in (0..APPLICANTS.saturating_sub(withdrawn)).rev() {
        write!(market, " {number}")?;
    }
    market.push_str("\n")?;
    for number in withdrawn..APPLICANTS {
        let place = number.saturating_sub(withdrawn);
        write!(market, "applicant a{number} single {place}:\n")?;
    }
    Ok(market)
}

fn gives_long<R: Threads + Sync>(
    rt: &R,
    alloc: Global,
    head: &str,
    withdrawn: u32,
) -> Result<bool, SampleError> {
    let file = long_list(alloc, head, "")?;
    let market = long_market(alloc, withdrawn)?;
    gives(rt, alloc, file.as_str(), market.as_str())
}

fn is_refused_long<R: Threads + Sync>(
    rt: &R,
    alloc: Global,
    last: &str,
    fault: Fault<'_>,
) -> Result<bool, AllocError> {
    let file = long_list(alloc, "match,2\nprogram,p,1", last)?;
    Ok(is_refused(rt, alloc, file.as_str(), fault))
}

// Of a plain file, of one with a quote, and of one that withdraws an applicant on the list.
const ACCEPTED: &[(&str, u32)] = &[
    ("match,2\nprogram,p,1", 0),
    ("match,2\nprogram,\"p\",1", 0),
    ("match,2\nwithdraw,applicant,a0\nprogram,p,1", 1),
];

// The first id again, the last one again, and one that isn't registered, at the end of the list.
const REFUSED: &[(&str, Fault<'static>)] = &[
    (",a32999", (18, 2, "p")),
    (",a0", (18, 2, "p")),
    (",z", (20, 2, "z")),
];

#[test]
fn long_list_by_numbers(rt: HostRuntime) {
    for (head, withdrawn) in ACCEPTED {
        let gives = gives_long(&rt, rt.alloc(), head, *withdrawn);
        holds_for(&rt, gives == Ok(true), head);
    }
}

#[test]
fn long_list_with_a_fault(rt: HostRuntime) {
    for (last, fault) in REFUSED {
        let is_refused = is_refused_long(&rt, rt.alloc(), last, *fault);
        holds_for(&rt, is_refused == Ok(true), last);
    }
}
