//! The calls on bytes, records and words, and those on a roster alone.

use mt_args::{AskEnd, Asked, asked};
use mt_hold::Hold;
use mt_lists::{ListFault, ReadEnd, Tap, read_all, records};
use mt_market::Roster;
use mt_ranks::Ranks;
use mt_samples::markets::{CHAIN, SampleError, roster_of};
use mt_samples::tables::with_ranks;
use mt_terms::{AppNo, LIMITS, ProgNo};
use std::alloc::{AllocError, Global};
use std::thread::Threads;

/// Whether the bytes of a file are read.
pub fn reads(alloc: Global) -> Result<bool, SampleError> {
    match read_all(alloc, &mut Tap::new(CHAIN), LIMITS.bytes) {
        Ok(bytes) => Ok(bytes.as_slice() == CHAIN),
        Err(ReadEnd::Memory) => Err(SampleError::Memory),
        Err(ReadEnd::TooLarge | ReadEnd::Fault) => Ok(false),
    }
}

/// Whether a file with a quote has these rows.
pub fn splits(alloc: Global) -> Result<bool, SampleError> {
    match records(alloc, b"match,1\n\"program\",P,0\n") {
        Ok(rows) => {
            let mut left = rows.iter();
            let lengths = [
                left.next().map_or(0, |row| row.fields().len()),
                left.next().map_or(0, |row| row.fields().len()),
            ];
            Ok(lengths == [2, 3] && left.next().is_none())
        }
        Err(ListFault::Memory) => Err(SampleError::Memory),
        Err(ListFault::TwoMarks) => Ok(false),
    }
}

// Words that ask for a run.
fn words(alloc: Global) -> Result<Vec<String>, AllocError> {
    let mut words = Vec::new(alloc);
    for word in [
        "--workers",
        "2",
        "--budget=7",
        "--orders=3",
        "--set-aside",
        "file",
    ] {
        words.push(String::from_str(alloc, word)?)?;
    }
    Ok(words)
}

/// Whether the words are taken.
pub fn asks(alloc: Global) -> Result<bool, SampleError> {
    let words = words(alloc)?;
    match asked(alloc, words.as_slice()) {
        Ok(
            Asked::Run {
                file,
                options,
                orders,
                set_aside,
            },
        ) => {
            let limits = options.workers == 2 && options.budget == 7;
            Ok(limits && orders == 3 && set_aside && file.is_some())
        }
        Ok(Asked::Help(_) | Asked::Version(_)) | Err(AskEnd::Usage(_)) => Ok(false),
        Err(AskEnd::Memory) => Err(SampleError::Memory),
    }
}

/// Whether a holding that was opened has received nothing.
pub fn holds(alloc: Global) -> Result<bool, SampleError> {
    let hold = Hold::open(alloc, 2, 100)?;
    Ok(hold.count() == 0 && !hold.received(99))
}

// Whether a roster is that of the chain.
fn is_of_chain(roster: &Roster) -> bool {
    if roster.applicants() != 3 || roster.programs() != 2 {
        return false;
    }
    roster.program_list(ProgNo(0)).len() == 3
        && roster.single_list(AppNo(2)).len() == 1
        && roster.applicant_id(AppNo(1)) == b"a2".as_slice()
}

/// Whether a file is registered.
pub fn registers<T: Threads + Sync>(rt: &T, alloc: Global) -> Result<bool, SampleError> {
    let roster = roster_of(rt, alloc, CHAIN)?;
    Ok(is_of_chain(&roster))
}

// Whether rank tables are those of the chain.
fn are_of_chain(ranks: &Ranks) -> bool {
    if ranks.applicants() != 3 || ranks.programs() != 2 {
        return false;
    }
    ranks.live(AppNo(0)).len() == 2 && ranks.rank(ProgNo(0), AppNo(0)) == Some(2)
}

/// Whether the rank tables of a roster are made.
pub fn ranks<T: Threads + Sync>(rt: &T, alloc: Global) -> Result<bool, SampleError> {
    with_ranks(rt, alloc, CHAIN, |_, ranks| Ok(are_of_chain(ranks)))
}
