//! Whole runs: one for each exit, the same text for all workers and pieces, and devices that fail.
ghost use Rattle.std.specs.Prelude.{◌≤◌};

use crate::expect::same_for;
use mt_lists::Tap;
use mt_report::Drain;
use mt_run::{Ended, Options, run};
use mt_samples::devices::{Endless, Narrow, Pieces};
use mt_samples::large::{waiting_singles, waiting_singles_text};
use mt_samples::markets::{
    CHAIN, CHAIN_TEXT, CROSSED, CROSSED_TEXT, HALF_PAIR, HALF_PAIR_TEXT, THREE_COUPLES,
    THREE_COUPLES_TEXT,
};
use std::alloc::{AllocError, AllocGlobal, Global};
use std::io::{ErrorKind, Read};
use std::process::Abort;
use std::sync::Wait;
use std::thread::Threads;

/// The options of a command line that names none.
const USUAL: Options = Options {
    workers: 4,
    budget: 1_000_000,
};

const READ_FAULT: &[u8] = b"match,1,refused,31,ReadFault,0,-\n";

// A writer with room for `room` bytes.
fn narrow(alloc: Global, at_once: usize, room: usize, fails: bool) -> Narrow {
    Narrow {
        at_once,
        room,
        fails,
        flush_fails: false,
        flushes: 0,
        taken: Vec::new(alloc),
    }
}

// The exit status, once the code is seen to be one of those that there are.
fn status_of(rt: &impl Abort, ended: &Ended) -> u8 {
    assert!(rt; matches!(ended.code, 0 | 10..=22 | 30 | 31 | 41));
    ended.status()
}

// How a run ends that writes there, and how often the writer fails.
fn run_into<R: Read + Drop>(
    rt: &(impl AllocGlobal + Threads + Wait + Sync),
    reader: R,
    writer: &mut Narrow,
    options: Options,
) -> (Ended, u64)
    requires { (1 ≤ options.workers) × (options.workers ≤ 64) }
{
    let mut tap = Tap::new(reader);
    let mut drain = Drain::new(writer);
    let ended = run(rt, rt.alloc(), &mut tap, &mut drain, options);
    (ended, drain.failures())
}

// Expects a run to end with this code and this exit status, and to write this text whole.
fn expect_end<R: Read + Drop>(
    rt: &(impl Abort + AllocGlobal + Threads + Wait + Sync),
    reader: R,
    options: Options,
    code: u16,
    status: u8,
    text: &[u8],
)
    requires { (1 ≤ options.workers) × (options.workers ≤ 64) }
{
    let mut writer = narrow(rt.alloc(), usize::MAX, usize::MAX, false);
    let (ended, failures) = run_into(rt, reader, &mut writer, options);
    same_for(rt, writer.taken.as_slice(), text, options);
    same_for(rt, (failures, writer.flushes), (0, 1), options);
    let wanted = Ended {
        code,
        written: text.len() as u64,
        whole: true,
    };
    same_for(rt, &ended, &wanted, options);
    same_for(rt, status_of(rt, &ended), status, options);
}

// Expects a run into this writer to write only these bytes of a text, and to end with this code.
fn expect_cut(
    rt: &(impl Abort + AllocGlobal + Threads + Wait + Sync),
    input: &[u8],
    narrow: Narrow,
    code: u16,
    taken: &[u8],
) {
    let mut writer = narrow;
    let (ended, failures) = run_into(rt, input, &mut writer, USUAL);
    same_for(rt, writer.taken.as_slice(), taken, failures);
    same_for(rt, failures, 1, taken);
    let wanted = Ended {
        code,
        written: taken.len() as u64,
        whole: false,
    };
    same_for(rt, &ended, &wanted, taken);
    same_for(rt, status_of(rt, &ended), 5, taken);
}

#[test]
fn each_exit(rt: HostRuntime) {
    expect_end(&rt, CROSSED, USUAL, 0, 0, CROSSED_TEXT);
    let no_kind = b"match,1\nmatch,1\n".as_slice();
    expect_end(
        &rt,
        no_kind,
        USUAL,
        13,
        2,
        b"match,1,refused,13,UnknownKind,2,-\n",
    );
    let no_round = Options {
        workers: 4,
        budget: 3,
    };
    expect_end(
        &rt,
        HALF_PAIR,
        no_round,
        41,
        3,
        b"match,1,refused,41,BudgetSpent,0,-\n",
    );
    let without_memory = Ended {
        code: 30,
        written: 35,
        whole: true,
    };
    same_for(&rt, status_of(&rt, &without_memory), 4, 30);
    let pieces = Pieces::new(CROSSED, 100, 2, ErrorKind::Other);
    expect_end(&rt, pieces, USUAL, 31, 5, READ_FAULT);
    expect_cut(
        &rt,
        CROSSED,
        narrow(rt.alloc(), 100, 10, true),
        0,
        b"match,1,pu",
    );
}

// Expects this text with this number of workers, read whole and in pieces of one byte.
fn expect_with(
    rt: &(impl Abort + AllocGlobal + Threads + Wait + Sync),
    input: &[u8],
    text: &[u8],
    workers: u32,
)
    requires { (1 ≤ workers) × (workers ≤ 64) }
{
    let options = Options {
        workers,
        budget: 1_000_000,
    };
    expect_end(rt, input, options, 0, 0, text);
    let pieces = Pieces::new(input, 1, 0, ErrorKind::Other);
    expect_end(rt, pieces, options, 0, 0, text);
}

fn expect_same(rt: &(impl Abort + AllocGlobal + Threads + Wait + Sync), input: &[u8], text: &[u8]) {
    expect_with(rt, input, text, 1);
    expect_with(rt, input, text, 2);
    expect_with(rt, input, text, 8);
    expect_with(rt, input, text, 64);
}

#[test]
fn workers_and_pieces_change_nothing(rt: HostRuntime) -> Result<(), AllocError> {
    expect_same(&rt, CHAIN, CHAIN_TEXT);
    expect_same(&rt, THREE_COUPLES, THREE_COUPLES_TEXT);
    expect_same(&rt, HALF_PAIR, HALF_PAIR_TEXT);
    let input = waiting_singles(rt.alloc())?;
    let text = waiting_singles_text(rt.alloc())?;
    expect_same(&rt, input.as_bytes(), text.as_bytes());
    Ok(())
}

// The input has 84 bytes: twelve reads of seven, and one that finds the end.
#[test]
fn each_read_fails(rt: HostRuntime) {
    assert!(rt; CROSSED.len() == 84);
    for failure in [ErrorKind::Other, ErrorKind::Interrupted] {
        for k in 1..14 {
            let mut pieces = Pieces::new(CROSSED, 7, k, failure);
            expect_end(&rt, &mut pieces, USUAL, 31, 5, READ_FAULT);
            same_for(&rt, pieces.calls, k, k);
        }
        let pieces = Pieces::new(CROSSED, 7, 14, failure);
        expect_end(&rt, pieces, USUAL, 0, 0, CROSSED_TEXT);
    }
}

// 64 MiB are the most that an input may have: 1,048,576 reads of 64 bytes, and one more.
#[test]
fn a_reader_without_end(rt: HostRuntime) {
    let mut tap = Tap::new(Endless { size: 64 });
    let mut writer = narrow(rt.alloc(), 100, 100, false);
    let mut drain = Drain::new(&mut writer);
    let ended = run(&rt, rt.alloc(), &mut tap, &mut drain, USUAL);
    same_for(&rt, (ended.code, tap.failures()), (10, 0), tap.reads());
    assert!(rt; tap.reads() <= 1_048_577);
    let text = b"match,1,refused,10,TooLarge,0,-\n".as_slice();
    same_for(&rt, writer.taken.as_slice(), text, ended.code);
}

#[test]
fn writers_with_too_little_room(rt: HostRuntime) {
    assert!(rt; CROSSED_TEXT.len() == 99);
    for fails in [false, true] {
        for at_once in [7, 100] {
            for room in 0..99 {
                let writer = narrow(rt.alloc(), at_once, room, fails);
                expect_cut(&rt, CROSSED, writer, 0, &CROSSED_TEXT[..room]);
            }
        }
        expect_cut(&rt, b"", narrow(rt.alloc(), 100, 5, fails), 12, b"match");
    }
}

#[test]
fn a_flush_that_fails(rt: HostRuntime) {
    let writer = Narrow {
        at_once: 100,
        room: 100,
        fails: false,
        flush_fails: true,
        flushes: 0,
        taken: Vec::new(rt.alloc()),
    };
    expect_cut(&rt, CROSSED, writer, 0, CROSSED_TEXT);
}
