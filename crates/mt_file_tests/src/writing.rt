//! Texts into writers that take little at a time, fail, or take nothing.

use crate::expect::{holds_for, same};
use mt_report::{Drain, put_all};
use mt_samples::devices::{Faltering, Narrow};
use mt_samples::markets::CROSSED_TEXT as TEXT;
use std::alloc::{AllocError, Global};
use std::io::Write;
use std::process::Abort;

// Writes a text: how many bytes are written, whether that is all of it, and how many failures are counted.
fn put<W: Write>(writer: &mut W, text: &[u8]) -> (u64, bool, u64) {
    let mut drain = Drain::new(writer);
    let wrote = put_all(&mut drain, text);
    (wrote.written, wrote.whole, drain.failures())
}

// Whether `taken` has the first `count` bytes of the text, and no more.
fn is_front(taken: &[u8], count: usize) -> bool {
    taken.len() == count && TEXT.starts_with(taken)
}

// Writes the text. The writer has to take its first bytes alone, and none after it failed. Only a text that was taken
// whole is flushed, once. A failure is counted if the text isn't written whole.
fn expect_written(rt: &impl Abort, narrow: Narrow, first: usize, whole: bool) {
    let mut writer = narrow;
    let found = put(&mut writer, TEXT);
    same(rt, found, (first as u64, whole, u64::from(!whole)));
    holds_for(rt, is_front(&writer.taken, first), &first);
    same(rt, writer.flushes, u32::from(first == TEXT.len()));
}

fn narrow(alloc: Global, at_once: usize, room: usize, fails: bool, flush_fails: bool) -> Narrow {
    Narrow {
        at_once,
        room,
        fails,
        flush_fails,
        flushes: 0,
        taken: Vec::new(alloc),
    }
}

// Writers that stop in the text.
fn expect_cut(rt: &impl Abort, alloc: Global, at_once: usize, fails: bool) {
    for room in 0..99 {
        let writer = narrow(alloc, at_once, room, fails, false);
        expect_written(rt, writer, room, false);
    }
}

fn expect_taken_whole(rt: &impl Abort, alloc: Global, at_once: usize, flush_fails: bool) {
    let writer = narrow(alloc, at_once, 99, true, flush_fails);
    expect_written(rt, writer, 99, !flush_fails);
}

#[test]
fn writers_with_some_room(rt: HostRuntime) {
    let alloc = rt.alloc();
    same(&rt, TEXT.len(), 99);
    for at_once in [1, 7, 100] {
        expect_cut(&rt, alloc, at_once, false);
        expect_cut(&rt, alloc, at_once, true);
    }
    for at_once in [1, 7, 98, 99, 100] {
        expect_taken_whole(&rt, alloc, at_once, false);
        expect_taken_whole(&rt, alloc, at_once, true);
    }
}

// Writes nothing and then the text twice, and gives the same of each.
fn put_thrice<W: Write>(writer: &mut W) -> [(u64, bool, u64); 3] {
    let mut drain = Drain::new(writer);
    let nothing = put_all(&mut drain, b"");
    let before = drain.failures();
    let first = put_all(&mut drain, TEXT);
    let between = drain.failures();
    let second = put_all(&mut drain, TEXT);
    [
        (nothing.written, nothing.whole, before),
        (first.written, first.whole, between),
        (second.written, second.whole, drain.failures()),
    ]
}

// Nothing is to be written at first, so the writer isn't asked and is flushed once. A second text through the same drain
// fails, and the drain counts that.
#[test]
fn two_texts_through_one_drain(rt: HostRuntime) {
    let mut writer = narrow(rt.alloc(), 100, 10, false, false);
    let found = put_thrice(&mut writer);
    same(&rt, found, [(0, true, 0), (10, false, 1), (0, false, 2)]);
    same(&rt, writer.taken.as_slice(), b"match,1,pu".as_slice());
    same(&rt, writer.flushes, 1);
}

// A writer that takes seven bytes at a time, and falters once.
fn faltering(alloc: Global, falters_at: u32, fails: bool, flush_fails_at: u32) -> Faltering {
    Faltering {
        at_once: 7,
        falters_at,
        fails,
        flush_fails_at,
        writes: 0,
        flushes: 0,
        taken: Vec::new(alloc),
    }
}

// Writes the text, and expects how often the writer is asked, and how many bytes it takes.
fn expect_asked(
    rt: &impl Abort,
    faltering: Faltering,
    writes: u32,
    flushes: u32,
    taken: usize,
    whole: bool,
) {
    let mut writer = faltering;
    let found = put(&mut writer, TEXT);
    same(rt, found, (taken as u64, whole, u64::from(!whole)));
    same(rt, (writer.writes, writer.flushes), (writes, flushes));
    holds_for(rt, is_front(&writer.taken, taken), &taken);
}

// The text has 99 bytes, so fifteen writes take it.
#[test]
fn a_write_that_falters_is_the_last(rt: HostRuntime) {
    for fails in [false, true] {
        for at in 1..=15u32 {
            let writer = faltering(rt.alloc(), at, fails, 0);
            expect_asked(&rt, writer, at, 0, 7 * (at as usize - 1), false);
        }
        let writer = faltering(rt.alloc(), 16, fails, 0);
        expect_asked(&rt, writer, 15, 1, 99, true);
    }
}

#[test]
fn a_flush_is_made_once(rt: HostRuntime) {
    expect_asked(&rt, faltering(rt.alloc(), 0, true, 1), 15, 1, 99, false);
    expect_asked(&rt, faltering(rt.alloc(), 0, true, 2), 15, 1, 99, true);
}

// A writer that takes all of a long text in one write is asked once.
#[test]
fn a_long_text_is_offered_whole(rt: HostRuntime) -> Result<(), AllocError> {
    let text = vec![in rt.alloc(); b'a'; 1 << 20]?;
    let mut writer = faltering(rt.alloc(), 0, true, 0);
    writer.at_once = 1 << 20;
    same(&rt, put(&mut writer, &text), (1 << 20, true, 0));
    same(&rt, (writer.writes, writer.flushes), (1, 1));
    assert!(rt; writer.taken == text);
    Ok(())
}
