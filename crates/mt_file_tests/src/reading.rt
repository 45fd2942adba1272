//! Bytes to records: reads that fail, limits, and the rows of a file as a spreadsheet writes it.

use crate::expect::{holds_for, same};
use mt_lists::{
    ListFault, ReadEnd, Row, Rows, RowsIter, SourceFault, Tap, laws, read_all, records,
};
use mt_samples::devices::{Endless, Pieces};
use mt_samples::without_couples::SPREADSHEET_EXPORT;
use std::alloc::{AllocError, Global};
use std::io::{ErrorKind, Read};
use std::process::Abort;

// Whether a row has these fields.
fn has_fields(row: &Row<'_>, fields: &[&[u8]]) -> bool {
    let mut left = row.fields();
    for field in fields {
        if left.next() != Some(*field) {
            return false;
        }
    }
    left.next().is_none()
}

// Whether an input has rows of these fields.
fn has_rows(alloc: Global, input: &[u8], expected: &[&[&[u8]]]) -> Result<bool, ListFault> {
    let rows = records(alloc, input)?;
    Ok(are_rows(&rows, expected))
}

fn are_rows(rows: &Rows<'_>, expected: &[&[&[u8]]]) -> bool {
    come(rows.iter(), expected)
}

// Whether these rows come, and no others.
fn come(rows: RowsIter<'_>, expected: &[&[&[u8]]]) -> bool {
    let mut left = rows;
    for fields in expected {
        match left.next() {
            Some(row) if has_fields(&row, fields) => {}
            _ => return false,
        }
    }
    left.next().is_none()
}

// Inputs, and the fields of their rows.
const ROWS: &[(&[u8], &[&[&[u8]]])] = &[
    (
        SPREADSHEET_EXPORT,
        &[
            &[b"match", b"1"],
            &[b"program", b"P1", b"1", b"a2", b"a1"],
            &[b"program", b"P2", b"01", b"a1", b"a2"],
            &[],
            &[b"applicant", b"a1", b"P1", b"P2"],
            &[b"applicant", b"a2", b"P2", b"P1"],
        ],
    ),
    (
        b"match,1\napplicant,\"a\"\"1\"\n",
        &[&[b"match", b"1"], &[b"applicant", b"a\"1"]],
    ),
    (b"\xEF\xBB\xBF", &[]),
    (b"", &[]),
    // Lines end in a line feed, a carriage return or both. A line with no byte is no row, and one of commas is an
    // empty row.
    (
        b"\r\na,b\rc\n\n,,,\r\n;\r\rd",
        &[&[b"a", b"b"], &[b"c"], &[], &[b";"], &[b"d"]],
    ),
];

fn fault_of(alloc: Global, input: &[u8]) -> Option<ListFault> {
    records(alloc, input).err()
}

#[test]
fn spreadsheet_rows(rt: HostRuntime) {
    for (input, expected) in ROWS {
        holds_for(
            &rt,
            has_rows(rt.alloc(), input, expected) == Ok(true),
            input,
        );
    }
    let fault = fault_of(rt.alloc(), b"\xEF\xBB\xBF\xEF\xBB\xBFmatch,1\n");
    same(&rt, fault, Some(ListFault::TwoMarks));
    laws::worked_inputs();
}

// Rows of a text of twelve bytes, up to the first line feed in its second half, and those after it.
const HALVES: (&[u8], &[&[&[u8]]], &[&[&[u8]]]) = (
    b"a,b\nc\n\nd\ne,f",
    &[&[b"a", b"b"], &[b"c"]],
    &[&[b"d"], &[b"e", b"f"]],
);

// Texts without parts: one has a quote, and one no line feed in its second half.
const WHOLE: [&[u8]; 2] = [b"\"a\",b\nc\n\nd\ne,f", b"a,b\nc,d,e,f,g"];

// Whether an input has two parts, if parts are for this many bytes.
fn has_halves(alloc: Global, input: &[u8], bytes: usize) -> Result<bool, ListFault> {
    let rows = records(alloc, input)?;
    Ok(rows.iter().halves(bytes).is_some())
}

fn are_halves(alloc: Global) -> Result<bool, ListFault> {
    let (input, first, second) = HALVES;
    let rows = records(alloc, input)?;
    match rows.iter().halves(input.len()) {
        Some(halves) => Ok(come(halves.0, first) && come(halves.1, second)),
        None => Ok(false),
    }
}

#[test]
fn rows_in_halves(rt: HostRuntime) {
    assert!(rt; are_halves(rt.alloc()) == Ok(true));
    let (input, _, _) = HALVES;
    same(
        &rt,
        has_halves(rt.alloc(), input, input.len() + 1),
        Ok(false),
    );
    for whole in &WHOLE {
        holds_for(&rt, has_halves(rt.alloc(), whole, 0) == Ok(false), whole);
    }
}

// How many fields the long line has. It is longer than a piece whose commas are counted at once.
const FIELDS: u32 = 200;

// A line of fields that are numbered from 0, with this at its start.
fn long_line(alloc: Global, start: &str) -> Result<String, AllocError> {
    let mut line = String::from_str(alloc, start)?;
    for number in 1..FIELDS {
        write!(line, ",f{number}")?;
    }
    Ok(line)
}

// Whether the field after as many others in the first row of an input is this one, or there is none.
fn is_after(rows: &Rows<'_>, count: u32, field: Option<&[u8]>) -> bool {
    let Some(row) = rows.iter().next() else {
        return false;
    };
    let mut fields = row.fields();
    fields.advance_by(count as usize);
    fields.next() == field
}

// Whether each field of that line is the one after as many as its number, and none is after all.
fn are_gone_past(alloc: Global, start: &str) -> Result<bool, AllocError> {
    let line = long_line(alloc, start)?;
    let Ok(rows) = records(alloc, line.as_bytes()) else {
        return Ok(false);
    };
    for number in 0..FIELDS {
        let mut name = String::new(alloc);
        write!(name, "f{number}")?;
        if !is_after(&rows, number, Some(name.as_bytes())) {
            return Ok(false);
        }
    }
    Ok(is_after(&rows, FIELDS, None) && is_after(&rows, FIELDS * 2, None))
}

// Fields of a plain line, and of one that `csv` reads, since it has a quote.
#[test]
fn fields_gone_past(rt: HostRuntime) {
    for start in &["f0", "\"f0\""] {
        holds_for(&rt, are_gone_past(rt.alloc(), start) == Ok(true), start);
    }
}

// Reads twice: what each gives, how many reads are made, and how many of them fail.
fn read_twice(
    source: &mut Pieces<'_>,
    buf: &mut [u8],
) -> ([Result<usize, SourceFault>; 2], u64, u64) {
    let mut tap = Tap::new(source);
    let first = tap.read(buf);
    let second = tap.read(buf);
    ([first, second], tap.reads(), tap.failures())
}

// An interrupted read is not made again by the same call, and the next call goes on.
#[test]
fn interrupted_read_fails(rt: HostRuntime) {
    let mut source = Pieces::new(b"abc", 2, 1, ErrorKind::Interrupted);
    let mut buf = [0u8; 8];
    let found = read_twice(&mut source, &mut buf);
    same(&rt, found, ([Err(SourceFault), Ok(2)], 2, 1));
    same(&rt, source.calls, 2);
    assert!(rt; buf.starts_with(b"ab"));
}

// Reads to the end: how many bytes come, how many reads are made, and how many of them fail.
fn read_whole<R: Read + Drop>(
    alloc: Global,
    reader: R,
    limit: u32,
) -> (Result<usize, ReadEnd>, u64, u64) {
    let mut tap = Tap::new(reader);
    let count = match read_all(alloc, &mut tap, limit as usize) {
        Ok(bytes) => Ok(bytes.len()),
        Err(end) => Err(end),
    };
    (count, tap.reads(), tap.failures())
}

// A read that fails ends the call, and isn't made again, though the reader would go on.
fn expect_last_read(rt: &impl Abort, alloc: Global, at: u32, failure: ErrorKind) {
    let mut source = Pieces::new(b"0123456789", 3, at, failure);
    let ended = read_whole(alloc, &mut source, 10);
    same(rt, ended, (Err(ReadEnd::Fault), u64::from(at), 1));
    same(rt, source.calls, at);
}

#[test]
fn a_read_that_fails_is_the_last(rt: HostRuntime) {
    for at in 1..6 {
        expect_last_read(&rt, rt.alloc(), at, ErrorKind::Interrupted);
        expect_last_read(&rt, rt.alloc(), at, ErrorKind::Other);
    }
}

// A read asks for as many bytes as the buffer holds.
#[test]
fn a_read_fills_the_buffer(rt: HostRuntime) {
    let mut source = Pieces::new(b"0123456789", 100, 0, ErrorKind::Other);
    let mut tap = Tap::new(&mut source);
    let mut buf = [0u8; 8];
    same(&rt, tap.read(&mut buf), Ok(8));
    same(&rt, (source.calls, source.longest), (1, 8));
    assert!(rt; buf == *b"01234567");
}

// Whether an input of ten bytes, `size` of them in each read, is read whole under this limit with no failure.
fn reads_ten(alloc: Global, size: usize, limit: u32) -> Result<bool, ReadEnd> {
    let text = b"0123456789".as_slice();
    let mut tap = Tap::new(Pieces::new(text, size, 0, ErrorKind::Other));
    let bytes = read_all(alloc, &mut tap, limit as usize)?;
    Ok(bytes.as_slice() == text && tap.failures() == 0)
}

#[test]
fn an_input_of_the_limit_and_one_more(rt: HostRuntime) {
    for size in [1, 3, 10, 100] {
        same(&rt, reads_ten(rt.alloc(), size, 10), Ok(true));
        same(&rt, reads_ten(rt.alloc(), size, 9), Err(ReadEnd::TooLarge));
    }
}

#[test]
fn an_input_without_end_and_one_without_a_byte(rt: HostRuntime) {
    let endless = read_whole(rt.alloc(), Endless { size: 1 }, 5);
    same(&rt, endless, (Err(ReadEnd::TooLarge), 6, 0));
    let empty = read_whole(rt.alloc(), b"".as_slice(), 0);
    same(&rt, empty, (Ok(0), 1, 0));
}

// Of a row: whether it is empty, how many fields it has, and how many of them are left once two are taken.
fn counts_of(row: &Row<'_>) -> (bool, usize, usize) {
    let mut left = row.fields();
    left.next();
    left.next();
    (row.is_empty(), row.fields().len(), left.len())
}

fn counts_of_first(alloc: Global, input: &[u8]) -> Result<(bool, usize, usize), ListFault> {
    let rows = records(alloc, input)?;
    match rows.iter().next() {
        Some(row) => Ok(counts_of(&row)),
        None => Ok((true, 0, 0)),
    }
}

// A row of three fields, of which the second is empty. In a file with no quote a row is a line, and in any other one
// it was read by `csv`.
#[test]
fn fields_of_a_row(rt: HostRuntime) {
    for text in [b"a,,bc,,\n".as_slice(), b"\"a\",,bc,,\n".as_slice()] {
        same(
            &rt,
            has_rows(rt.alloc(), text, &[&[b"a", b"", b"bc"]]),
            Ok(true),
        );
        same(&rt, counts_of_first(rt.alloc(), text), Ok((false, 3, 1)));
    }
}
