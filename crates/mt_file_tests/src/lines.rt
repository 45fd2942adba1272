//! The lines on which the records of an input begin.

use crate::expect::holds_for;
use mt_line_numbers::{LineNumbers, laws};

// Inputs, the lines on which their records begin, and the line on which they end.
const LINES: &[(&[u8], &[u64], u64)] = &[
    (b"", &[], 1),
    (b"\r\n\n", &[], 3),
    (b"match,2", &[1], 1),
    (b"match,2\nprogram,P,1\n", &[1, 2], 3),
    // Each line end is one, and empty lines count.
    (b"match,2\r\n\r\n\r\na\r\n,,\r\nb\r\n", &[1, 4, 5, 6], 7),
    (b"match,2\r\ra\n\rb", &[1, 3, 5], 5),
    // A mark comes before the first quote.
    (b"\xEF\xBB\xBF\"match\n\",2\na", &[1, 3], 3),
    // Line ends in quotes count, and end no record.
    (b"a\n\"b\r\n\n\",c\nd", &[1, 2, 5], 5),
    (b"a,\"\n,\"\"\",\"\r\",b\n\rc", &[1, 5], 5),
    (b"a\n\"b\n\nc", &[1, 2], 4),
    // Quotes in a field, doubled ones, and bytes after the last one.
    (b"a\"\n\"b\"\"\n\"\n\"c\"d\"\ne", &[1, 2, 4, 5], 5),
    (b"\"\"\n\"\"\"\"\n,\"\n\"\n", &[1, 2, 3], 5),
];

// Whether the records of an input begin on these lines, if they are asked for in order.
fn has_lines(input: &[u8], lines: &[u64]) -> bool {
    let mut numbers = LineNumbers::new(input);
    for at in 0..lines.len() {
        if numbers.line_of(at as u64 + 1) != lines[at] {
            return false;
        }
    }
    true
}

// Whether record 0, one too many, and the first one after it have these lines.
fn has_end(input: &[u8], end: u64, first: u64) -> bool {
    let mut numbers = LineNumbers::new(input);
    numbers.line_of(0) == 0 && numbers.line_of(100) == end && numbers.line_of(1) == first
}

#[test]
fn lines_of_records(rt: HostRuntime) {
    for (input, lines, end) in LINES {
        holds_for(&rt, has_lines(input, lines), input);
        let first = lines.first().copied().unwrap_or(*end);
        holds_for(&rt, has_end(input, *end, first), input);
    }
    laws::worked_lines();
    laws::splits();
}
