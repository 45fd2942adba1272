ghost use Rattle.std.specs.Prelude.{◌<◌};

use crate::lines::Lines;
use itoa::Buffer;
use mt_report::Drain;
use std::alloc::{AllocError, Global};
use std::io::Write;

/// How many bytes of a field a sentence shows at most.
const SHOWN: usize = 64;

/// What writes sentences on one file, a line each.
#[derive(Drop)]
pub struct Teller<E: Write> {
    lines: Lines<E>,
    file: String,
    is_quiet: bool,
}

impl<E: Write + Drop> Teller<E> {
    /// A writer of sentences about the file with this name. It writes nothing if it is quiet. The error is want of
    /// memory.
    pub fn new(
        alloc: Global,
        drain: Drain<E>,
        file: &str,
        is_quiet: bool,
    ) -> Result<Self, AllocError> {
        Ok(Teller {
            lines: Lines::new(alloc, drain)?,
            file: String::from_str(alloc, file)?,
            is_quiet,
        })
    }
}

impl<E: Write> Teller<E> {
    /// Whether nothing is to be said: it is quiet, or its writer failed.
    pub(crate) fn is_silent(&self) -> bool {
        self.is_quiet || self.lines.has_failed()
    }

    /// Writes the sentences that wait.
    pub fn flush(&mut self) {
        self.lines.flush();
    }

    /// Adds bytes, fewer than a page has room for.
    pub(crate) fn say(&mut self, bytes: &[u8]) {
        self.lines.push(bytes);
    }

    /// Adds a number.
    pub(crate) fn say_number(&mut self, number: u64) {
        let mut digits = Buffer::new();
        self.say(digits.format(number).as_bytes());
    }

    /// Adds a byte of a field: a quote or a backslash after a backslash, and what isn't printable ASCII as an escape.
    fn say_escaped(&mut self, byte: u8) {
        match byte {
            b'"' => self.say(b"\\\""),
            b'\\' => self.say(b"\\\\"),
            b'\t' => self.say(b"\\t"),
            b'\n' => self.say(b"\\n"),
            b'\r' => self.say(b"\\r"),
            b' '..=b'~' => self.say(&[byte]),
            _ => self.say(&[b'\\', b'x', hex_digit(byte / 16), hex_digit(byte % 16)]),
        }
    }

    /// Adds a field in quotes. A long one is cut, and two dots come after it.
    pub(crate) fn say_quoted(&mut self, field: &[u8]) {
        self.say(b"\"");
        for byte in field.iter().take(SHOWN) {
            self.say_escaped(*byte);
        }
        self.say(b"\"");
        if field.len() > SHOWN {
            self.say(b"..");
        }
    }

    /// Begins a sentence on the whole file.
    pub(crate) fn begin(&mut self) {
        self.lines.push(self.file.as_bytes());
        self.say(b": ");
    }

    /// Begins a sentence on the record that begins on this line, or on its field with this number unless that is 0.
    pub(crate) fn begin_at(&mut self, line: u64, field: u64) {
        self.lines.push(self.file.as_bytes());
        self.say(b":");
        self.say_number(line);
        if field > 0 {
            self.say(b":");
            self.say_number(field);
        }
        self.say(b": ");
    }

    /// Ends a sentence.
    pub(crate) fn end(&mut self) {
        self.say(b"\n");
    }
}

/// A digit of a number in base 16.
fn hex_digit(value: u8) -> u8
    requires { value < 16 }
{
    if value < 10 {
        b'0' + value
    } else {
        b'a' + (value - 10)
    }
}
