ghost use Rattle.std.specs.Prelude.{◌≡◌, ◌+◌, ◌<◌, ◌^◌, ◌∷◌, ◌==◌, length, false};
ghost use Rattle.mt_line_numbers.specs.LineEnds.{
  FirstLine,
  begins_with_line_end,
  closes_line as closes,
  line_ends,
  without_line_ends,
};
ghost use Rattle.mt_line_numbers.specs.Records.{after_record};

use crate::within::Within;
use memchr::{memchr, memchr2};

/// A place in a text: what comes after it, and the number of its line.
#[derive(Clone, Copy)]
pub(crate) struct Place<'t> {
    pub(crate) rest: &'t [u8],
    pub(crate) line: u64,
    pub ghost few: { line + line_ends rest.now < 2 ^ 64 },
}

impl<'t> Place<'t> {
    // Where the first record of a text begins.
    pub(crate) fn at_start(text: &'t [u8]) -> Place<'t>
        ensures rest { result.rest.now ≡ without_line_ends text.now }
        ensures lines { result.line + line_ends result.rest.now ≡ line_ends text.now + 1 }
    {
        // A slice's length bounds its line ends.
        let _size = text.len();
        let start = Place {
            rest: text,
            line: 1,
        };
        start.past_line_ends()
    }

    // Whether it is the end of the text.
    pub(crate) fn is_at_end(self) -> bool
        ensures { result ≡ (length self.entry.rest.now == 0) }
    {
        self.rest.is_empty()
    }

    // Where the next record begins, from where one begins.
    pub(crate) fn next_record(self) -> Place<'t>
        requires { begins_with_line_end self.rest.now ≡ false }
        ensures rest { result.rest.now ≡ without_line_ends (after_record self.entry.rest.now) }
        ensures lines { result.line + line_ends result.rest.now ≡ self.entry.line + line_ends self.entry.rest.now }
    {
        let (line, rest) = first_line(self.rest);
        match memchr(b'"', line) {
            Some(_) => self.record_end().past_line_ends(),
            None => Place {
                rest,
                line: self.line,
            }
            .past_line_ends(),
        }
    }

    // Where the record ends that begins here: before the line end after it, or at the end of the text.
    fn record_end(self) -> Place<'t>
        requires { begins_with_line_end self.rest.now ≡ false }
        ensures rest { without_line_ends result.rest.now ≡ without_line_ends (after_record self.entry.rest.now) }
        ensures lines { result.line + line_ends result.rest.now ≡ self.entry.line + line_ends self.entry.rest.now }
    {
        let mut here = self;
        let mut within = Within::FieldStart;
        while let Some((byte, rest)) = here.rest.split_first() {
            match within.after(*byte) {
                None => return here,
                Some(next) => within = next,
            }
            here = here.past_byte(*byte, rest);
        }
        here
    }

    // The place after all line ends that come here.
    fn past_line_ends(self) -> Place<'t>
        ensures rest { result.rest.now ≡ without_line_ends self.entry.rest.now }
        ensures lines { result.line + line_ends result.rest.now ≡ self.entry.line + line_ends self.entry.rest.now }
    {
        let mut place = self;
        while let Some((byte, rest)) = place.rest.split_first() {
            if *byte != b'\n' && *byte != b'\r' {
                return place;
            }
            place = place.past_byte(*byte, rest);
        }
        place
    }

    // The place after the byte that comes here.
    fn past_byte(self, byte: u8, rest: &'t [u8]) -> Place<'t>
        requires { self.rest.now ≡ byte ∷ rest.now }
        ensures rest { result.rest.now ≡ rest.entry.now }
        ensures lines { result.line + line_ends result.rest.now ≡ self.entry.line + line_ends self.entry.rest.now }
    {
        if closes_line(byte, rest) {
            Place {
                rest,
                line: self.line + 1,
            }
        } else {
            Place {
                rest,
                line: self.line,
            }
        }
    }
}

// The first line of a text, and the text from its end on.
fn first_line(text: &[u8]) -> (&[u8], &[u8])
    ensures { FirstLine text.now result.0.now result.1.now }
{
    match memchr2(b'\n', b'\r', text) {
        Some(at) => text.split_at(at),
        None => text.split_at(text.len()),
    }
}

// Whether a byte is the last of a line end, by the text after it.
fn closes_line(byte: u8, rest: &[u8]) -> bool
    ensures { result ≡ closes byte rest.now }
{
    match byte {
        b'\n' => true,
        b'\r' => rest.first() != Some(&b'\n'),
        _ => false,
    }
}
