ghost use Rattle.std.specs.Prelude.{◌≡◌, ◌+◌, ◌<◌, ◌≤◌, ◌^◌, [], ◌∷◌, ◌++◌, drop, false, true, length, IfSome, IsFalse, MatchOption};
ghost use Rattle.std.specs.Iterator.{YieldsFirstRef, item_count};
ghost use Rattle.std.specs.List.{count_by, list_any};
ghost use Rattle.memchr.specs.Find.{IsFirstByte, is_byte};
ghost use Rattle.mt_lists.specs.Lines.{NextLine, ends_line, fields_of_line, fields_of_trimmed, is_comma, is_quote, is_return};
ghost use Rattle.mt_lists.specs.Records.{rows_of, without_trailing_empty};

use memchr::{memchr, memchr2};

/// A text with no double quote, whose rows are its lines.
#[derive(Clone, Copy)]
pub(crate) struct Lines<'t> {
    text: &'t [u8],
    // Whether a carriage return may end a line. A search for the line feed alone is faster.
    may_return: bool,
    pub ghost unquoted: { list_any is_quote text.now ≡ false },
    pub ghost no_return: { IsFalse may_return → list_any is_return text.now ≡ false },
}

impl<'t> Lines<'t> {
    // The lines of a text, if it has no double quote.
    pub(crate) fn new(text: &'t [u8]) -> Option<Lines<'t>>
        ensures { MatchOption result (list_any is_quote text.now ≡ true) (λ lines. lines.text.now ≡ text.now) }
    {
        // Most texts have neither, so one search is enough.
        match memchr2(b'"', b'\r', text) {
            Some(_) => match memchr(b'"', text) {
                Some(_) => None,
                None => Some(Lines {
                    text,
                    may_return: true,
                }),
            },
            None => Some(Lines {
                text,
                may_return: false,
            }),
        }
    }

    // Does nothing. Its contract says that a text has no more rows than bytes.
    pub(crate) fn has_few_rows(self)
        ensures { length (rows_of self.entry.text.now) ≤ 2 ^ 63 }
    {
        let _size = self.text.len();
    }

    // The next line that has a byte, without the commas at its end, and the lines after it.
    pub(crate) fn next_row(self) -> Option<(&'t [u8], Lines<'t>)>
        ensures { MatchOption result (rows_of self.entry.text.now ≡ [])
            (λ next. rows_of self.entry.text.now ≡ fields_of_trimmed next.0.now ∷ rows_of next.1.text.now) }
    {
        let mut left = self;
        while !left.text.is_empty() {
            let (line, after) = left.next_line();
            if !line.is_empty() {
                return Some((trimmed(line), after));
            }
            left = after;
        }
        None
    }

    // The first line of a text, which has a byte, and the lines after it.
    fn next_line(self) -> (&'t [u8], Lines<'t>)
        requires { 0 < length self.text.now }
        ensures { NextLine self.entry.text.now result.0.now result.1.text.now }
    {
        let Lines { text, may_return } = self;
        match self.line_end() {
            Some(at) => {
                let (line, _) = text.split_at(at);
                let (_, text) = text.split_at(at + 1);
                (line, Lines { text, may_return })
            }
            None => {
                let (line, text) = text.split_at(text.len());
                (line, Lines { text, may_return })
            }
        }
    }

    // How many bytes the text has.
    pub(crate) fn len(self) -> usize
        ensures { result ≡ length self.entry.text.now }
    {
        self.text.len()
    }

    // The lines up to the first line feed in the second half of the text, and those after it, if there is one.
    pub(crate) fn halves(self) -> Option<(Lines<'t>, Lines<'t>)>
        ensures { IfSome result (λ h. rows_of self.entry.text.now ≡ rows_of h.0.text.now ++ rows_of h.1.text.now) }
    {
        let Lines { text, may_return } = self;
        let half = text.len() / 2;
        let (_, back) = text.split_at(half);
        let at = memchr(b'\n', back)?;
        let (front, text) = text.split_at(half + at + 1);
        let front = Lines {
            text: front,
            may_return,
        };
        Some((front, Lines { text, may_return }))
    }

    // Where the first line ends.
    fn line_end(self) -> Option<usize>
        ensures { IsFirstByte ends_line self.entry.text.now result }
    {
        if self.may_return {
            memchr2(b'\n', b'\r', self.text)
        } else {
            memchr(b'\n', self.text)
        }
    }
}

// A line without the commas at its end.
fn trimmed(line: &[u8]) -> &[u8]
    ensures { fields_of_trimmed result.now ≡ without_trailing_empty (fields_of_line line.now) }
{
    let mut kept = line;
    while let Some((last, front)) = kept.split_last() {
        if *last != b',' {
            return kept;
        }
        kept = front;
    }
    kept
}

// The longest piece of a line whose commas are counted in one byte.
const PIECE: usize = 255;

// How many commas a piece of a line has. Counts that are bytes are added up by vectors.
fn piece_commas(piece: &[u8]) -> u8
    requires { length piece.now ≤ 255 }
    ensures { result ≡ count_by is_comma piece.now }
{
    let mut count = 0;
    for byte in piece {
        if *byte == b',' {
            count += 1;
        }
    }
    count
}

// How many commas a line has: one less than it has fields.
fn commas(line: &[u8]) -> usize
    ensures fields { result + 1 ≡ length (fields_of_line line.now) }
    ensures few { result < 2 ^ 63 }
{
    let mut count = 0;
    let mut left = line;
    while left.len() > PIECE {
        let (piece, rest) = left.split_at(PIECE);
        count += usize::from(piece_commas(piece));
        left = rest;
    }
    count + usize::from(piece_commas(left))
}

// Goes past pieces of a line, as long as they have fewer commas than fields are to be passed. Gives what is left of the
// line, and how many fields are then to be passed. The first of these may have lost bytes.
fn past_pieces(line: &[u8], count: usize) -> (&[u8], usize)
    ensures { drop result.1 (fields_of_line result.0.now) ≡ drop count (fields_of_line line.now) }
{
    let mut rest = line;
    let mut left = count;
    while rest.len() > PIECE {
        let (piece, after) = rest.split_at(PIECE);
        let passed = usize::from(piece_commas(piece));
        if passed >= left {
            return (rest, left);
        }
        rest = after;
        left -= passed;
    }
    (rest, left)
}

// The place of the first comma of a line. Most fields have a few bytes, and a search by vectors begins slowly.
fn first_comma(line: &[u8]) -> Option<usize>
    ensures { IsFirstByte (is_byte 44) line.now result }
{
    let mut at = 0;
    while at < line.len() {
        if line[at] == b',' {
            return Some(at);
        }
        at += 1;
    }
    None
}

/// The fields of a line in turn.
#[derive(Clone, Copy)]
pub(crate) struct LineFields<'t> {
    rest: Option<&'t [u8]>,
}

impl<'t> LineFields<'t> {
    ghost use Rattle.mt_lists.specs.Rows.{line_fields_left};

    // The fields of a line that has lost the commas at its end.
    pub(crate) fn new(line: &'t [u8]) -> LineFields<'t>
        ensures { line_fields_left result ≡ fields_of_trimmed line.now }
    {
        let rest = if line.is_empty() { None } else { Some(line) };
        LineFields { rest }
    }

    // How many fields are left.
    pub(crate) fn len(&self) -> usize
        ensures { result ≡ length (line_fields_left self.now) }
    {
        match self.rest {
            Some(line) => commas(line) + 1,
            None => 0,
        }
    }

    // Goes past some of `count` fields, and gives how many of them are then to be passed.
    pub(crate) fn pass_pieces(&mut self, count: usize) -> usize
        ensures { drop result (line_fields_left self.new) ≡ drop count (line_fields_left self.old) }
    {
        match self.rest {
            Some(line) => {
                let (rest, left) = past_pieces(line, count);
                self.rest = Some(rest);
                left
            }
            None => count,
        }
    }
}

impl<'t> Iterator for LineFields<'t> {
    ghost use Rattle.mt_lists.specs.Rows.{line_fields_left};

    type Item = &'t [u8];

    ghost next_gives = { YieldsFirstRef line_fields_left };

    ghost remaining = { item_count line_fields_left };

    fn next(&mut self) -> Option<&'t [u8]> {
        let rest = self.rest?;
        match first_comma(rest) {
            Some(at) => {
                let (field, _) = rest.split_at(at);
                let (_, after) = rest.split_at(at + 1);
                self.rest = Some(after);
                Some(field)
            }
            None => {
                self.rest = None;
                Some(rest)
            }
        }
    }
}
