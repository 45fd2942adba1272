ghost use Rattle.std.specs.Prelude.{◌≡◌, ◌≤◌, ◌^◌, ◌++◌, length, IfSome};
ghost use Rattle.std.specs.Iterator.{YieldsFirst, item_count};

use crate::lines::Lines;
use crate::row::{Row, RowSource};
use mt_flat::FlatLists;
use std::marker::Model;

/// The rows of an input. The rows of a text without a quote are its lines, which are cut as they are lent. Those of
/// any other text are what `csv` has read.
pub struct Rows<'t> {
    source: RowsSource<'t>,
}

impl Drop for Rows<'_> {
    fn drop(self) {
        let Rows { source: _ } = self;
    }
}

// Where the rows lie.
#[derive(Drop)]
pub(crate) enum RowsSource<'t> {
    Lines(Lines<'t>),
    Read(Vec<FlatLists<u8>>),
}

impl<'t> Model for Rows<'t> {
    ghost use Rattle.std.specs.Prelude.{List, ℕ};
    ghost use Rattle.mt_lists.specs.Sources.{all_rows};

    ghost Value = { List (List (List ℕ)) };

    ghost view = { λ rows. all_rows rows.source };
}

impl<'t> Rows<'t> {
    ghost use Rattle.mt_lists.specs.Rows.{rows_left};
    ghost use Rattle.mt_lists.specs.Sources.{all_rows};

    // The rows that lie there.
    pub(crate) fn new(source: RowsSource<'t>) -> Rows<'t>
        ensures { result ≡ all_rows source.entry }
    {
        Rows { source }
    }

    /// The rows in turn.
    pub fn iter(&self) -> RowsIter<'_>
        ensures rows { rows_left result ≡ self.now }
        ensures few { length self.now ≤ 2 ^ 63 }
    {
        let rest = match &self.source {
            RowsSource::Lines(lines) => {
                lines.has_few_rows();
                RowsRest::Lines(*lines)
            }
            RowsSource::Read(rows) => RowsRest::Read(rows.as_slice()),
        };
        RowsIter { rest }
    }
}

/// The rows of an input in turn.
#[derive(Clone, Copy)]
pub struct RowsIter<'r> {
    rest: RowsRest<'r>,
}

// The rows that have yet to come.
#[derive(Clone, Copy)]
pub(crate) enum RowsRest<'r> {
    Lines(Lines<'r>),
    Read(&'r [FlatLists<u8>]),
}

impl<'r> RowsIter<'r> {
    ghost use Rattle.mt_lists.specs.Rows.{rows_left};

    /// The first rows and the others, if they are the lines of a text with at least `bytes` bytes. Each part has about half
    /// of these. A text whose second half has no line feed has no parts.
    pub fn halves(self, bytes: usize) -> Option<(RowsIter<'r>, RowsIter<'r>)>
        ensures { IfSome result (λ h. rows_left self.entry ≡ rows_left h.0 ++ rows_left h.1) }
    {
        match self.rest {
            RowsRest::Lines(lines) => {
                if lines.len() < bytes {
                    return None;
                }
                let (front, back) = lines.halves()?;
                let front = RowsIter {
                    rest: RowsRest::Lines(front),
                };
                let back = RowsIter {
                    rest: RowsRest::Lines(back),
                };
                Some((front, back))
            }
            RowsRest::Read(_) => None,
        }
    }
}

impl<'r> Iterator for RowsIter<'r> {
    ghost use Rattle.mt_lists.specs.Rows.{rows_left};

    type Item = Row<'r>;

    ghost next_gives = { YieldsFirst rows_left };

    ghost remaining = { item_count rows_left };

    fn next(&mut self) -> Option<Row<'r>> {
        match self.rest {
            RowsRest::Lines(lines) => {
                let (line, after) = lines.next_row()?;
                self.rest = RowsRest::Lines(after);
                Some(Row::new(RowSource::Line(line)))
            }
            RowsRest::Read(rows) => {
                let (row, after) = rows.split_first()?;
                self.rest = RowsRest::Read(after);
                Some(Row::new(RowSource::Read(row)))
            }
        }
    }
}
