ghost use Rattle.std.specs.Prelude.{◌≡◌, ◌==◌, drop, length};
ghost use Rattle.std.specs.Iterator.{YieldsFirstRef, item_count};

use crate::lines::LineFields;
use crate::read_row::ReadFields;
use mt_flat::FlatLists;
use std::marker::Model;

/// A row: its fields in order, without the empty ones at its end. It is as small as a reference and a length.
#[derive(Drop)]
pub struct Row<'r> {
    source: RowSource<'r>,
}

// Where the fields of a row lie. They are in a line that has lost the commas at its end, or in a table of the fields
// of a record that `csv` has read.
#[derive(Clone, Copy)]
pub(crate) enum RowSource<'r> {
    Line(&'r [u8]),
    Read(&'r FlatLists<u8>),
}

impl<'r> Model for Row<'r> {
    ghost use Rattle.std.specs.Prelude.{List, ℕ};
    ghost use Rattle.mt_lists.specs.Sources.{row_fields};

    ghost Value = { List (List ℕ) };

    ghost view = { λ row. row_fields row.source };
}

impl<'r> Row<'r> {
    ghost use Rattle.mt_lists.specs.Rows.{fields_left};
    ghost use Rattle.mt_lists.specs.Sources.{row_fields};

    // A row whose fields lie there.
    pub(crate) fn new(source: RowSource<'r>) -> Row<'r>
        ensures { result ≡ row_fields source.entry }
    {
        Row { source }
    }

    /// Whether there is no field.
    pub fn is_empty(&self) -> bool
        ensures { result ≡ (length self.now == 0) }
    {
        match self.source {
            RowSource::Line(line) => line.is_empty(),
            RowSource::Read(row) => row.is_empty(),
        }
    }

    /// The fields in turn.
    pub fn fields(&self) -> Fields<'r>
        ensures { fields_left result ≡ self.now }
    {
        let source = match self.source {
            RowSource::Line(line) => FieldsSource::Line(LineFields::new(line)),
            RowSource::Read(row) => FieldsSource::Read(ReadFields::new(row)),
        };
        Fields { source }
    }
}

/// The fields of a row in turn.
#[derive(Clone, Copy)]
pub struct Fields<'r> {
    source: FieldsSource<'r>,
}

// Where the fields come from.
#[derive(Clone, Copy)]
pub(crate) enum FieldsSource<'r> {
    Line(LineFields<'r>),
    Read(ReadFields<'r>),
}

impl<'r> Fields<'r> {
    ghost use Rattle.mt_lists.specs.Rows.{fields_left};

    /// How many fields are left. Those of a line are counted by its commas.
    pub fn len(&self) -> usize
        ensures { result ≡ length (fields_left self.now) }
    {
        match &self.source {
            FieldsSource::Line(fields) => fields.len(),
            FieldsSource::Read(fields) => fields.len(),
        }
    }

    // Goes past some of `count` fields, and gives how many of them are then to be passed.
    fn pass_pieces(&mut self, count: usize) -> usize
        ensures { drop result (fields_left self.new) ≡ drop count (fields_left self.old) }
    {
        match &mut self.source {
            FieldsSource::Line(fields) => fields.pass_pieces(count),
            FieldsSource::Read(_) => count,
        }
    }

    /// Goes past as many fields as `count`, or past all that are left.
    pub fn advance_by(&mut self, count: usize)
        ensures { fields_left self.new ≡ drop count (fields_left self.old) }
    {
        let left = self.pass_pieces(count);
        for _past in 0..left {
            self.next();
        }
    }
}

impl<'r> Iterator for Fields<'r> {
    ghost use Rattle.mt_lists.specs.Rows.{fields_left};

    type Item = &'r [u8];

    ghost next_gives = { YieldsFirstRef fields_left };

    ghost remaining = { item_count fields_left };

    fn next(&mut self) -> Option<&'r [u8]> {
        match &mut self.source {
            FieldsSource::Line(fields) => fields.next(),
            FieldsSource::Read(fields) => fields.next(),
        }
    }
}
