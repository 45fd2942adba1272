ghost use Rattle.std.specs.Prelude.{◌≡◌, ◌<◌, ◌≤◌, [], length, slice_index_or, take, IfOk};
ghost use Rattle.std.specs.Iterator.{YieldsFirstRef, item_count};
ghost use Rattle.csv.specs.Records.{fields_of};
ghost use Rattle.mt_lists.specs.Records.{without_trailing_empty};

use csv::ByteRecord;
use mt_flat::FlatLists;
use std::alloc::{AllocError, Global};

/// The fields of a record that `csv` has read, without the empty ones at its end. Their bytes lie in one block, and the
/// places where they end in another. The error is want of memory.
pub(crate) fn trimmed_row(alloc: Global, raw: &ByteRecord) -> Result<FlatLists<u8>, AllocError>
    ensures { IfOk result (λ row. row ≡ without_trailing_empty (fields_of raw.now)) }
{
    let kept = kept_fields(raw);
    let mut row = FlatLists::with_capacity(alloc, kept, raw.as_slice().len())?;
    for i in 0..kept {
        row.push_list(field(raw, i))?;
    }
    Ok(row)
}

// How many fields stay without the empty ones at the end.
fn kept_fields(raw: &ByteRecord) -> usize
    ensures within { result ≤ length (fields_of raw.now) }
    ensures kept { take result (fields_of raw.now) ≡ without_trailing_empty (fields_of raw.now) }
{
    let mut kept = raw.len();
    while kept > 0 && field(raw, kept - 1).is_empty() {
        kept -= 1;
    }
    kept
}

// The field of a record at a place from 0.
fn field(raw: &ByteRecord, i: usize) -> &[u8]
    requires { i < length (fields_of raw.now) }
    ensures { result.now ≡ slice_index_or (fields_of raw.now) i [] }
{
    raw.get(i).unwrap()
}

/// The fields of such a row in turn.
#[derive(Clone, Copy)]
pub(crate) struct ReadFields<'r> {
    row: &'r FlatLists<u8>,
    at: usize,
}

impl<'r> ReadFields<'r> {
    ghost use Rattle.mt_lists.specs.Rows.{read_fields_left};

    // All fields of a row.
    pub(crate) fn new(row: &'r FlatLists<u8>) -> ReadFields<'r>
        ensures { read_fields_left result ≡ row.now }
    {
        ReadFields { row, at: 0 }
    }

    // How many fields are left.
    pub(crate) fn len(&self) -> usize
        ensures { result ≡ length (read_fields_left self.now) }
    {
        self.row.len().saturating_sub(self.at)
    }
}

impl<'r> Iterator for ReadFields<'r> {
    ghost use Rattle.mt_lists.specs.Rows.{read_fields_left};

    type Item = &'r [u8];

    ghost next_gives = { YieldsFirstRef read_fields_left };

    ghost remaining = { item_count read_fields_left };

    fn next(&mut self) -> Option<&'r [u8]> {
        if self.at >= self.row.len() {
            return None;
        }
        let field = self.row.list(self.at);
        self.at += 1;
        Some(field)
    }
}
