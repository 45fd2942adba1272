ghost use Rattle.std.specs.Prelude.{◌≡◌, ◌↔◌, false, true, nat_eq, None, Some, IfOk, IsErrOf, OnErr, OnOk, MatchOption};
ghost use Rattle.std.specs.List.{starts_with};
ghost use Rattle.csv.specs.Reading.{ReadRecord, Ready, is_flexible, reader_trim, took_first};
ghost use Rattle.csv.specs.Records.{fields_of};
ghost use Rattle.csv.specs.declared.reader.Trim.TheVariants as trim;
ghost use Rattle.mt_lists.specs.Records.{mark, records_of, rows_of};

use crate::lines::Lines;
use crate::read_row::trimmed_row;
use crate::rows::{Rows, RowsSource};
use csv::{ByteRecord, ErrorKind, Reader, ReaderBuilder};
use mt_flat::FlatLists;
use std::alloc::Global;
use thiserror::Error;

/// Why an input was not split into records.
#[derive(Clone, Copy, Debug, PartialEq, Eq, Error)]
pub enum ListFault {
    /// The input begins with two byte order marks.
    #[error("two byte order marks at the start")]
    TwoMarks,
    /// Memory was refused.
    #[error("out of memory")]
    Memory,
}

// The byte order mark, U+FEFF in UTF-8.
const MARK: [u8; 3] = [0xEF, 0xBB, 0xBF];

/// The records of an input in order, as rows of fields. One byte order mark at its start is dropped, and a second one
/// after it is refused. The rest is read as CSV: commas, double quotes, a doubled quote in quotes for one quote,
/// records of any length, and no header row. Empty lines are skipped. Each row loses the empty fields at its end, and
/// a row with no field left stays. Memory is taken only for a text with a quote.
pub fn records<'t>(alloc: Global, bytes: &'t [u8]) -> Result<Rows<'t>, ListFault>
    ensures rows { IfOk result (λ rows. records_of bytes.now ≡ Some rows) }
    ensures two_marks { IsErrOf result ListFault.TwoMarks ↔ (records_of bytes.now ≡ None) }
{
    let Some(text) = after_mark(bytes) else {
        return Err(ListFault::TwoMarks);
    };
    let source = match Lines::new(text) {
        Some(lines) => RowsSource::Lines(lines),
        None => RowsSource::Read(read_rows(alloc, text)?),
    };
    Ok(Rows::new(source))
}

// The input after the mark at its start, if it has one, or none if a second mark follows.
fn after_mark(bytes: &[u8]) -> Option<&[u8]>
    ensures { MatchOption result (records_of bytes.now ≡ None)
        (λ text. (records_of bytes.now ≡ Some (rows_of text.now)) × (starts_with nat_eq text.now mark ≡ false)) }
{
    let Some(text) = bytes.strip_prefix(MARK.as_slice()) else {
        return Some(bytes);
    };
    if text.starts_with(MARK.as_slice()) {
        return None;
    }
    Some(text)
}

// The rows of a text that has no mark at its start.
fn read_rows(alloc: Global, text: &[u8]) -> Result<Vec<FlatLists<u8>>, ListFault>
    requires { starts_with nat_eq text.now mark ≡ false }
    ensures rows { IfOk result (λ rows. rows.items ≡ rows_of text.now) }
    ensures memory { OnErr result (IsErrOf result ListFault.Memory) }
{
    let mut reader = ReaderBuilder::new()
        .has_headers(false)
        .flexible(true)
        .from_reader(alloc, text);
    let mut raw = ByteRecord::new(alloc);
    let mut rows = Vec::new(alloc);
    while read_record(&mut reader, &mut raw)? {
        let row = trimmed_row(alloc, &raw).map_err(|_| ListFault::Memory)?;
        rows.push(row).map_err(|_| ListFault::Memory)?;
    }
    Ok(rows)
}

// Reads the next record of a text, and says whether there was one. A slice gives its bytes without fail, and
// records may be of any length, so only want of memory ends a read.
fn read_record(reader: &mut Reader<&[u8]>, raw: &mut ByteRecord) -> Result<bool, ListFault>
    requires flexible { is_flexible reader.old ≡ true }
    requires plain { reader_trim reader.old ≡ trim.None }
    requires ready { Ready reader.old }
    ensures reads { IfOk result (λ found. ReadRecord (λ text. Some text.now) reader.old reader.new
        found (fields_of raw.new)) }
    ensures first { OnOk result (took_first reader.new ≡ true) }
    ensures still_flexible { OnOk result (is_flexible reader.new ≡ true) }
    ensures memory { OnErr result (IsErrOf result ListFault.Memory) }
{
    match reader.read_byte_record(raw) {
        Ok(found) => Ok(found),
        Err(error) => match error.kind() {
            ErrorKind::Io(_) | ErrorKind::OutOfMemory => Err(ListFault::Memory),
            _ => unreachable!(),
        },
    }
}
