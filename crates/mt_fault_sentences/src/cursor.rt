use crate::field::meant;
use mt_lists::{Fields, Row, Rows, RowsIter};
use mt_terms::{LIMITS, LIMITS_2, Limits};

/// One record of a file after another, for sentences. Faults come record by record, and those of a record code by code.
/// So it goes through a record once for each code at most.
#[derive(Clone, Copy)]
pub struct Cursor<'r> {
    rest: RowsIter<'r>,
    is_version_2: bool,
    /// The number of the record at hand, or 0 before the first.
    record: u64,
    /// The fields of the record at hand.
    fields: Option<Fields<'r>>,
    /// Its fields after the first `passed`.
    ahead: Option<Fields<'r>>,
    passed: u64,
}

/// How many records are searched for one that names a version.
const SEARCHED: usize = 100;

/// A record after the first that names a version.
#[derive(Drop)]
pub(crate) struct Later {
    /// Its text.
    pub(crate) line: &'static [u8],
    /// Whether a record of a kind comes before it.
    pub(crate) comes_after_records: bool,
}

/// The text of a row that names a version.
fn version_line(row: &Row<'_>) -> Option<&'static [u8]> {
    let mut fields = row.fields();
    if fields.len() != 2 || fields.next() != Some(b"match".as_slice()) {
        return None;
    }
    match fields.next() {
        Some(b"1") => Some(b"match,1"),
        Some(b"2") => Some(b"match,2"),
        _ => None,
    }
}

/// Whether the first field of a row means a kind.
fn is_of_kind(row: &Row<'_>) -> bool {
    match row.fields().next() {
        Some(word) => meant(word).is_some(),
        None => false,
    }
}

/// Whether the first of some rows that has a field names version 2.
fn is_version_2(rows: RowsIter<'_>) -> bool {
    for row in rows {
        let mut fields = row.fields();
        if fields.next().is_some() {
            return fields.next() == Some(b"2".as_slice());
        }
    }
    false
}

impl<'r> Cursor<'r> {
    /// Before the first of a file's records.
    pub fn new(rows: &'r Rows<'r>) -> Cursor<'r> {
        Cursor {
            rest: rows.iter(),
            is_version_2: is_version_2(rows.iter()),
            record: 0,
            fields: None,
            ahead: None,
            passed: 0,
        }
    }

    /// Goes on to the record with this number, if there is one.
    pub(crate) fn go_to(&mut self, record: u64) {
        for before in self.record..record {
            let Some(row) = self.rest.next() else {
                return;
            };
            self.record = before + 1;
            self.fields = Some(row.fields());
            self.ahead = self.fields;
            self.passed = 0;
        }
    }

    /// How many fields the record at hand has.
    pub(crate) fn field_count(&self) -> usize {
        match self.fields {
            Some(fields) => fields.len(),
            None => 0,
        }
    }

    /// The field with this number, from 1, or nothing if the record at hand hasn't it. It goes on from the field that
    /// was asked for last, unless that one is behind it.
    pub(crate) fn field(&mut self, number: u64) -> &'r [u8] {
        if number <= self.passed {
            self.ahead = self.fields;
            self.passed = 0;
        }
        let Some(mut ahead) = self.ahead else {
            return b"";
        };
        let mut found: &'r [u8] = b"";
        for _ in self.passed..number {
            let Some(field) = ahead.next() else {
                return b"";
            };
            found = field;
        }
        self.ahead = Some(ahead);
        self.passed = number;
        found
    }

    /// One of the first four fields, by its number. It leaves the field that `field` goes on from.
    pub(crate) fn leading(&self, number: usize) -> &'r [u8] {
        let Some(fields) = self.fields else {
            return b"";
        };
        let mut found: &'r [u8] = b"";
        for field in fields.take(number.min(4)) {
            found = field;
        }
        found
    }

    /// The first of the records after that at hand that names a version, if it comes soon.
    pub(crate) fn later_version(&self) -> Option<Later> {
        let mut comes_after_records = meant(self.leading(1)).is_some();
        for row in self.rest.take(SEARCHED) {
            if let Some(line) = version_line(&row) {
                return Some(Later {
                    line,
                    comes_after_records,
                });
            }
            comes_after_records = comes_after_records || is_of_kind(&row);
        }
        None
    }

    /// Whether the file is one of version 2.
    pub(crate) fn is_version_2(&self) -> bool {
        self.is_version_2
    }

    /// The limits of the file's version.
    pub(crate) fn limits(&self) -> Limits {
        if self.is_version_2 { LIMITS_2 } else { LIMITS }
    }

    /// Whether the record at hand is a couple.
    pub(crate) fn is_couple(&self) -> bool {
        self.leading(1) == b"couple".as_slice()
    }

    /// Whether it is a withdrawal. Version 1 has none.
    pub(crate) fn is_withdrawal(&self) -> bool {
        self.is_version_2 && self.leading(1) == b"withdraw".as_slice()
    }

    /// The word for what it registers or withdraws, if it names a kind.
    pub(crate) fn kind(&self) -> &'static [u8] {
        let word = if self.is_withdrawal() {
            self.leading(2)
        } else {
            self.leading(1)
        };
        match word {
            b"program" => b"program",
            b"applicant" => b"applicant",
            b"couple" => b"couple",
            _ => b"record",
        }
    }

    /// The field for its id.
    pub(crate) fn id(&self) -> &'r [u8] {
        if self.is_withdrawal() {
            self.leading(3)
        } else {
            self.leading(2)
        }
    }

    /// The number of the first field of its list or its pairs.
    pub(crate) fn first_listed(&self) -> u64 {
        match self.leading(1) {
            b"applicant" => 3,
            b"couple" => 5,
            _ => 4,
        }
    }
}
