ghost use Rattle.std.specs.Prelude.{◌≡◌, [], ◌∷◌, ◌+◌, ◌≤◌, codes, length, IsTrue};
ghost use Rattle.mt_terms.specs.Text.{id_text, is_known_code, line, refused as refused_text};
ghost use Rattle.mt_report.specs.Names.{name_of_code};

use crate::line::write_line;
use itoa::Buffer;
use mt_terms::codes;
use std::marker::Model;

/// The line of a refusal, of at most 128 bytes, without memory of its own.
#[derive(Drop)]
pub struct RefusalLine {
    bytes: [u8; 128],
    len: usize,
}

impl Model for RefusalLine {
    ghost use Rattle.std.specs.Prelude.{ℕ, List, take, ◌≤◌};

    ghost Value = { List ℕ };

    ghost view = { λ l. take l.len l.bytes };

    ghost invariant = { λ l. l.len ≤ 128 };
}

impl RefusalLine {
    /// The bytes of the line, its line feed included.
    pub fn as_bytes(&self) -> &[u8]
        ensures { result.now ≡ self.now }
    {
        &self.bytes[..self.len]
    }
}

/// The name of a refusal's code.
pub fn code_name(code: u16) -> &'static [u8]
    requires { IsTrue (is_known_code code) }
    ensures name { result.now ≡ name_of_code code }
    ensures short { length result.now ≤ 16 }
{
    match code {
        codes::TOO_LARGE => b"TooLarge",
        codes::TWO_MARKS => b"TwoMarks",
        codes::NO_VERSION => b"NoVersion",
        codes::UNKNOWN_KIND => b"UnknownKind",
        codes::FIELD_COUNT => b"FieldCount",
        codes::BAD_ID => b"BadId",
        codes::BAD_QUOTA => b"BadQuota",
        codes::DUPLICATE_ID => b"DuplicateId",
        codes::DUPLICATE_ENTRY => b"DuplicateEntry",
        codes::TOO_MANY => b"TooMany",
        codes::UNKNOWN_APPLICANT => b"UnknownApplicant",
        codes::UNKNOWN_PROGRAM => b"UnknownProgram",
        codes::NOT_REGISTERED => b"NotRegistered",
        codes::OUT_OF_MEMORY => b"OutOfMemory",
        codes::READ_FAULT => b"ReadFault",
        codes::BUDGET_SPENT => b"BudgetSpent",
        _ => unreachable!(),
    }
}

/// An id, or `-` if it is absent.
pub fn id_or_dash(id: &[u8]) -> &[u8]
    ensures text { result.now ≡ id_text id.now }
    ensures short { length id.now ≤ 64 → length result.now ≤ 64 }
{
    if id.is_empty() { b"-" } else { id }
}

// The line of a refusal by its fields after the first three.
fn by_fields<'a>(code: &'a [u8], name: &'a [u8], row: &'a [u8], id: &'a [u8]) -> RefusalLine
    requires { length code.now + length name.now + length row.now + length id.now ≤ 108 }
    ensures { result ≡ line (codes "match" ∷ codes "1" ∷ codes "refused" ∷ code.now ∷ name.now
        ∷ row.now ∷ id.now ∷ []) }
{
    let fields = [b"1".as_slice(), b"refused".as_slice(), code, name, row, id];
    let mut bytes = [0; 128];
    let len = write_line(&mut bytes, b"match", &fields);
    RefusalLine { bytes, len }
}

/// The one line of a refusal. It has the code and its name, the number of the record at fault, or 0 if there is none,
/// and the id at fault. An empty id is absent, and prints as `-`.
pub fn refused(code: u16, row: u64, id: &[u8]) -> RefusalLine
    requires known { IsTrue (is_known_code code) }
    requires short { length id.now ≤ 64 }
    ensures { result ≡ refused_text code row id.now }
{
    let mut of_code = Buffer::new();
    let mut of_row = Buffer::new();
    let code_text = of_code.format(code).as_bytes();
    let row_text = of_row.format(row).as_bytes();
    by_fields(code_text, code_name(code), row_text, id_or_dash(id))
}
