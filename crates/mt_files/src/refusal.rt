ghost use Rattle.std.specs.Prelude.{◌≡◌, [], ◌∷◌, ◌+◌, ◌<◌, ◌≤◌, ◌^◌, codes, if◌then◌else◌, length, IsTrue};
ghost use Rattle.mt_terms.specs.Text.{line, name_among};
ghost use Rattle.mt_report.specs.Drains.{IsWritten, contents_of, failures_of, is_flushed};
ghost use Rattle.mt_files.specs.Refusals.{IsNamedRefusalOf};
ghost use Rattle.mt_files.specs.Text.{is_code_of, refusals, refused_line, source_word};

use crate::source::Source;
use itoa::Buffer;
use mt_match_file::codes as of_match;
use mt_report::{Drain, Ended, code_name as known_name, end, id_or_dash, write_line};
use mt_terms::Refusal;
use std::io::Write;
use std::marker::Model;

/// The line of a refusal of one of two files, of at most 136 bytes, without memory of its own.
#[derive(Drop)]
pub struct FileRefusalLine {
    bytes: [u8; 136],
    len: usize,
}

impl Model for FileRefusalLine {
    ghost use Rattle.std.specs.Prelude.{ℕ, List, take, ◌≤◌};

    ghost Value = { List ℕ };

    ghost view = { λ l. take l.len l.bytes };

    ghost invariant = { λ l. l.len ≤ 136 };
}

impl FileRefusalLine {
    /// The bytes of the line, its line feed included.
    pub fn as_bytes(&self) -> &[u8]
        ensures { result.now ≡ self.now }
    {
        &self.bytes[..self.len]
    }
}

/// The name of a refusal's code.
fn code_name(source: Source, code: u16) -> &'static [u8]
    requires { IsTrue (is_code_of source code) }
    ensures name { result.now ≡ name_among refusals code }
    ensures short { length result.now ≤ 16 }
{
    match code {
        of_match::OTHER_RECORD => b"OtherRecord",
        of_match::OTHER_FIELDS => b"OtherFields",
        of_match::NO_SUCH_APPLICANT => b"NoSuchApplicant",
        of_match::PLACED_TWICE => b"PlacedTwice",
        of_match::NO_SUCH_PROGRAM => b"NoSuchProgram",
        of_match::NOT_PLACED => b"NotPlaced",
        of_match::NO_SUCH_COUPLE => b"NoSuchCouple",
        of_match::ASIDE_TWICE => b"AsideTwice",
        _ => known_name(code),
    }
}

/// The word for a file.
fn source_word(source: Source) -> &'static [u8]
    ensures word { result.now ≡ source_word source }
    ensures short { length result.now ≤ 6 }
{
    match source {
        Source::Market => b"market",
        Source::Match => b"match",
    }
}

/// The line of a refusal by the fields that differ from line to line. They are the first word, the code and its name, the
/// word for the file, the number of the record and the id.
pub fn refusal_line<'a>(
    word: &'a [u8],
    code: &'a [u8],
    name: &'a [u8],
    source: &'a [u8],
    row: &'a [u8],
    id: &'a [u8],
) -> FileRefusalLine
    requires { length word.now + length code.now + length name.now + length source.now
        + length row.now + length id.now ≤ 119 }
    ensures { result ≡ line (word.now ∷ codes "1" ∷ codes "refused" ∷ code.now ∷ name.now
        ∷ source.now ∷ row.now ∷ id.now ∷ []) }
{
    let fields = [
        b"1".as_slice(),
        b"refused".as_slice(),
        code,
        name,
        source,
        row,
        id,
    ];
    let mut bytes = [0; 136];
    let len = write_line(&mut bytes, word, &fields);
    FileRefusalLine { bytes, len }
}

/// The one line of a refusal, which begins with this word. It has the code and its name, the file, and the number of
/// the record at fault, or 0 if there is none. The id at fault comes last. An empty id is absent, and prints as `-`.
pub fn refused(word: &[u8], source: Source, code: u16, row: u64, id: &[u8]) -> FileRefusalLine
    requires word { length word.now ≤ 7 }
    requires known { IsTrue (is_code_of source code) }
    requires short { length id.now ≤ 64 }
    ensures { result ≡ refused_line word.now source code row id.now }
{
    let mut of_code = Buffer::new();
    let mut of_row = Buffer::new();
    let code_text = of_code.format(code).as_bytes();
    let row_text = of_row.format(row).as_bytes();
    refusal_line(
        word,
        code_text,
        code_name(source, code),
        source_word(source),
        row_text,
        id_or_dash(id),
    )
}

/// Writes the one line of a refusal of a file, which begins with this word, and says how that ended.
pub fn refuse<W: Write>(
    drain: &mut Drain<W>,
    word: &[u8],
    source: Source,
    refusal: &Refusal,
) -> Ended
    requires word { length word.now ≤ 7 }
    requires named { IsNamedRefusalOf source refusal.now.code refusal.now.row refusal.now.id }
    requires failures { failures_of drain.old + 1 < 2 ^ 64 }
    ensures code { result.code ≡ refusal.now.code }
    ensures written { IsWritten
        (refused_line word.now source refusal.now.code refusal.now.row refusal.now.id)
        (contents_of W.contents drain.old) (contents_of W.contents drain.new)
        result.written result.whole }
    ensures writer { failures_of drain.new
        ≡ failures_of drain.old + (if result.whole then 0 else 1) }
    ensures flushed { IsTrue result.whole → IsTrue (is_flushed drain.new) }
{
    let line = refused(
        word,
        source,
        refusal.code,
        refusal.row,
        refusal.id.as_bytes(),
    );
    end(drain, refusal.code, line.as_bytes())
}
