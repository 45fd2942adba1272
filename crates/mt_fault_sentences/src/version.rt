use crate::cursor::{Cursor, Later};
use crate::field::{
    QUOTED, has_mark_before, is_comment, is_from_quotes, meant, separators, without_mark,
};
use crate::shape::say_meant;
use crate::teller::Teller;
use std::io::Write;

/// Says what is in the place of the version, and what to do.
pub(crate) fn tell_version<E: Write>(teller: &mut Teller<E>, cursor: &Cursor<'_>) {
    let first = cursor.leading(1);
    if is_utf_16(first) {
        return teller.say(b"the text is UTF-16, or no text: save the file as UTF-8");
    }
    match cursor.later_version() {
        Some(later) => tell_later(teller, first, &later),
        None => tell_first(teller, cursor, first),
    }
}

/// Whether a field begins with a byte order mark of UTF-16, or has a byte 0.
fn is_utf_16(field: &[u8]) -> bool {
    field.contains(&0) || field.starts_with(&[0xFF, 0xFE]) || field.starts_with(&[0xFE, 0xFF])
}

/// Says what to do if a later record names the version.
fn tell_later<E: Write>(teller: &mut Teller<E>, first: &[u8], later: &Later) {
    teller.say_quoted(first);
    teller.say(b" comes before the line ");
    teller.say(later.line);
    if later.comes_after_records {
        teller.say(b": move that line to the start of the file");
    } else {
        teller.say(b": remove the lines before it");
    }
}

/// Says what to do about the first record, whose first field this is.
fn tell_first<E: Write>(teller: &mut Teller<E>, cursor: &Cursor<'_>, first: &[u8]) {
    let fields = cursor.field_count();
    let second = cursor.leading(2);
    if is_from_quotes(first) {
        teller.say_quoted(first);
        teller.say(b" comes first: ");
        teller.say(QUOTED);
    } else if without_mark(first)
        .trim_ascii()
        .eq_ignore_ascii_case(b"match")
    {
        tell_match(teller, first, second, fields);
    } else if second.trim_ascii() == b"match".as_slice() {
        teller.say_quoted(first);
        teller.say(b" comes before match: remove the column before the kind");
    } else {
        tell_other(teller, first, fields);
    }
}

/// Says what is wrong with a first record that has match, perhaps with a mark, blanks or capital letters.
fn tell_match<E: Write>(teller: &mut Teller<E>, first: &[u8], second: &[u8], fields: usize) {
    if first != b"match".as_slice() {
        teller.say_quoted(first);
        teller.say(b" isn't match: ");
        if has_mark_before(first) {
            teller.say(b"remove the byte order mark before it");
        } else {
            say_meant(teller, first, b"match");
        }
    } else if fields > 2 {
        teller.say(b"is this a match that nrmatch wrote? If it is a market, write match,2 alone: ");
        teller.say(b"match has ");
        teller.say_number(fields as u64);
        teller.say(b" fields");
    } else if fields < 2 {
        teller.say(b"match has no version: write match,2");
    } else {
        tell_number(teller, second);
    }
}

fn tell_number<E: Write>(teller: &mut Teller<E>, number: &[u8]) {
    let trimmed = number.trim_ascii();
    teller.say_quoted(number);
    if trimmed == b"1".as_slice() || trimmed == b"2".as_slice() {
        teller.say(b" is no version: remove the blank beside the number");
    } else {
        teller.say(b" is no version: write match,2");
    }
}

/// Says what to do about a first record without match.
fn tell_other<E: Write>(teller: &mut Teller<E>, first: &[u8], fields: usize) {
    if let Some(kind) = meant(first) {
        return tell_none(teller, first, kind);
    }
    match separators(first) {
        Some(names) if fields == 1 && is_row_by(first, names) => {
            teller.say(b"one field, ");
            teller.say_quoted(first);
            teller.say(b": are the fields separated by ");
            teller.say(names);
            teller.say(b"? Write commas");
        }
        _ => tell_extra(teller, first, fields),
    }
}

/// Whether a field is a row with these in place of commas. A row of words may be a title.
fn is_row_by(field: &[u8], names: &[u8]) -> bool {
    let text = field.trim_ascii();
    names != b"blanks".as_slice()
        || match text.iter().position(|byte| *byte == b' ') {
            Some(end) => is_known(&text[..end]),
            None => false,
        }
}

/// Whether a word is match or a kind, but for capital letters.
fn is_known(word: &[u8]) -> bool {
    word.eq_ignore_ascii_case(b"match") || meant(word).is_some()
}

/// Says that no version comes before a record of this kind, and how to write its first field.
fn tell_none<E: Write>(teller: &mut Teller<E>, first: &[u8], kind: &'static [u8]) {
    teller.say(b"the version is missing: begin the file with the line match,2");
    if first != kind {
        teller.say(b", and ");
        say_meant(teller, first, kind);
    }
}

/// Says that a first record doesn't belong to the file.
fn tell_extra<E: Write>(teller: &mut Teller<E>, first: &[u8], fields: usize) {
    teller.say_quoted(first);
    if is_comment(first) {
        teller.say(b" is a comment: remove it");
    } else if first.trim_ascii().is_empty() && fields == 1 {
        teller.say(b" is a line of blanks: remove it");
    } else {
        teller.say(b" comes first: is this a header row? Remove it");
    }
    teller.say(b", and begin the file with the line match,2");
}
