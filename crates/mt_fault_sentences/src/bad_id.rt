use crate::cursor::Cursor;
use crate::field::{QUOTED, has_accent, is_from_quotes, unseen};
use crate::teller::Teller;
use mt_ids::{is_dash, is_id};
use mt_terms::LIMITS_2;
use std::io::Write;

/// Says why a field is no id, and what to write.
pub(crate) fn tell_bad_id<E: Write>(teller: &mut Teller<E>, cursor: &mut Cursor<'_>, number: u64) {
    let is_listed = number >= cursor.first_listed();
    let is_of_pair = is_listed && cursor.is_couple();
    let field = cursor.field(number);
    if field.is_empty() {
        teller.say(b"the field is empty: ");
        say_missing(teller, cursor, is_listed, is_of_pair);
    } else if is_dash(field) {
        tell_dash(teller, cursor, is_listed, is_of_pair);
    } else if field.trim_ascii().is_empty() {
        teller.say_quoted(field);
        teller.say(b" is no id: ");
        say_missing(teller, cursor, is_listed, is_of_pair);
    } else {
        teller.say_quoted(field);
        match field.iter().find(|byte| !is_id_byte(**byte)) {
            Some(_) => tell_bytes(teller, field),
            None => tell_long(teller, cursor, field),
        }
    }
}

fn say_missing<E: Write>(
    teller: &mut Teller<E>,
    cursor: &Cursor<'_>,
    is_listed: bool,
    is_of_pair: bool,
) {
    teller.say(match (is_listed, is_of_pair, cursor.is_version_2()) {
        (false, _, _) => b"write the id".as_slice(),
        (_, true, true) => b"write a program of the pair, or - for none".as_slice(),
        (_, true, false) => b"write a program of the pair".as_slice(),
        _ => b"remove it with its comma, or write an id".as_slice(),
    });
}

fn tell_dash<E: Write>(
    teller: &mut Teller<E>,
    cursor: &Cursor<'_>,
    is_listed: bool,
    is_of_pair: bool,
) {
    teller.say(match (is_listed, is_of_pair, cursor.is_version_2()) {
        (false, _, _) => b"- is no id: write the id".as_slice(),
        (_, true, true) => {
            b"both places of the pair are -: write a program for one, or remove the pair".as_slice()
        }
        (_, true, false) => {
            b"a - for no place needs version 2: begin the file with the line match,2".as_slice()
        }
        _ => b"- is no id: remove it with its comma, or write an id".as_slice(),
    });
}

/// Whether a byte may be in an id.
fn is_id_byte(byte: u8) -> bool {
    byte == b'-' || is_id(1, &[byte])
}

fn tell_bytes<E: Write>(teller: &mut Teller<E>, field: &[u8]) {
    teller.say(b" is no id: ");
    if is_from_quotes(field) {
        return teller.say(QUOTED);
    }
    let inner = field.trim_ascii();
    let wrong = inner.iter().find(|byte| !is_id_byte(**byte));
    if inner.len() < field.len() {
        say_ends(teller, field);
        if wrong.is_some() {
            teller.say(b", and ");
        }
    }
    if let Some(byte) = wrong {
        say_inner(teller, inner, *byte);
    }
}

/// Says at which ends of a field blanks are.
fn say_ends<E: Write>(teller: &mut Teller<E>, field: &[u8]) {
    let is_at_end = field.trim_ascii_end().len() < field.len();
    let is_at_start = field.trim_ascii_start().len() < field.len();
    teller.say(match (is_at_start, is_at_end) {
        (true, true) => b"remove the blanks at both ends".as_slice(),
        (true, false) => b"remove the blank at its start".as_slice(),
        _ => b"remove the blank at its end".as_slice(),
    });
}

/// Says what to do about the bytes between the blanks at the ends of a field. One of them may be in no id.
fn say_inner<E: Write>(teller: &mut Teller<E>, inner: &[u8], byte: u8) {
    if let Some(between) = inner.iter().find(|byte| is_between(**byte)) {
        teller.say(b"write one id without ");
        teller.say_quoted(&[*between]);
        return teller.say(b", or separate two ids by a comma");
    }
    if let Some(name) = unseen(inner) {
        teller.say(b"remove the ");
        return teller.say(name);
    }
    if has_accent(inner) {
        return teller.say(b"write ASCII letters, digits and ._:- alone, without accents");
    }
    if byte <= b'~' {
        teller.say(b"remove ");
        teller.say_quoted(&[byte]);
        teller.say(b"; ");
    }
    teller.say(b"an id has ASCII letters, digits and ._:- alone");
}

/// Whether a byte may have been written between two ids.
fn is_between(byte: u8) -> bool {
    byte == b' ' || byte == b';' || byte == b'|' || byte == b'\t'
}

fn tell_long<E: Write>(teller: &mut Teller<E>, cursor: &Cursor<'_>, field: &[u8]) {
    teller.say(b" has ");
    teller.say_number(field.len() as u64);
    teller.say(b" bytes: shorten the id to ");
    teller.say_number(cursor.limits().id_bytes as u64);
    if !cursor.is_version_2() {
        teller.say(b", or to ");
        teller.say_number(LIMITS_2.id_bytes as u64);
        teller.say(b" in version 2");
    }
}
