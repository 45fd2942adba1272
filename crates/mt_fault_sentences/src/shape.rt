use crate::cursor::Cursor;
use crate::field::{
    QUOTED, has_mark_before, is_comment, is_from_quotes, meant, separators, without_mark,
};
use crate::sentence::say_record;
use crate::teller::Teller;
use mt_ids::is_id;
use mt_terms::LIMITS_2;
use std::io::Write;

/// Says that a field names no kind, and what to write.
pub(crate) fn tell_kind<E: Write>(teller: &mut Teller<E>, cursor: &mut Cursor<'_>, number: u64) {
    let word = cursor.field(number);
    if word.is_empty() {
        return tell_empty(teller, number);
    }
    if number == 2 {
        return tell_withdrawn(teller, cursor, word);
    }
    let bare = without_mark(word).trim_ascii();
    if bare.eq_ignore_ascii_case(b"match") {
        teller.say_quoted(word);
        teller.say(b" comes once, in the first record: remove this record");
    } else if !cursor.is_version_2() && bare.eq_ignore_ascii_case(b"withdraw") {
        tell_old_withdrawal(teller, word);
    } else {
        teller.say_quoted(word);
        teller.say(b" is no kind of record: ");
        tell_word(teller, cursor, word);
    }
}

fn tell_empty<E: Write>(teller: &mut Teller<E>, number: u64) {
    if number == 2 {
        teller.say(b"the kind is empty: write program, applicant or couple");
    } else {
        teller.say(b"the first field is empty: remove the column before the kind");
    }
}

fn tell_old_withdrawal<E: Write>(teller: &mut Teller<E>, word: &[u8]) {
    teller.say_quoted(word);
    if word == b"withdraw".as_slice() {
        teller.say(b" needs version 2: begin the file with the line match,2");
    } else {
        teller.say(b" is no kind of record: write withdraw in small letters alone, ");
        teller.say(b"and begin the file with the line match,2");
    }
}

/// Says what to do about the second field of a withdrawal.
fn tell_withdrawn<E: Write>(teller: &mut Teller<E>, cursor: &Cursor<'_>, word: &[u8]) {
    match meant(word) {
        Some(kind) if kind != b"withdraw".as_slice() => {
            teller.say_quoted(word);
            teller.say(b" is no kind: ");
            say_meant(teller, word, kind);
        }
        _ if cursor.field_count() == 2 => {
            teller.say_quoted(word);
            teller.say(b" has no kind before it: write withdraw,program,");
            teller.say(if is_id(LIMITS_2.id_bytes, word) {
                word
            } else {
                b"ID".as_slice()
            });
            teller.say(b", or applicant or couple for program");
        }
        _ => {
            teller.say_quoted(word);
            teller.say(b" can't be withdrawn: write program, applicant or couple");
        }
    }
}

/// Says how to write the kind that a word means.
pub(crate) fn say_meant<E: Write>(teller: &mut Teller<E>, word: &[u8], kind: &'static [u8]) {
    if word.trim_ascii() == kind {
        return teller.say(b"remove the blank beside the word");
    }
    teller.say(b"write ");
    teller.say(kind);
    teller.say(b" in small letters");
    if word.len() > kind.len() {
        teller.say(b", without a blank");
    }
}

/// Says what to do about a word that isn't empty and is no kind of record.
fn tell_word<E: Write>(teller: &mut Teller<E>, cursor: &Cursor<'_>, word: &[u8]) {
    if is_from_quotes(word) {
        teller.say(QUOTED);
    } else if has_mark_before(word) {
        teller.say(b"remove the byte order mark before it");
        if meant(without_mark(word)).is_none() {
            teller.say(b", or this line if it is a header");
        }
    } else if is_comment(word) {
        teller.say(b"remove the comment");
    } else if word.trim_ascii().is_empty() {
        tell_blanks(teller, cursor);
    } else {
        tell_other_word(teller, cursor, word);
    }
}

fn tell_blanks<E: Write>(teller: &mut Teller<E>, cursor: &Cursor<'_>) {
    if cursor.field_count() == 1 {
        teller.say(b"remove this line of blanks");
    } else {
        teller.say(b"remove the column before the kind");
    }
}

fn tell_other_word<E: Write>(teller: &mut Teller<E>, cursor: &Cursor<'_>, word: &[u8]) {
    match (meant(word), separators(word)) {
        (Some(kind), _) => return say_meant(teller, word, kind),
        (_, Some(names)) => {
            teller.say(b"are the fields separated by ");
            teller.say(names);
            teller.say(b"? Write commas");
            if names != b"blanks".as_slice() {
                return;
            }
        }
        _ if cursor.is_version_2() => teller.say(b"write program, applicant, couple or withdraw"),
        _ => teller.say(b"write program, applicant or couple"),
    }
    teller.say(b", or remove this line if it is a header");
}

/// Says which fields a record lacks, or has besides.
pub(crate) fn tell_count<E: Write>(teller: &mut Teller<E>, cursor: &mut Cursor<'_>) {
    if cursor.is_withdrawal() {
        return teller.say(b"a withdrawal has a kind and an id: write withdraw,KIND,ID");
    }
    let fields = cursor.field_count();
    match cursor.kind() {
        b"program" if fields < 2 => {
            teller.say(
                b"a program has an id and a quota: write program,ID,QUOTA, and then its list",
            )
        }
        b"program" => {
            say_record(teller, cursor);
            teller.say(b" has no quota: write program,ID,QUOTA, and then its list");
        }
        b"couple" if fields < 4 => {
            teller.say(b"a couple has an id and two members: ");
            teller.say(b"write couple,ID,MEMBER,MEMBER, and then its pairs");
        }
        b"couple" => tell_half_pair(teller, cursor, fields),
        _ => teller.say(b"an applicant has an id: write applicant,ID, and then its list"),
    }
}

fn tell_half_pair<E: Write>(teller: &mut Teller<E>, cursor: &mut Cursor<'_>, fields: usize) {
    say_record(teller, cursor);
    teller.say(b" has half a pair, ");
    teller.say_quoted(cursor.field(fields as u64));
    teller.say(b": write the second program of the pair");
    if cursor.is_version_2() {
        teller.say(b", or - for none");
    }
    teller.say(b". If the couple's id is missing, write it before the members");
}
