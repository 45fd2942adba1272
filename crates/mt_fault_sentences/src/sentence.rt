use crate::bad_id::tell_bad_id;
use crate::cursor::Cursor;
use crate::shape::{tell_count, tell_kind};
use crate::teller::Teller;
use crate::version::tell_version;
use mt_fault_sink::Fault;
use mt_ids::is_id;
use mt_terms::codes::*;
use mt_terms::{LIMITS, LIMITS_2};
use std::io::Write;

/// Says a fault of the record with this number, which begins on this line. Number 0 is that of no record.
pub fn tell_fault<E: Write>(
    teller: &mut Teller<E>,
    cursor: &mut Cursor<'_>,
    record: u64,
    line: u64,
    fault: &Fault<'_>,
) {
    if record == 0 {
        return tell_alone(teller, fault.code);
    }
    if teller.is_silent() {
        return;
    }
    cursor.go_to(record);
    let field = fault.field as u64;
    teller.begin_at(line, field);
    match fault.code {
        NO_VERSION => tell_version(teller, cursor),
        UNKNOWN_KIND => tell_kind(teller, cursor, field),
        FIELD_COUNT => tell_count(teller, cursor),
        BAD_ID => tell_bad_id(teller, cursor, field),
        BAD_QUOTA => tell_quota(teller, cursor),
        DUPLICATE_ID => tell_registered(teller, cursor, fault),
        DUPLICATE_ENTRY => tell_twice(teller, cursor, fault),
        TOO_MANY => tell_limits(teller, cursor),
        UNKNOWN_APPLICANT => tell_unknown(teller, cursor, b"applicant", fault.id),
        UNKNOWN_PROGRAM => tell_unknown(teller, cursor, b"program", fault.id),
        _ => tell_unregistered(teller, cursor),
    }
    teller.end();
}

/// Says a fault that is at no record.
pub fn tell_alone<E: Write>(teller: &mut Teller<E>, code: u16) {
    if teller.is_silent() {
        return;
    }
    teller.begin();
    match code {
        TOO_LARGE => {
            teller.say(b"the file has more than ");
            teller.say_number(LIMITS.bytes as u64);
            teller.say(b" bytes: no market may be larger");
        }
        TWO_MARKS => teller.say(b"the file begins with two byte order marks: remove one"),
        _ => teller.say(b"no record has a field: begin the file with the line match,2"),
    }
    teller.end();
}

/// Warns that no entry of a market is mutual.
pub fn warn_of_none<E: Write>(teller: &mut Teller<E>) {
    if teller.is_silent() {
        return;
    }
    teller.begin();
    teller.say(b"warning: no program lists an applicant that wants it, so nobody can be placed: ");
    teller.say(b"compare the ids of the lists");
    teller.end();
}

/// Adds the kind of a record and its id, as `applicant a17`, or `this applicant` if its id isn't one.
pub(crate) fn say_record<E: Write>(teller: &mut Teller<E>, cursor: &Cursor<'_>) {
    let id = cursor.id();
    if is_id(LIMITS_2.id_bytes, id) {
        teller.say(cursor.kind());
        teller.say(b" ");
        teller.say(id);
    } else {
        teller.say(b"this ");
        teller.say(cursor.kind());
    }
}

fn tell_quota<E: Write>(teller: &mut Teller<E>, cursor: &Cursor<'_>) {
    let quota = cursor.leading(3);
    if quota.is_empty() {
        teller.say(b"the quota is empty");
    } else {
        teller.say_quoted(quota);
        teller.say(b" is no quota");
    }
    teller.say(b": write one to four digits for how many posts ");
    say_record(teller, cursor);
    teller.say(b" has");
    if is_id(LIMITS_2.id_bytes, quota) {
        teller.say(b", before ");
        teller.say_quoted(quota);
        teller.say(b" if that is an id, or else in its place");
    }
}

fn tell_registered<E: Write>(teller: &mut Teller<E>, cursor: &Cursor<'_>, fault: &Fault<'_>) {
    let is_member = cursor.is_couple() && fault.field > 2;
    if fault.field == 4 && is_member && cursor.leading(3) == cursor.leading(4) {
        teller.say(fault.id);
        return teller.say(b" is both members of this couple: correct one of the two ids");
    }
    let kind = if is_member {
        b"applicant"
    } else {
        cursor.kind()
    };
    teller.say(kind);
    teller.say(b" ");
    teller.say(fault.id);
    teller.say(b" is registered already");
    if kind == b"applicant".as_slice() {
        teller.say(b", by itself or as a member of a couple");
    }
    teller.say(b": keep one of these, or correct the id");
}

fn tell_twice<E: Write>(teller: &mut Teller<E>, cursor: &mut Cursor<'_>, fault: &Fault<'_>) {
    say_record(teller, cursor);
    if cursor.is_withdrawal() {
        return teller.say(b" is withdrawn already: keep one of these withdrawals");
    }
    teller.say(b" lists ");
    if cursor.is_couple() {
        let field = fault.field as u64;
        teller.say(b"the pair ");
        teller.say_quoted(cursor.field(field));
        teller.say(b", ");
        teller.say_quoted(cursor.field(field.saturating_add(1)));
    } else {
        teller.say_quoted(fault.id);
    }
    teller.say(b" twice");
    if fault.first > 0 {
        teller.say(b"; first in field ");
        teller.say_number(fault.first as u64);
    }
}

fn tell_limits<E: Write>(teller: &mut Teller<E>, cursor: &Cursor<'_>) {
    let limits = cursor.limits();
    teller.say(b"with this record the file passes a limit: at most ");
    teller.say_number(u64::from(limits.applicants));
    teller.say(b" applicants, ");
    teller.say_number(u64::from(limits.programs));
    teller.say(b" programs, ");
    teller.say_number(u64::from(limits.couples));
    teller.say(b" couples and ");
    teller.say_number(u64::from(limits.entries));
    teller.say(b" list entries");
    if !cursor.is_version_2() {
        teller.say(b", or ");
        teller.say_number(u64::from(LIMITS_2.entries));
        teller.say(b" entries in version 2");
    }
}

fn tell_unknown<E: Write>(
    teller: &mut Teller<E>,
    cursor: &Cursor<'_>,
    kind: &'static [u8],
    id: &[u8],
) {
    say_record(teller, cursor);
    teller.say(b" lists ");
    teller.say_quoted(id);
    teller.say(b", which is the id of no ");
    teller.say(kind);
    teller.say(b": correct it, add a record for it, or remove ");
    teller.say(if cursor.is_couple() {
        b"its pair".as_slice()
    } else {
        b"it".as_slice()
    });
}

fn tell_unregistered<E: Write>(teller: &mut Teller<E>, cursor: &Cursor<'_>) {
    teller.say(b"no ");
    teller.say(cursor.kind());
    teller.say(b" record has the id ");
    teller.say(cursor.id());
    teller.say(b": correct the id, or remove the withdrawal");
    if cursor.kind() == b"applicant".as_slice() {
        teller.say(b" (a member is withdrawn with its couple)");
    }
}
