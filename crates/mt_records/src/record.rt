ghost use Rattle.std.specs.Prelude.{◌≡◌, ◌&&◌, [], ◌∷◌, codes, bytes_eq, length, map, option_map, option_to_list};
ghost use Rattle.mt_lists.specs.Rows.{fields_left};
ghost use Rattle.mt_terms.specs.Registration.Faults.{record_fault_alone};
ghost use Rattle.mt_terms.specs.Registration.Records.{kind_of, are_ids, pair_of, two_by_two, program_record, applicant_record, couple_by_pairs, couple_record, withdraw_record, record_of};
ghost use Rattle.mt_terms.specs.Registration.Records.{OfProgram, OfCouple};
ghost use Rattle.mt_terms.specs.Registration.Rows.{id_of, own_id, applicants_of, entries_of};
ghost use Rattle.mt_terms.specs.Lists.{by_twos};
ghost use Rattle.mt_records.specs.Fields.{members_in, pairs_after};
ghost use Rattle.mt_ids.specs.Kinds.{kind_seen};
ghost use Rattle.mt_records.specs.Records.{record_seen, record_fault_seen, read_seen};

use crate::fields::{CoupleFields, are_ids, are_pairs};
use crate::rules::Rules;
use mt_ids::{Kind, is_id, parse_quota};
use mt_lists::Fields;
use mt_terms::codes::{BAD_ID, BAD_QUOTA, FIELD_COUNT, UNKNOWN_KIND};

/// A parsed record. Its ids lie in the row. There is one record for each row of a file, so a couple's members are
/// only found among its fields when they are asked for. A variant with both ids would make each record larger by
/// half.
#[derive(Clone, Copy)]
pub enum Record<'a> {
    Program {
        quota: u32,
        id: &'a [u8],
        list: Fields<'a>,
    },
    Applicant {
        id: &'a [u8],
        list: Fields<'a>,
    },
    Couple {
        id: &'a [u8],
        fields: CoupleFields<'a>,
    },
    Withdraw {
        kind: Kind,
        id: &'a [u8],
    },
}

impl<'a> Record<'a> {
    /// The record's own id, or the one that it withdraws.
    pub fn id(&self) -> &'a [u8]
        ensures { result.now ≡ id_of (record_seen self.now) }
    {
        match self {
            Record::Program { id, .. } => id,
            Record::Applicant { id, .. } => id,
            Record::Couple { id, .. } => id,
            Record::Withdraw { id, .. } => id,
        }
    }

    /// How many applicants it registers.
    pub fn applicant_count(&self) -> usize
        ensures { result ≡ length (applicants_of (record_seen self.now)) }
    {
        match self {
            Record::Applicant { .. } => 1,
            Record::Couple { .. } => 2,
            Record::Program { .. } | Record::Withdraw { .. } => 0,
        }
    }

    /// How many programs it registers.
    pub fn program_count(&self) -> usize
        ensures { result ≡ length (option_to_list (own_id OfProgram (record_seen self.now))) }
    {
        match self {
            Record::Program { .. } => 1,
            _ => 0,
        }
    }

    /// How many couples it registers.
    pub fn couple_count(&self) -> usize
        ensures { result ≡ length (option_to_list (own_id OfCouple (record_seen self.now))) }
    {
        match self {
            Record::Couple { .. } => 1,
            _ => 0,
        }
    }

    /// How many entries its list has: a pair counts as two.
    pub fn entry_count(&self) -> u64
        ensures { result ≡ entries_of (record_seen self.now) }
    {
        match self {
            Record::Program { list, .. } => list.len() as u64,
            Record::Applicant { list, .. } => list.len() as u64,
            Record::Couple { fields, .. } => fields.pairs().entries() as u64,
            Record::Withdraw { .. } => 0,
        }
    }
}

/// A fault of a record: its code and the id at fault, which is empty if there is none.
#[derive(Clone, Copy)]
pub struct RecordFault<'a> {
    pub code: u16,
    pub id: &'a [u8],
}

/// A fault that no id is at.
fn record_fault_alone<'a>(code: u16) -> RecordFault<'a>
    ensures { record_fault_seen result ≡ record_fault_alone code }
{
    RecordFault { code, id: &[] }
}

/// The kind that a field names.
pub fn kind_of(word: &[u8]) -> Option<Kind>
    ensures { option_map kind_seen result ≡ kind_of word.now }
{
    if word == b"program".as_slice() {
        Some(Kind::Program)
    } else if word == b"applicant".as_slice() {
        Some(Kind::Applicant)
    } else if word == b"couple".as_slice() {
        Some(Kind::Couple)
    } else {
        None
    }
}

/// A program by the fields after its first.
fn program_record<'a>(rules: &Rules, fields: Fields<'a>) -> Result<Record<'a>, RecordFault<'a>>
    ensures { read_seen result ≡ program_record rules.now (fields_left fields.entry) }
{
    let mut list = fields;
    let Some(id) = list.next() else {
        return Err(record_fault_alone(FIELD_COUNT));
    };
    let Some(quota) = list.next() else {
        return Err(record_fault_alone(FIELD_COUNT));
    };
    if !is_id(rules.limits.id_bytes, id) || !are_ids(rules, list) {
        return Err(record_fault_alone(BAD_ID));
    }
    match parse_quota(quota) {
        Some(quota) => Ok(Record::Program { quota, id, list }),
        None => Err(RecordFault {
            code: BAD_QUOTA,
            id,
        }),
    }
}

/// An applicant by the fields after its first.
fn applicant_record<'a>(rules: &Rules, fields: Fields<'a>) -> Result<Record<'a>, RecordFault<'a>>
    ensures { read_seen result ≡ applicant_record rules.now (fields_left fields.entry) }
{
    let mut list = fields;
    let Some(id) = list.next() else {
        return Err(record_fault_alone(FIELD_COUNT));
    };
    if is_id(rules.limits.id_bytes, id) && are_ids(rules, list) {
        Ok(Record::Applicant { id, list })
    } else {
        Err(record_fault_alone(BAD_ID))
    }
}

/// Whether a couple's own id and those of its members are ids by the rules of a version.
pub fn names_are_ids(rules: &Rules, id: &[u8], first: &[u8], second: &[u8]) -> bool
    ensures { result ≡ are_ids rules.now (id.now ∷ first.now ∷ second.now ∷ []) }
{
    let most = rules.limits.id_bytes;
    is_id(most, id) && is_id(most, first) && is_id(most, second)
}

/// A couple by its id, its members and the fields of its list.
fn couple_by_pairs<'a>(
    rules: &Rules,
    id: &'a [u8],
    fields: CoupleFields<'a>,
    list: Fields<'a>,
) -> Result<Record<'a>, RecordFault<'a>>
    requires { pairs_after fields ≡ map pair_of (by_twos (fields_left list)) }
    ensures { read_seen result ≡ couple_by_pairs rules.now id.now (members_in fields.entry).0 (members_in fields.entry).1
        (two_by_two (fields_left list.entry)) }
{
    if list.len() % 2 == 1 {
        return Err(record_fault_alone(FIELD_COUNT));
    }
    let (first, second) = fields.members();
    if names_are_ids(rules, id, first, second) && are_pairs(rules, list) {
        Ok(Record::Couple { id, fields })
    } else {
        Err(record_fault_alone(BAD_ID))
    }
}

/// A couple by the fields after its first.
fn couple_record<'a>(rules: &Rules, fields: Fields<'a>) -> Result<Record<'a>, RecordFault<'a>>
    ensures { read_seen result ≡ couple_record rules.now (fields_left fields.entry) }
{
    let mut list = fields;
    let Some(id) = list.next() else {
        return Err(record_fault_alone(FIELD_COUNT));
    };
    let fields = CoupleFields::new(list);
    if list.next().is_none() || list.next().is_none() {
        return Err(record_fault_alone(FIELD_COUNT));
    }
    couple_by_pairs(rules, id, fields, list)
}

/// A withdrawal by the fields after its first. The error is its first fault.
pub fn withdraw_record<'a>(rules: &Rules, fields: Fields<'a>) -> Result<Record<'a>, RecordFault<'a>>
    ensures { read_seen result ≡ withdraw_record rules.now (fields_left fields.entry) }
{
    let mut rest = fields;
    let Some(word) = rest.next() else {
        return Err(record_fault_alone(FIELD_COUNT));
    };
    let Some(kind) = kind_of(word) else {
        return Err(record_fault_alone(UNKNOWN_KIND));
    };
    let Some(id) = rest.next() else {
        return Err(record_fault_alone(FIELD_COUNT));
    };
    if rest.next().is_some() {
        return Err(record_fault_alone(FIELD_COUNT));
    }
    if is_id(rules.limits.id_bytes, id) {
        Ok(Record::Withdraw { kind, id })
    } else {
        Err(record_fault_alone(BAD_ID))
    }
}

/// Whether a field is the word of a withdrawal, and the version knows withdrawals.
pub fn withdraws(rules: &Rules, word: &[u8]) -> bool
    ensures { result ≡ (rules.now.withdrawals && bytes_eq word.now (codes "withdraw")) }
{
    rules.withdrawals && word == b"withdraw".as_slice()
}

/// A record parsed by itself, or its first fault.
pub fn record_of<'a>(rules: &Rules, fields: Fields<'a>) -> Result<Record<'a>, RecordFault<'a>>
    ensures { read_seen result ≡ record_of rules.now (fields_left fields.entry) }
{
    let mut rest = fields;
    let Some(word) = rest.next() else {
        return Err(record_fault_alone(UNKNOWN_KIND));
    };
    if withdraws(rules, word) {
        return withdraw_record(rules, rest);
    }
    match kind_of(word) {
        Some(Kind::Program) => program_record(rules, rest),
        Some(Kind::Applicant) => applicant_record(rules, rest),
        Some(Kind::Couple) => couple_record(rules, rest),
        None => Err(record_fault_alone(UNKNOWN_KIND)),
    }
}
