//! Records split into fields, without a look at the ids of their lists. Whichever of these is found among the registered
//! ids is an id, since those are.
ghost use Rattle.std.specs.Prelude.{◌≡◌, option_map};
ghost use Rattle.mt_lists.specs.Rows.{fields_left};
ghost use Rattle.mt_draft_laws.specs.Faultless.{program_draft, applicant_draft, couple_draft, draft};
ghost use Rattle.mt_records.specs.Records.{record_seen};

use mt_ids::{Kind, is_id, parse_quota};
use mt_lists::Fields;
use mt_records::{CoupleFields, Record, Rules, kind_of, names_are_ids, withdraw_record, withdraws};

/// A program by the fields after its first, if nothing is at fault beside its list.
fn program_draft<'a>(rules: &Rules, fields: Fields<'a>) -> Option<Record<'a>>
    ensures { option_map record_seen result ≡ program_draft rules.now (fields_left fields.entry) }
{
    let mut list = fields;
    let id = list.next()?;
    let quota = list.next()?;
    if !is_id(rules.limits.id_bytes, id) {
        return None;
    }
    let quota = parse_quota(quota)?;
    Some(Record::Program { quota, id, list })
}

/// An applicant by the fields after its first, if nothing is at fault beside its list.
fn applicant_draft<'a>(rules: &Rules, fields: Fields<'a>) -> Option<Record<'a>>
    ensures { option_map record_seen result ≡ applicant_draft rules.now (fields_left fields.entry) }
{
    let mut list = fields;
    let id = list.next()?;
    if !is_id(rules.limits.id_bytes, id) {
        return None;
    }
    Some(Record::Applicant { id, list })
}

/// A couple by the fields after its first, if nothing is at fault beside its list, whose fields are two by two.
fn couple_draft<'a>(rules: &Rules, fields: Fields<'a>) -> Option<Record<'a>>
    ensures { option_map record_seen result ≡ couple_draft rules.now (fields_left fields.entry) }
{
    let mut list = fields;
    let id = list.next()?;
    let fields = CoupleFields::new(list);
    let first = list.next()?;
    let second = list.next()?;
    if list.len() % 2 == 1 {
        return None;
    }
    if !names_are_ids(rules, id, first, second) {
        return None;
    }
    Some(Record::Couple { id, fields })
}

/// A record, if nothing is at fault beside its list.
pub(crate) fn draft_of<'a>(rules: &Rules, fields: Fields<'a>) -> Option<Record<'a>>
    ensures { option_map record_seen result ≡ draft rules.now (fields_left fields.entry) }
{
    let mut rest = fields;
    let word = rest.next()?;
    if withdraws(rules, word) {
        return withdraw_record(rules, rest).ok();
    }
    match kind_of(word)? {
        Kind::Program => program_draft(rules, rest),
        Kind::Applicant => applicant_draft(rules, rest),
        Kind::Couple => couple_draft(rules, rest),
    }
}
