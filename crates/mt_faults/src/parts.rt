ghost use Rattle.std.specs.Prelude.{◌≡◌, ◌≤◌, ◌||◌, [], length, option_map};
ghost use Rattle.mt_lists.specs.Rows.{fields_left};
ghost use Rattle.mt_ids.specs.Kinds.{kind_seen};
ghost use Rattle.mt_fault_terms.specs.Parts.{miscounted, unknown_parts, program_parts, applicant_parts, couple_parts, withdrawal_parts, withdraw_parts, parts_by_kind, parts_of};
ghost use Rattle.mt_faults.specs.Names.{members_of};
ghost use Rattle.mt_faults.specs.NoKind.{is_of_no_kind, names_no_kind};
ghost use Rattle.mt_faults.specs.Seen.{form_faults, parts_seen, placed_left};

use crate::placed::{Field, Placed};
use mt_ids::Kind;
use mt_lists::Fields;
use mt_records::{Rules, kind_of, withdraws};
use mt_terms::codes::{FIELD_COUNT, UNKNOWN_KIND};

/// Whether a record registers something of a kind, withdraws it, or neither.
#[derive(Clone, Copy)]
pub(crate) enum Form {
    Registers(Kind),
    Withdraws(Kind),
    Unknown,
}

/// A fault of a record's form: its code, and the number of the field at fault, or 0.
#[derive(Clone, Copy)]
pub(crate) struct FormFault {
    pub(crate) code: u16,
    pub(crate) field: usize,
}

/// What the fields of a record are for.
#[derive(Clone, Copy)]
pub(crate) struct Parts<'a> {
    pub(crate) form: Form,
    pub(crate) fault: Option<FormFault>,
    /// The fields that should be ids of its own.
    pub(crate) names: Placed<'a>,
    /// The field that should be a quota.
    pub(crate) quota: Option<Field<'a>>,
    /// The entries of its list.
    pub(crate) list: Placed<'a>,
    /// The fields of its pairs. The last one is in none if it has no partner.
    pub(crate) pairs: Placed<'a>,
}

impl<'a> Parts<'a> {
    /// The fields that should be the members of a couple: none of a record that registers no couple.
    pub(crate) fn members(&self) -> Placed<'a>
        ensures { placed_left result ≡ members_of (parts_seen self.now) }
    {
        match self.form {
            Form::Registers(Kind::Couple) => self.names.tail(),
            _ => self.names.first(0),
        }
    }
}

/// A record that is of no kind, by the field that should say so.
fn unknown_parts<'a>(none: Placed<'a>, field: usize) -> Parts<'a>
    requires { placed_left none ≡ [] }
    ensures { parts_seen result ≡ unknown_parts field }
{
    Parts {
        form: Form::Unknown,
        fault: Some(FormFault {
            code: UNKNOWN_KIND,
            field,
        }),
        names: none,
        quota: None,
        list: none,
        pairs: none,
    }
}

/// The fault that a record has too few fields, or too many.
fn miscounted(is_wrong: bool) -> Option<FormFault>
    ensures { form_faults result ≡ miscounted is_wrong }
{
    if is_wrong {
        Some(FormFault {
            code: FIELD_COUNT,
            field: 0,
        })
    } else {
        None
    }
}

/// Whether one of two things is wrong.
fn either(one: bool, other: bool) -> bool
    ensures { result ≡ (one || other) }
{
    one || other
}

/// The parts of a program's record by the fields after its first.
fn program_parts<'a>(fields: Placed<'a>) -> Parts<'a>
    ensures { parts_seen result ≡ program_parts (placed_left fields.entry) }
{
    let rest = fields.tail();
    Parts {
        form: Form::Registers(Kind::Program),
        fault: miscounted(fields.len() < 2),
        names: fields.first(1),
        quota: rest.head(),
        list: rest.tail(),
        pairs: fields.first(0),
    }
}

/// The parts of a single's record by the fields after its first.
fn applicant_parts<'a>(fields: Placed<'a>) -> Parts<'a>
    ensures { parts_seen result ≡ applicant_parts (placed_left fields.entry) }
{
    Parts {
        form: Form::Registers(Kind::Applicant),
        fault: miscounted(fields.len() < 1),
        names: fields.first(1),
        quota: None,
        list: fields.tail(),
        pairs: fields.first(0),
    }
}

/// The parts of a couple's record by the fields after its first.
fn couple_parts<'a>(fields: Placed<'a>) -> Parts<'a>
    ensures { parts_seen result ≡ couple_parts (placed_left fields.entry) }
{
    let members = fields.tail();
    let after_first = members.tail();
    let rest = after_first.tail();
    Parts {
        form: Form::Registers(Kind::Couple),
        fault: miscounted(either(fields.len() < 3, rest.len() % 2 == 1)),
        names: fields.first(3),
        quota: None,
        list: fields.first(0),
        pairs: rest,
    }
}

/// The parts of a withdrawal by the fields after its kind.
fn withdrawal_parts<'a>(kind: Kind, fields: Placed<'a>) -> Parts<'a>
    ensures { parts_seen result ≡ withdrawal_parts (kind_seen kind) (placed_left fields.entry) }
{
    Parts {
        form: Form::Withdraws(kind),
        fault: miscounted(fields.len() != 1),
        names: fields.first(1),
        quota: None,
        list: fields.first(0),
        pairs: fields.first(0),
    }
}

/// The parts of a withdrawal by its fields after the first, of which the first names a kind.
fn withdraw_parts<'a>(fields: Placed<'a>) -> Parts<'a>
    ensures { parts_seen result ≡ withdraw_parts (placed_left fields.entry) }
{
    let none = fields.first(0);
    let Some(word) = fields.head() else {
        let mut parts = unknown_parts(none, 0);
        parts.fault = miscounted(true);
        return parts;
    };
    match kind_of(word.bytes) {
        Some(kind) => withdrawal_parts(kind, fields.tail()),
        None => unknown_parts(none, 2),
    }
}

/// The parts of a record of this kind by its fields after the first.
fn parts_by_kind<'a>(kind: Option<Kind>, fields: Placed<'a>) -> Parts<'a>
    ensures { parts_seen result ≡ parts_by_kind (option_map kind_seen kind) (placed_left fields.entry) }
{
    match kind {
        Some(Kind::Program) => program_parts(fields),
        Some(Kind::Applicant) => applicant_parts(fields),
        Some(Kind::Couple) => couple_parts(fields),
        None => unknown_parts(fields.first(0), 1),
    }
}

/// Whether a first field names no kind of record.
fn names_no_kind(rules: &Rules, word: &[u8]) -> bool
    ensures { result ≡ names_no_kind rules.now word.now }
{
    !withdraws(rules, word) && kind_of(word).is_none()
}

/// Whether a record is of no kind by its first field.
pub(crate) fn is_of_no_kind(rules: &Rules, fields: Fields<'_>) -> bool
    ensures { result ≡ is_of_no_kind rules.now (fields_left fields.entry) }
{
    let mut rest = fields;
    match rest.next() {
        Some(word) => names_no_kind(rules, word),
        None => true,
    }
}

/// The parts of a record by all its fields.
pub(crate) fn parts_of<'a>(rules: &Rules, fields: Fields<'a>) -> Parts<'a>
    ensures parts { parts_seen result ≡ parts_of rules.now (fields_left fields.entry) }
    ensures few { length (placed_left result.names) ≤ 3 }
{
    let all = Placed::of(fields);
    let Some(word) = all.head() else {
        return unknown_parts(all, 1);
    };
    let rest = all.tail();
    if withdraws(rules, word.bytes) {
        withdraw_parts(rest)
    } else {
        parts_by_kind(kind_of(word.bytes), rest)
    }
}
