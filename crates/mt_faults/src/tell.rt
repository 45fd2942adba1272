ghost use Rattle.std.specs.Prelude.{◌≡◌, [], ◌∷◌, flat_map, take, if◌then◌else◌};
ghost use Rattle.mt_fault_terms.specs.Faults.{fault_alone, fault_of};
ghost use Rattle.mt_fault_terms.specs.OfRecord.{bad_of_pair, alone_at, found_among, is_id_field, is_place_field, missing_among};
ghost use Rattle.mt_terms.specs.declared.codes.TheConstants.{BAD_ID};
ghost use Rattle.mt_fault_sink.specs.Seen.{faults_seen};
ghost use Rattle.mt_fault_sink.specs.Telling.{Tells, at_record};
ghost use Rattle.mt_faults.specs.declared.tell.Wrong.TheVariants.{NoId};
ghost use Rattle.mt_faults.specs.Seen.{faults_by_test, field_seen, pairs_left, placed_left, tested};

use crate::placed::{Field, Placed, PlacedPairs};
use crate::registry::is_before;
use mt_fault_sink::{Fault, FaultEnd, FaultSink};
use mt_ids::{IdTable, is_dash, is_id};
use mt_records::Rules;
use mt_terms::codes::BAD_ID;

/// What is wrong with a field of a list.
#[derive(Clone, Copy)]
pub(crate) enum Wrong<'t, 'a> {
    /// It isn't an id.
    NoId,
    /// It is an id, and none of these.
    Missing {
        code: u16,
        ids: &'t IdTable<'a>,
    },
    /// It is an id, and one of the first `seen` of these.
    Found {
        code: u16,
        ids: &'t IdTable<'a>,
        seen: usize,
    },
}

/// A test of some fields of a record for one thing that may be wrong with each.
#[derive(Clone, Copy)]
pub(crate) struct FieldTest<'t, 'a> {
    pub(crate) wrong: Wrong<'t, 'a>,
    pub(crate) fields: Placed<'a>,
}

impl<'t, 'a> FieldTest<'t, 'a> {
    /// The test whether fields are no ids.
    pub(crate) fn of_ids(fields: Placed<'a>) -> FieldTest<'t, 'a>
        ensures { (rules : _) → faults_by_test rules result
            ≡ flat_map (tested NoId rules) (placed_left fields.entry) }
    {
        FieldTest {
            wrong: Wrong::NoId,
            fields,
        }
    }

    /// A test of none of these fields.
    pub(crate) fn of_none(fields: Placed<'a>) -> FieldTest<'t, 'a>
        ensures { (rules : _) → faults_by_test rules result ≡ [] }
    {
        FieldTest::of_ids(fields.first(0))
    }

    /// The test whether fields are ids, and none of these.
    pub(crate) fn missing(code: u16, ids: &'t IdTable<'a>, fields: Placed<'a>) -> FieldTest<'t, 'a>
        ensures { (rules : _) → faults_by_test rules result
            ≡ missing_among rules code ids.now (placed_left fields.entry) }
    {
        FieldTest {
            wrong: Wrong::Missing { code, ids },
            fields,
        }
    }

    /// The test whether fields are ids, and among the first `seen` of these.
    pub(crate) fn found(
        code: u16,
        ids: &'t IdTable<'a>,
        seen: usize,
        fields: Placed<'a>,
    ) -> FieldTest<'t, 'a>
        ensures { (rules : _) → faults_by_test rules result
            ≡ found_among rules code (take seen ids.now) (placed_left fields.entry) }
    {
        FieldTest {
            wrong: Wrong::Found { code, ids, seen },
            fields,
        }
    }
}

/// A fault at a field, with its bytes as the id at fault.
pub(crate) fn fault_of<'a>(code: u16, field: &Field<'a>) -> Fault<'a>
    ensures { faults_seen (Some result) ≡ fault_of code (field_seen field.now) ∷ [] }
{
    Fault {
        code,
        field: field.number,
        id: field.bytes,
        first: 0,
    }
}

/// A fault at a field that no id is at.
pub(crate) fn fault_alone<'a>(code: u16, field: usize) -> Fault<'a>
    ensures { faults_seen (Some result) ≡ fault_alone code field ∷ [] }
{
    Fault {
        code,
        field,
        id: &[],
        first: 0,
    }
}

/// Whether a field is an id by the rules of a version.
pub(crate) fn is_id_field(rules: &Rules, field: &Field<'_>) -> bool
    ensures { result ≡ is_id_field rules.now (field_seen field.now) }
{
    is_id(rules.limits.id_bytes, field.bytes)
}

impl<'t, 'a> Wrong<'t, 'a> {
    /// The fault of a field, if this is wrong with it.
    #[inline(always)]
    fn fault<'b>(&self, rules: &Rules, field: &Field<'b>) -> Option<Fault<'b>>
        ensures { faults_seen result ≡ tested self.now rules.now (field_seen field.now) }
    {
        let is_id = is_id_field(rules, field);
        match self {
            Wrong::NoId => {
                if is_id {
                    None
                } else {
                    Some(fault_alone(BAD_ID, field.number))
                }
            }
            Wrong::Missing { code, ids } => {
                if is_id && !ids.contains(field.bytes) {
                    Some(fault_of(*code, field))
                } else {
                    None
                }
            }
            Wrong::Found { code, ids, seen } => {
                if is_id && is_before(ids, *seen, field.bytes) {
                    Some(fault_of(*code, field))
                } else {
                    None
                }
            }
        }
    }
}

/// Tells a sink a fault of the record with this number, if there is one.
#[inline(always)]
pub(crate) fn tell<S: FaultSink>(
    sink: &mut S,
    number: u64,
    fault: Option<Fault<'_>>,
) -> Result<(), FaultEnd>
    requires { S.takes sink.old }
    ensures { Tells S.takes S.told S.stopped sink.old sink.new
        (at_record number (faults_seen fault.entry)) result }
{
    let Some(fault) = fault else {
        return Ok(());
    };
    match sink.put(number, &fault) {
        Ok(()) => Ok(()),
        Err(_) => Err(FaultEnd::Stopped),
    }
}

/// Tells a sink the faults that a test of fields finds.
pub(crate) fn tell_each<S: FaultSink>(
    sink: &mut S,
    number: u64,
    rules: &Rules,
    test: FieldTest<'_, '_>,
) -> Result<(), FaultEnd>
    requires { S.takes sink.old }
    ensures { Tells S.takes S.told S.stopped sink.old sink.new
        (at_record number (faults_by_test rules.now test.entry)) result }
{
    for field in test.fields {
        tell(sink, number, test.wrong.fault(rules, &field))?;
    }
    Ok(())
}

/// The fault that a field of a pair isn't an id, nor a `-` that its partner allows.
fn bad_place<'a>(rules: &Rules, field: &Field<'a>, partner: &Field<'a>) -> Option<Fault<'a>>
    ensures { faults_seen result ≡ (if is_place_field rules.now (field_seen field.now) (field_seen partner.now)
        then [] else fault_alone BAD_ID (field_seen field.now).0 ∷ []) }
{
    let is_half = rules.half_pairs && is_dash(field.bytes) && !is_dash(partner.bytes);
    if is_id_field(rules, field) || is_half {
        None
    } else {
        Some(fault_alone(BAD_ID, field.number))
    }
}

/// Tells a sink each field of these pairs that should be an id and isn't.
pub(crate) fn tell_bad_pairs<S: FaultSink>(
    sink: &mut S,
    number: u64,
    rules: &Rules,
    pairs: PlacedPairs<'_>,
) -> Result<(), FaultEnd>
    requires { S.takes sink.old }
    ensures { Tells S.takes S.told S.stopped sink.old sink.new
        (at_record number (alone_at BAD_ID (flat_map (bad_of_pair rules.now) (pairs_left pairs.entry)))) result }
{
    for (first, second) in pairs {
        tell(sink, number, bad_place(rules, &first, &second))?;
        tell(sink, number, bad_place(rules, &second, &first))?;
    }
    Ok(())
}
