ghost use Rattle.std.specs.Prelude.{◌≡◌, ◌&&◌, ◌++◌, [], ◌∷◌, is_some, IfOk, OnOk, if◌then◌else◌};
ghost use Rattle.mt_terms.specs.declared.codes.TheConstants.{DUPLICATE_ENTRY};
ghost use Rattle.mt_terms.specs.Registration.Ids.{has_id};
ghost use Rattle.mt_terms.specs.Registration.Records.{is_pair};
ghost use Rattle.mt_fault_terms.specs.Faults.{fault_of};
ghost use Rattle.mt_fault_terms.specs.OfRecord.{is_id_field, repeats_after, pair_repeats_after, shown_of_pair};
ghost use Rattle.mt_fault_terms.specs.Parts.{PlacedPair};
ghost use Rattle.mt_fault_sink.specs.Seen.{fault_with, faults_seen};
ghost use Rattle.mt_fault_sink.specs.Telling.{Tells, at_record};
ghost use Rattle.mt_faults.specs.Repeated.{entries_with, repeated};
ghost use Rattle.mt_faults.specs.Seen.{field_seen, pairs_left, placed_left};

use crate::entries::Entries;
use crate::pairs::{PairEntries, pair_of};
use crate::placed::{Field, Placed, PlacedPairs};
use crate::tell::{fault_of, is_id_field, tell};
use mt_fault_sink::{Fault, FaultEnd, FaultSink};
use mt_ids::{Seed, is_dash};
use mt_records::Rules;
use mt_terms::codes::DUPLICATE_ENTRY;
use std::alloc::{AllocError, Global};

/// The fault of an entry that is one of these already. It is added to them otherwise. The error is want of memory.
fn repeated<'a>(
    entries: &mut Entries<'a>,
    field: &Field<'a>,
) -> Result<Option<Fault<'a>>, AllocError>
    ensures fault { let id = field.now.bytes.now in IfOk result (λ fault. faults_seen fault
        ≡ (if has_id entries.old id then fault_of DUPLICATE_ENTRY (field_seen field.now) ∷ [] else [])) }
    ensures entries { let id = field.now.bytes.now in IfOk result
        (λ _. entries.new ≡ (if has_id entries.old id then entries.old else entries.old ++ id ∷ [])) }
{
    let Some(first) = entries.add(field)? else {
        return Ok(None);
    };
    let fault = fault_of(DUPLICATE_ENTRY, field);
    Ok(Some(Fault { first, ..fault }))
}

/// Tells a sink an entry of a list that is one of these already, and adds it to them otherwise. A field that is no id is
/// passed over.
fn tell_repeat<'a, S: FaultSink>(
    sink: &mut S,
    number: u64,
    rules: &Rules,
    entries: &mut Entries<'a>,
    field: &Field<'a>,
) -> Result<(), FaultEnd>
    requires { S.takes sink.old }
    ensures tells { Tells S.takes S.told S.stopped sink.old sink.new
        (at_record number (repeated rules.now entries.old (field_seen field.now))) result }
    ensures entries { OnOk result (entries.new ≡ entries_with rules.now entries.old (field_seen field.now)) }
{
    if !is_id_field(rules, field) {
        return Ok(());
    }
    let fault = repeated(entries, field)?;
    tell(sink, number, fault)
}

/// Tells a sink the entries of a list that stand in it before.
pub(crate) fn tell_repeats<S: FaultSink>(
    alloc: Global,
    seed: Seed,
    sink: &mut S,
    number: u64,
    rules: &Rules,
    list: Placed<'_>,
) -> Result<(), FaultEnd>
    requires { S.takes sink.old }
    ensures { Tells S.takes S.told S.stopped sink.old sink.new
        (at_record number (repeats_after rules.now [] (placed_left list.entry))) result }
{
    let mut entries = Entries::new(alloc, seed);
    for field in list {
        tell_repeat(sink, number, rules, &mut entries, &field)?;
    }
    Ok(())
}

/// Whether two fields are a pair by the rules of a version.
fn is_pair(rules: &Rules, first: &Field<'_>, second: &Field<'_>) -> bool
    ensures { result ≡ is_pair rules.now (first.now.bytes.now, second.now.bytes.now) }
{
    let first_is_id = is_id_field(rules, first);
    let second_is_id = is_id_field(rules, second);
    (first_is_id && second_is_id)
        || (rules.half_pairs
            && ((first_is_id && is_dash(second.bytes)) || (is_dash(first.bytes) && second_is_id)))
}

/// The fault of a pair that stands before, first in the field with this number, if it is one.
fn repeated_pair<'a>(
    rules: &Rules,
    first: &Field<'a>,
    second: &Field<'a>,
    place: Option<usize>,
) -> Option<Fault<'a>>
    ensures { let pair : PlacedPair = (field_seen first.now, field_seen second.now) in faults_seen result
        ≡ (if is_pair rules.now (first.now.bytes.now, second.now.bytes.now) && is_some place
        then fault_with DUPLICATE_ENTRY pair.0.0 (shown_of_pair pair) ∷ [] else []) }
{
    let place = place?;
    if !is_pair(rules, first, second) {
        return None;
    }
    let shown = if is_dash(first.bytes) { second } else { first };
    Some(Fault {
        code: DUPLICATE_ENTRY,
        field: first.number,
        id: shown.bytes,
        first: place,
    })
}

/// Tells a sink the pairs of a couple's list that stand in it before.
pub(crate) fn tell_pair_repeats<S: FaultSink>(
    alloc: Global,
    seed: Seed,
    sink: &mut S,
    number: u64,
    rules: &Rules,
    pairs: PlacedPairs<'_>,
) -> Result<(), FaultEnd>
    requires { S.takes sink.old }
    ensures { Tells S.takes S.told S.stopped sink.old sink.new
        (at_record number (pair_repeats_after rules.now [] (pairs_left pairs.entry))) result }
{
    let mut entries = PairEntries::new(alloc, seed);
    for (first, second) in pairs {
        let place = entries.add(pair_of(&first, &second), first.number)?;
        tell(sink, number, repeated_pair(rules, &first, &second, place))?;
    }
    Ok(())
}
