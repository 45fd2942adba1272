ghost use Rattle.std.specs.Prelude.{◌≡◌, ℕ, ◌+◌, ◌≤◌, ◌++◌, ◌∷◌, [], List, OnOk, length, min, take, if◌then◌else◌};
ghost use Rattle.mt_terms.specs.declared.codes.TheConstants.{DUPLICATE_ID, TOO_MANY};
ghost use Rattle.mt_fault_terms.specs.OfRecord.{id_among, quota_faults, found_among, members_before, passes, own_faults, limit_faults, record_faults};
ghost use Rattle.mt_fault_terms.specs.Parts as model;
ghost use Rattle.mt_fault_terms.specs.Parts.{ids_among};
ghost use Rattle.mt_fault_sink.specs.Seen.{fault_with, faults_seen};
ghost use Rattle.mt_fault_sink.specs.Telling.{Tells, at_record};
ghost use Rattle.mt_faults.specs.Registered.{most};
ghost use Rattle.mt_faults.specs.Repeated.{repeats_in_list};
ghost use Rattle.mt_faults.specs.Seen.{faults_by_test, field_seen, form_faults, parts_seen, placed_left};
ghost use Rattle.mt_faults.specs.Standing.{AreCounted, Stands, own_again, withdrawn_again};

use crate::before::{Before, entries_of};
use crate::names::names_of;
use crate::parts::{Form, FormFault, Parts};
use crate::placed::{Field, Placed, PlacedPairs};
use crate::registry::{Registry, is_before};
use crate::repeats::{tell_pair_repeats, tell_repeats};
use crate::tell::{FieldTest, fault_alone, fault_of, is_id_field, tell, tell_bad_pairs, tell_each};
use mt_fault_sink::{Fault, FaultEnd, FaultSink};
use mt_ids::{Kind, Seed, parse_quota};
use mt_records::Rules;
use mt_terms::Limits;
use mt_terms::codes::{BAD_QUOTA, DUPLICATE_ENTRY, DUPLICATE_ID, TOO_MANY};
use std::alloc::Global;

/// What a record is read beside: the rules of the version, what all records register, and what stands before it.
pub(crate) struct Finder<'a> {
    pub(crate) rules: Rules,
    /// What tables hash by.
    pub(crate) seed: Seed,
    pub(crate) registry: Registry<'a>,
    pub(crate) before: Before<'a>,
}

impl Drop for Finder<'_> {
    fn drop(self) {
        let Finder {
            rules: _,
            seed: _,
            registry: _,
            before: _,
        } = self;
    }
}

/// A fault of a record's form, as a sink takes it.
fn form_fault<'a>(fault: Option<FormFault>) -> Option<Fault<'a>>
    ensures { faults_seen result ≡ form_faults fault }
{
    let fault = fault?;
    Some(fault_alone(fault.code, fault.field))
}

/// The id that a record has first: nothing if that field isn't an id.
fn first_id<'a>(rules: &Rules, names: Placed<'a>) -> &'a [u8]
    ensures { result.now ≡ id_among rules.now (placed_left names.entry) }
{
    match names.head() {
        Some(field) if is_id_field(rules, &field) => field.bytes,
        _ => &[],
    }
}

/// The fault that the field for a quota isn't one.
fn bad_quota<'a>(rules: &Rules, parts: &Parts<'a>) -> Option<Fault<'a>>
    ensures { faults_seen result ≡ quota_faults rules.now (parts_seen parts.now) }
{
    let field = parts.quota?;
    if parse_quota(field.bytes).is_some() {
        return None;
    }
    Some(Fault {
        code: BAD_QUOTA,
        field: field.number,
        id: first_id(rules, parts.names),
        first: 0,
    })
}

/// The fault that a limit is passed, with this id.
fn passed<'a>(is_passed: bool, id: &'a [u8]) -> Option<Fault<'a>>
    ensures { faults_seen result
        ≡ (if is_passed then fault_with TOO_MANY 0 id.now ∷ [] else []) }
{
    if !is_passed {
        return None;
    }
    Some(Fault {
        code: TOO_MANY,
        field: 0,
        id,
        first: 0,
    })
}

/// The limits of a version.
fn limits_of(rules: &Rules) -> Limits
    ensures { result ≡ rules.now.limits }
{
    rules.limits
}

/// Whether a count passes a limit with what is added. Both are at most `u64::MAX`, whatever was counted.
fn passes(limit: u32, before: u64, added: u64) -> bool
    ensures { (counted more : ℕ) → before ≡ min counted most → added ≡ min more most
        → result ≡ passes limit counted more }
{
    let limit = u64::from(limit);
    before <= limit && before.saturating_add(added) > limit
}

/// A count with one more, if a field is an id.
fn count_with(rules: &Rules, count: u64, field: &Field<'_>) -> u64
    ensures { result ≡ min (count + length (ids_among rules.now (field_seen field.now ∷ []))) most }
{
    if is_id_field(rules, field) {
        count.saturating_add(1)
    } else {
        count
    }
}

/// How many of some fields are ids, at most `u64::MAX`.
fn ids_count(rules: &Rules, fields: Placed<'_>) -> u64
    ensures { result ≡ min (length (ids_among rules.now (placed_left fields.entry))) most }
{
    let mut count = 0;
    for field in fields {
        count = count_with(rules, count, &field);
    }
    count
}

impl<'a> Finder<'a> {
    /// Tells a sink the faults that a record has by itself.
    fn tell_own<S: FaultSink>(
        &self,
        sink: &mut S,
        number: u64,
        parts: &Parts<'a>,
    ) -> Result<(), FaultEnd>
        requires { S.takes sink.old }
        ensures { Tells S.takes S.told S.stopped sink.old sink.new
            (at_record number (own_faults self.now.rules (parts_seen parts.now))) result }
    {
        let rules = &self.rules;
        let pairs = PlacedPairs {
            fields: parts.pairs,
        };
        tell(sink, number, form_fault(parts.fault))?;
        tell_each(sink, number, rules, FieldTest::of_ids(parts.names))?;
        tell_each(sink, number, rules, FieldTest::of_ids(parts.list))?;
        tell_bad_pairs(sink, number, rules, pairs)?;
        tell(sink, number, bad_quota(rules, parts))
    }

    /// The fault that a couple's second member is registered before, or is the first one.
    fn second_found(&self, first: &Field<'a>, second: &Field<'a>) -> Option<Fault<'a>>
        ensures { let ids = take self.now.before.applicants.seen self.now.registry.applicants in faults_seen result
            ≡ found_among self.now.rules DUPLICATE_ID (ids ++ first.now.bytes.now ∷ []) (field_seen second.now ∷ []) }
    {
        let seen = self.before.applicants.seen;
        let is_found = is_before(&self.registry.applicants, seen, second.bytes)
            || second.bytes == first.bytes;
        if is_found && is_id_field(&self.rules, second) {
            Some(fault_of(DUPLICATE_ID, second))
        } else {
            None
        }
    }

    /// Tells a sink the members of a couple that are registered before.
    fn tell_members<S: FaultSink>(
        &self,
        sink: &mut S,
        number: u64,
        members: Placed<'a>,
    ) -> Result<(), FaultEnd>
        requires takes { S.takes sink.old }
        requires few { length (placed_left members) ≤ 2 }
        ensures { let ids = take self.now.before.applicants.seen self.now.registry.applicants in
            Tells S.takes S.told S.stopped sink.old sink.new
            (at_record number (members_before self.now.rules ids (placed_left members.entry))) result }
    {
        let seen = self.before.applicants.seen;
        let ids = &self.registry.applicants;
        let test = FieldTest::found(DUPLICATE_ID, ids, seen, members.first(1));
        tell_each(sink, number, &self.rules, test)?;
        let Some(first) = members.head() else {
            return Ok(());
        };
        match members.tail().head() {
            Some(second) => tell(sink, number, self.second_found(&first, &second)),
            None => Ok(()),
        }
    }

    /// The test for the own id of a record that is registered before.
    fn own_again<'t>(&'t self, parts: &Parts<'a>) -> FieldTest<'t, 'a>
        ensures { (all before : List model.Parts) → Stands self.now all before
            → faults_by_test self.now.rules result
            ≡ own_again self.now.rules before (parts_seen parts.now) }
    {
        let ids = &self.registry.registered;
        match parts.form {
            Form::Registers(Kind::Program) => {
                let seen = self.before.programs.seen;
                FieldTest::found(DUPLICATE_ID, &ids.programs, seen, parts.names)
            }
            Form::Registers(Kind::Applicant) => {
                let seen = self.before.applicants.seen;
                FieldTest::found(DUPLICATE_ID, &self.registry.applicants, seen, parts.names)
            }
            Form::Registers(Kind::Couple) => {
                let seen = self.before.couples.seen;
                FieldTest::found(DUPLICATE_ID, &ids.couples, seen, parts.names.first(1))
            }
            _ => FieldTest::of_none(parts.names),
        }
    }

    /// The test for what a record withdraws again.
    fn withdrawn_again<'t>(&'t self, parts: &Parts<'a>) -> FieldTest<'t, 'a>
        ensures { (all before : List model.Parts) → Stands self.now all before
            → faults_by_test self.now.rules result
            ≡ withdrawn_again self.now.rules before (parts_seen parts.now) }
    {
        let Form::Withdraws(kind) = parts.form else {
            return FieldTest::of_none(parts.names);
        };
        let ids = self.before.withdrawn.of(kind);
        FieldTest::found(DUPLICATE_ENTRY, ids, ids.len(), parts.names)
    }

    /// Tells a sink the entries and the pairs of a record that stand in its list before.
    fn tell_repeated<S: FaultSink>(
        &self,
        alloc: Global,
        sink: &mut S,
        number: u64,
        parts: &Parts<'a>,
    ) -> Result<(), FaultEnd>
        requires { S.takes sink.old }
        ensures { Tells S.takes S.told S.stopped sink.old sink.new
            (at_record number (repeats_in_list self.now.rules (parts_seen parts.now))) result }
    {
        let pairs = PlacedPairs {
            fields: parts.pairs,
        };
        tell_repeats(alloc, self.seed, sink, number, &self.rules, parts.list)?;
        tell_pair_repeats(alloc, self.seed, sink, number, &self.rules, pairs)
    }

    /// How many applicants, programs and couples a record registers, each at most `u64::MAX`.
    fn registers(&self, parts: &Parts<'a>) -> (u64, u64, u64)
        ensures { AreCounted self.now.rules (parts_seen parts.now) result.0 result.1 result.2 }
    {
        let ids = names_of(parts);
        let applicants = ids_count(&self.rules, ids.applicants);
        let programs = ids_count(&self.rules, ids.programs);
        (applicants, programs, ids_count(&self.rules, ids.couples))
    }

    /// Tells a sink the limits that are passed with a record.
    fn tell_limits<S: FaultSink>(
        &self,
        sink: &mut S,
        number: u64,
        parts: &Parts<'a>,
    ) -> Result<(), FaultEnd>
        requires { S.takes sink.old }
        ensures takes { OnOk result (S.takes sink.new) }
        ensures tells { (all before : List model.Parts) → Stands self.now all before
            → Tells S.takes S.told S.stopped sink.old sink.new
            (at_record number (limit_faults self.now.rules before (parts_seen parts.now))) result }
    {
        let limits = limits_of(&self.rules);
        let before = &self.before;
        let id = first_id(&self.rules, parts.names);
        let (applicants, programs, couples) = self.registers(parts);
        let many_applicants = passes(limits.applicants, before.applicants.count, applicants);
        let many_programs = passes(limits.programs, before.programs.count, programs);
        let many_couples = passes(limits.couples, before.couples.count, couples);
        let many_entries = passes(limits.entries, before.entries, entries_of(parts));
        tell(sink, number, passed(many_applicants, id))?;
        tell(sink, number, passed(many_programs, id))?;
        tell(sink, number, passed(many_couples, id))?;
        tell(sink, number, passed(many_entries, id))
    }

    /// Tells a sink all faults of a record.
    pub(crate) fn tell_record<S: FaultSink>(
        &self,
        alloc: Global,
        sink: &mut S,
        number: u64,
        parts: &Parts<'a>,
    ) -> Result<(), FaultEnd>
        requires takes { S.takes sink.old }
        requires few { length (placed_left parts.now.names) ≤ 3 }
        ensures takes { OnOk result (S.takes sink.new) }
        ensures tells { (all before : List model.Parts) → Stands self.now all before
            → Tells S.takes S.told S.stopped sink.old sink.new
            (at_record number (record_faults self.now.rules all before (parts_seen parts.now))) result }
    {
        let rules = &self.rules;
        self.tell_own(sink, number, parts)?;
        tell_each(sink, number, rules, self.own_again(parts))?;
        self.tell_members(sink, number, parts.members())?;
        self.tell_repeated(alloc, sink, number, parts)?;
        tell_each(sink, number, rules, self.withdrawn_again(parts))?;
        self.tell_limits(sink, number, parts)?;
        tell_each(sink, number, rules, self.unknown(parts))
    }
}
