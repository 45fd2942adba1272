ghost use Rattle.std.specs.Prelude.{◌≡◌, ◌+◌, false, nat_lt, ◌++◌, [], ◌∷◌, option_map, flat_map, None, OnOk, IfOk};
ghost use Rattle.std.specs.Option.{option_copied};
ghost use Rattle.mt_terms.specs.Registration.Passes.{first_in, registered_before, says_twice, are_too_many, first_conflict};
ghost use Rattle.mt_records.specs.Records.{record_seen, record_fault_seen};
ghost use Rattle.mt_lists.specs.Rows.{rows_left};
ghost use Rattle.mt_ids.specs.Seeds.{seed_of};
ghost use Rattle.mt_passes.specs.Registers.{records_seen, contents_seen, withdraws_twice, AreFew, IsRegister, AddsRecord};

use crate::repeats::{add_fields, has_repeat, has_repeated_pair};
use mt_ids::{IdTable, Kind, Kinds, Seed};
use mt_lists::RowsIter;
use mt_records::{Record, RecordFault, Rules, are_over, push};
use mt_terms::Limits;
use mt_terms::codes::{DUPLICATE_ENTRY, DUPLICATE_ID, TOO_MANY};
use std::alloc::{AllocError, Global};
use std::hash::DefaultHasher;

/// A record with its number in the file.
#[derive(Drop)]
pub(crate) struct Numbered<'a> {
    pub(crate) row: u64,
    pub(crate) record: Record<'a>,
}

/// The seed of tables of what these rows register and withdraw.
fn seed_of(rows: RowsIter<'_>) -> Seed
    ensures { result ≡ seed_of (flat_map (λ fields. fields) (rows_left rows.entry)) }
{
    let mut digest = DefaultHasher::new();
    for row in rows {
        add_fields(&mut digest, row.fields());
    }
    Seed::of(&digest)
}

/// The records that were read, with what they register and what they withdraw.
pub(crate) struct Register<'a> {
    pub(crate) records: Vec<Numbered<'a>>,
    /// The own ids of the records.
    pub(crate) registered: Kinds<'a>,
    /// The applicants, members of couples included.
    pub(crate) applicants: IdTable<'a>,
    /// The ids of the rows that are withdrawn.
    pub(crate) withdrawn: Kinds<'a>,
    /// How many entries the lists have in all.
    pub(crate) entries: u64,
}

impl Drop for Register<'_> {
    fn drop(self) {
        let Register {
            records: _,
            registered: _,
            applicants: _,
            withdrawn: _,
            entries: _,
        } = self;
    }
}

impl<'a> Register<'a> {
    /// A register without records. The tables of its ids hash by a seed that depends on the rows that it will have.
    pub(crate) fn new(alloc: Global, rows: RowsIter<'_>) -> Self
        ensures register { IsRegister result }
        ensures records { records_seen result ≡ [] }
    {
        let seed = seed_of(rows);
        Register {
            records: Vec::new(alloc),
            registered: Kinds::new(alloc, seed),
            applicants: IdTable::new(alloc, seed),
            withdrawn: Kinds::new(alloc, seed),
            entries: 0,
        }
    }

    /// The first id of a record, in the order own, first member, second member, that is registered already.
    pub(crate) fn registered_before(&self, record: &Record<'a>) -> Option<&'a [u8]>
        requires { IsRegister self.now }
        ensures { option_copied result
            ≡ registered_before (contents_seen self.now) (record_seen «record».now) }
    {
        match record {
            Record::Program { id, .. } => found(&self.registered.programs, id),
            Record::Applicant { id, .. } => found(&self.applicants, id),
            Record::Couple { id, fields } => {
                let (first, second) = fields.members();
                if self.registered.couples.contains(id) {
                    Some(id)
                } else if self.applicants.contains(first) {
                    Some(first)
                } else if second == first || self.applicants.contains(second) {
                    Some(second)
                } else {
                    None
                }
            }
            Record::Withdraw { .. } => None,
        }
    }

    /// Whether a record's list has an id or a pair twice, or the record withdraws what was withdrawn before.
    fn says_twice(&self, alloc: Global, record: &Record<'a>) -> Result<bool, AllocError>
        requires { IsRegister self.now }
        ensures { IfOk result
            (λ twice. twice ≡ says_twice (contents_seen self.now) (record_seen «record».now)) }
    {
        match record {
            Record::Program { list, .. } => has_repeat(alloc, *list),
            Record::Applicant { list, .. } => has_repeat(alloc, *list),
            Record::Couple { fields, .. } => has_repeated_pair(alloc, fields.pairs()),
            Record::Withdraw { kind, id } => Ok(self.withdrawn.of(*kind).contains(id)),
        }
    }

    /// Whether the records with this one are more than a version takes.
    pub(crate) fn are_too_many(&self, limits: &Limits, record: &Record<'a>) -> bool
        requires { IsRegister self.now }
        ensures { result
            ≡ are_too_many limits.now (contents_seen self.now ++ record_seen «record».now ∷ []) }
    {
        let applicants = self.applicants.len() + record.applicant_count();
        let programs = self.registered.programs.len() + record.program_count();
        let couples = self.registered.couples.len() + record.couple_count();
        are_over(limits, applicants, programs, couples)
            || adds_too_many(limits, self.entries, record.entry_count())
    }

    /// The first fault of a record beside those before it.
    pub(crate) fn first_conflict(
        &self,
        alloc: Global,
        rules: &Rules,
        record: &Record<'a>,
    ) -> Result<Option<RecordFault<'a>>, AllocError>
        requires { IsRegister self.now }
        ensures { let r = record_seen «record».now in
            IfOk result (λ fault. option_map record_fault_seen fault
            ≡ first_conflict rules.now (contents_seen self.now) r) }
    {
        if let Some(id) = self.registered_before(record) {
            return Ok(Some(RecordFault {
                code: DUPLICATE_ID,
                id,
            }));
        }
        let id = record.id();
        if self.says_twice(alloc, record)? {
            return Ok(Some(RecordFault {
                code: DUPLICATE_ENTRY,
                id,
            }));
        }
        if self.are_too_many(&rules.limits, record) {
            return Ok(Some(RecordFault { code: TOO_MANY, id }));
        }
        Ok(None)
    }
}

impl<'a> Register<'a> {
    /// Adds what a record registers, or what it withdraws.
    fn push_ids(&mut self, record: &Record<'a>) -> Result<(), AllocError>
        requires register { IsRegister self.old }
        requires new { let r = record_seen «record».now in
            registered_before (contents_seen self.old) r ≡ None }
        requires once { let r = record_seen «record».now in
            withdraws_twice (contents_seen self.old) r ≡ false }
        ensures { OnOk result (AddsRecord self.old self.new (record_seen «record».now)) }
    {
        match record {
            Record::Program { id, .. } => self.registered.push(Kind::Program, id),
            Record::Applicant { id, .. } => {
                self.registered.push(Kind::Applicant, id)?;
                self.applicants.push(id)
            }
            Record::Couple { id, fields } => {
                let (first, second) = fields.members();
                self.registered.push(Kind::Couple, id)?;
                self.applicants.push(first)?;
                self.applicants.push(second)
            }
            Record::Withdraw { kind, id } => self.withdrawn.push(*kind, id),
        }
    }

    /// Adds a record. None of its ids is registered, it withdraws nothing again, and there are not too many with it.
    pub(crate) fn push(&mut self, row: u64, next: Record<'a>) -> Result<(), AllocError>
        requires register { IsRegister self.old }
        requires new { registered_before (contents_seen self.old) (record_seen next) ≡ None }
        requires once { withdraws_twice (contents_seen self.old) (record_seen next) ≡ false }
        requires few { AreFew (contents_seen self.old ++ record_seen next ∷ []) }
        ensures register { OnOk result (IsRegister self.new) }
        ensures records { OnOk result
            (records_seen self.new ≡ records_seen self.old ++ (row, record_seen next.entry) ∷ []) }
    {
        self.push_ids(&next)?;
        self.entries += next.entry_count();
        push(&mut self.records, Numbered { row, record: next })
    }
}

/// The id, if it is one of these.
fn found<'a>(ids: &IdTable<'_>, id: &'a [u8]) -> Option<&'a [u8]>
    ensures { option_copied result ≡ first_in ids.now (id.now ∷ []) }
{
    if ids.contains(id) { Some(id) } else { None }
}

/// Whether `entries` and `more` entries together are more than the limits allow.
pub(crate) fn adds_too_many(limits: &Limits, entries: u64, more: u64) -> bool
    ensures { result ≡ nat_lt limits.now.entries (entries + more) }
{
    entries.saturating_add(more) > u64::from(limits.entries)
}
