ghost use Rattle.std.specs.Prelude.{◌≡◌, ℕ, [], ◌∷◌, take, IfOk, OnOk};
ghost use Rattle.mt_lists.specs.Rows.{rows_left};
ghost use Rattle.mt_terms.specs.Registration.Ids.{has_id};
ghost use Rattle.mt_terms.specs.Registration.Passes.{numbered_from};
ghost use Rattle.mt_fault_terms.specs.OfFile.{all_parts};
ghost use Rattle.mt_fault_terms.specs.Parts.{ids_among};
ghost use Rattle.mt_faults.specs.Seen.{field_seen, parts_seen, placed_left};
ghost use Rattle.mt_faults.specs.Registered.{added, row_parts, seen_with, AddsAll, AddsParts, IsRegistry};

use crate::names::names_of;
use crate::parts::{Parts, is_of_no_kind, parts_of};
use crate::placed::{Field, Placed};
use crate::tell::is_id_field;
use mt_ids::{IdTable, Kinds, Seed};
use mt_lists::{Row, RowsIter};
use mt_records::Rules;
use std::alloc::{AllocError, Global};

/// The ids that all records of a file register, each once, in the order in which they come.
pub(crate) struct Registry<'a> {
    /// The own ids of the records.
    pub(crate) registered: Kinds<'a>,
    /// The applicants, members of couples included.
    pub(crate) applicants: IdTable<'a>,
}

impl Drop for Registry<'_> {
    fn drop(self) {
        let Registry {
            registered: _,
            applicants: _,
        } = self;
    }
}

/// Adds a field to a table, if it is an id.
fn add_id<'a>(table: &mut IdTable<'a>, rules: &Rules, field: &Field<'a>) -> Result<(), AllocError>
    ensures { OnOk result
        (table.new ≡ added table.old (ids_among rules.now (field_seen field.now ∷ []))) }
{
    if !is_id_field(rules, field) {
        return Ok(());
    }
    table.add(field.bytes)?;
    Ok(())
}

/// Adds those of some fields that are ids to a table.
pub(crate) fn add_ids<'a>(
    table: &mut IdTable<'a>,
    rules: &Rules,
    fields: Placed<'a>,
) -> Result<(), AllocError>
    ensures { OnOk result (table.new ≡ added table.old (ids_among rules.now (placed_left fields.entry))) }
{
    for field in fields {
        add_id(table, rules, &field)?;
    }
    Ok(())
}

impl<'a> Registry<'a> {
    /// No ids. The tables hash by this seed.
    fn new(alloc: Global, seed: Seed) -> Self
        ensures programs { result.registered.programs ≡ [] }
        ensures singles { result.registered.applicants ≡ [] }
        ensures couples { result.registered.couples ≡ [] }
        ensures applicants { result.applicants ≡ [] }
    {
        Registry {
            registered: Kinds::new(alloc, seed),
            applicants: IdTable::new(alloc, seed),
        }
    }

    /// Adds what a record registers, with or without a fault.
    fn add(&mut self, rules: &Rules, parts: &Parts<'a>) -> Result<(), AllocError>
        ensures { OnOk result (AddsParts rules.now self.old self.new (parts_seen parts.now)) }
    {
        let ids = names_of(parts);
        add_ids(&mut self.registered.programs, rules, ids.programs)?;
        add_ids(&mut self.registered.applicants, rules, ids.singles)?;
        add_ids(&mut self.registered.couples, rules, ids.couples)?;
        add_ids(&mut self.applicants, rules, ids.applicants)
    }

    /// Adds what a row's record registers. A row without a field has no record, and one of no kind registers nothing.
    fn add_row(&mut self, rules: &Rules, row: Row<'a>) -> Result<(), AllocError>
        ensures { OnOk result (AddsAll rules.now self.old self.new (row_parts rules.now row.entry)) }
    {
        if is_of_no_kind(rules, row.fields()) {
            return Ok(());
        }
        let parts = parts_of(rules, row.fields());
        self.add(rules, &parts)
    }

    /// What these rows register.
    pub(crate) fn of(
        alloc: Global,
        rules: &Rules,
        seed: Seed,
        rows: RowsIter<'a>,
    ) -> Result<Self, AllocError>
        ensures { IfOk result (λ registry. (first : ℕ) → IsRegistry rules.now
            (all_parts rules.now (numbered_from first (rows_left rows.entry))) registry) }
    {
        let mut registry = Registry::new(alloc, seed);
        for row in rows {
            registry.add_row(rules, row)?;
        }
        Ok(registry)
    }
}

/// Whether an id is among the first `seen` of a table.
pub(crate) fn is_before(table: &IdTable<'_>, seen: usize, id: &[u8]) -> bool
    ensures { result ≡ has_id (take seen table.now) id.now }
{
    match table.number(id) {
        Some(number) => number < seen,
        None => false,
    }
}

/// How many of a table's ids were seen with one more: the next one of the table, unless it is among them already.
pub(crate) fn seen_with(table: &IdTable<'_>, seen: usize, id: &[u8]) -> usize
    ensures { result ≡ seen_with table.now seen id.now }
{
    if is_before(table, seen, id) || seen >= table.len() {
        seen
    } else {
        seen + 1
    }
}
