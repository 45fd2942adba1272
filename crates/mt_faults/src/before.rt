ghost use Rattle.std.specs.Prelude.{◌≡◌, [], ◌∷◌, ◌++◌, OnOk, List, min};
ghost use Rattle.mt_fault_terms.specs.Parts.{entries_among, ids_among};
ghost use Rattle.mt_fault_terms.specs.Parts as model;
ghost use Rattle.mt_faults.specs.Seen.{field_seen, parts_seen, placed_left};
ghost use Rattle.mt_faults.specs.Registered.{IsRegistry, PassesIds, most};
ghost use Rattle.mt_faults.specs.Standing.{IsBefore};

use crate::names::names_of;
use crate::parts::Parts;
use crate::placed::{Field, Placed};
use crate::registry::{Registry, add_ids, seen_with};
use crate::tell::is_id_field;
use mt_ids::{IdTable, Kinds, Seed};
use mt_records::Rules;
use std::alloc::{AllocError, Global};

/// The registrations in a table that stand before a record.
#[derive(Clone, Copy)]
pub(crate) struct Passed {
    /// How many different ids they have. These are the first of the table.
    pub(crate) seen: usize,
    /// How many they are, at most `u64::MAX`.
    pub(crate) count: u64,
}

impl Passed {
    /// With the registration of a field, if it is an id.
    fn with_one(self, table: &IdTable<'_>, rules: &Rules, field: &Field<'_>) -> Passed
        ensures { PassesIds table.now self result (ids_among rules.now (field_seen field.now ∷ [])) }
    {
        if !is_id_field(rules, field) {
            return self;
        }
        Passed {
            seen: seen_with(table, self.seen, field.bytes),
            count: self.count.saturating_add(1),
        }
    }

    /// With the registrations of those of some fields that are ids.
    fn with(self, table: &IdTable<'_>, rules: &Rules, fields: Placed<'_>) -> Passed
        ensures { PassesIds table.now self result (ids_among rules.now (placed_left fields.entry)) }
    {
        let mut passed = self;
        for field in fields {
            passed = passed.with_one(table, rules, &field);
        }
        passed
    }
}

/// What stands before a record.
pub(crate) struct Before<'a> {
    pub(crate) programs: Passed,
    pub(crate) couples: Passed,
    pub(crate) applicants: Passed,
    /// The entries of all lists, at most `u64::MAX`.
    pub(crate) entries: u64,
    /// The ids of the rows that are withdrawn.
    pub(crate) withdrawn: Kinds<'a>,
}

impl Drop for Before<'_> {
    fn drop(self) {
        let Before {
            programs: _,
            couples: _,
            applicants: _,
            entries: _,
            withdrawn: _,
        } = self;
    }
}

/// How many entries the list of a record has: a pair counts as two.
pub(crate) fn entries_of(parts: &Parts<'_>) -> u64
    ensures { result ≡ min (entries_among (parts_seen parts.now)) most }
{
    let in_pairs = parts.pairs.len() / 2 * 2;
    (parts.list.len() as u64).saturating_add(in_pairs as u64)
}

impl<'a> Before<'a> {
    /// What stands before the first record. The tables of what is withdrawn hash by this seed.
    pub(crate) fn new(alloc: Global, seed: Seed) -> Self
        ensures { (rules : _) → IsBefore rules [] result }
    {
        let none = Passed { seen: 0, count: 0 };
        Before {
            programs: none,
            couples: none,
            applicants: none,
            entries: 0,
            withdrawn: Kinds::new(alloc, seed),
        }
    }

    /// Passes over a record, so that what it registers and withdraws stands before the next one.
    pub(crate) fn pass(
        &mut self,
        rules: &Rules,
        registry: &Registry<'a>,
        parts: &Parts<'a>,
    ) -> Result<(), AllocError>
        ensures { OnOk result ((before rest : List model.Parts)
            → IsRegistry rules.now (before ++ parts_seen parts.now ∷ rest) registry.now
            → IsBefore rules.now before self.old → IsBefore rules.now (before ++ parts_seen parts.now ∷ []) self.new) }
    {
        let ids = names_of(parts);
        let tables = &registry.registered;
        self.programs = self.programs.with(&tables.programs, rules, ids.programs);
        self.couples = self.couples.with(&tables.couples, rules, ids.couples);
        self.applicants = self
            .applicants
            .with(&registry.applicants, rules, ids.applicants);
        self.entries = self.entries.saturating_add(entries_of(parts));
        let withdrawn = &mut self.withdrawn;
        add_ids(&mut withdrawn.programs, rules, ids.withdrawn_programs)?;
        add_ids(&mut withdrawn.applicants, rules, ids.withdrawn_singles)?;
        add_ids(&mut withdrawn.couples, rules, ids.withdrawn_couples)
    }
}
