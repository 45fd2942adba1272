ghost use Rattle.std.specs.Prelude.{◌≡◌, ℕ, ◌+◌, ◌<◌, ◌^◌, ◌++◌, List, [], length, IfOk, OnOk};
ghost use Rattle.mt_lists.specs.Rows.{rows_left};
ghost use Rattle.mt_terms.specs.Registration.Passes.{numbered_from};
ghost use Rattle.mt_fault_terms.specs.OfFile.{all_parts, faults_under};
ghost use Rattle.mt_fault_terms.specs.Parts as model;
ghost use Rattle.mt_fault_sink.specs.Telling.{Tells};
ghost use Rattle.mt_faults.specs.Registered.{row_parts};
ghost use Rattle.mt_faults.specs.Standing.{Stands, row_faults};

use crate::before::Before;
use crate::finder::Finder;
use crate::parts::{is_of_no_kind, parts_of};
use crate::registry::Registry;
use crate::tell::{fault_alone, tell};
use mt_fault_sink::{FaultEnd, FaultSink};
use mt_ids::Seed;
use mt_lists::{Row, RowsIter};
use mt_records::Rules;
use mt_terms::codes::UNKNOWN_KIND;
use std::alloc::{AllocError, Global};

impl<'a> Finder<'a> {
    /// What is read of these rows by the rules of a version, before the first of them. The error is want of memory.
    fn new(alloc: Global, seed: Seed, rules: &Rules, rows: RowsIter<'a>) -> Result<Self, AllocError>
        ensures rules { IfOk result (λ finder. finder.rules ≡ rules.now) }
        ensures stands { IfOk result (λ finder. (first : ℕ) → Stands finder
            (all_parts rules.now (numbered_from first (rows_left rows.entry))) []) }
    {
        let registry = Registry::of(alloc, rules, seed, rows)?;
        Ok(Finder {
            rules: *rules,
            seed,
            registry,
            before: Before::new(alloc, seed),
        })
    }

    /// Tells a sink the faults of a row's record, and passes over it. A row without a field has no record.
    fn tell_row<S: FaultSink>(
        &mut self,
        alloc: Global,
        sink: &mut S,
        number: u64,
        row: Row<'a>,
    ) -> Result<(), FaultEnd>
        requires { S.takes sink.old }
        ensures takes { OnOk result (S.takes sink.new) }
        ensures rules { OnOk result (self.new.rules ≡ self.old.rules) }
        ensures tells { (all before : List model.Parts) → Stands self.old all before
            → Tells S.takes S.told S.stopped sink.old sink.new
            (row_faults self.old.rules all before number row.entry) result }
        ensures stands { OnOk result ((all before rest : List model.Parts) → Stands self.old all before
            → all ≡ before ++ row_parts self.old.rules row.entry ++ rest
            → Stands self.new all (before ++ row_parts self.old.rules row.entry)) }
    {
        if row.is_empty() {
            return Ok(());
        }
        if is_of_no_kind(&self.rules, row.fields()) {
            return tell(sink, number, Some(fault_alone(UNKNOWN_KIND, 1)));
        }
        let parts = parts_of(&self.rules, row.fields());
        self.tell_record(alloc, sink, number, &parts)?;
        self.before.pass(&self.rules, &self.registry, &parts)?;
        Ok(())
    }
}

/// Tells a sink the faults of these rows by the rules of a version. The first row has this number.
pub(crate) fn tell_rows<S: FaultSink>(
    alloc: Global,
    seed: Seed,
    rules: &Rules,
    rows: RowsIter<'_>,
    first: u64,
    sink: &mut S,
) -> Result<(), FaultEnd>
    requires takes { S.takes sink.old }
    requires few { first + length (rows_left rows) < 2 ^ 64 }
    ensures { Tells S.takes S.told S.stopped sink.old sink.new
        (faults_under rules.now (numbered_from first (rows_left rows.entry))) result }
{
    let mut finder = Finder::new(alloc, seed, rules, rows)?;
    let mut number = first;
    for row in rows {
        finder.tell_row(alloc, sink, number, row)?;
        number += 1;
    }
    Ok(())
}
