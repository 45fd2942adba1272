ghost use Rattle.std.specs.Prelude.{◌≡◌, ◌+◌, ◌<◌, ◌^◌, [], length};
ghost use Rattle.mt_lists.specs.Rows.{fields_left, rows_left};
ghost use Rattle.mt_terms.specs.Registration.Passes.{first_pass, numbered_from};
ghost use Rattle.mt_records.specs.Records.{record_seen};
ghost use Rattle.mt_records.specs.Limits.{AreBounded};
ghost use Rattle.mt_passes.specs.Registers.{records_seen, IsRegister};
ghost use Rattle.mt_passes.specs.Passes.{Reads, ReadsRecord, ReadsRow, GivesRegister};

use crate::register::Register;
use mt_lists::{Fields, Row, RowsIter};
use mt_records::{FirstFault, Record, Rules, record_of};
use std::alloc::Global;

/// Adds a record to a register, if it has no fault beside those before it.
fn read_record<'a>(
    alloc: Global,
    rules: &Rules,
    register: &mut Register<'a>,
    number: u64,
    next: Record<'a>,
) -> Result<(), FirstFault<'a>>
    requires limits { AreBounded rules.now.limits }
    requires register { IsRegister register.old }
    ensures { let r = record_seen next.entry in
        ReadsRecord rules.now register.old register.new number r result }
{
    if let Some(record_fault) = register.first_conflict(alloc, rules, &next)? {
        return Err(FirstFault::Fault(record_fault.at(number)));
    }
    register.push(number, next)?;
    Ok(())
}

/// Adds the record of a row to a register.
fn read_fields<'a>(
    alloc: Global,
    rules: &Rules,
    register: &mut Register<'a>,
    number: u64,
    fields: Fields<'a>,
) -> Result<(), FirstFault<'a>>
    requires limits { AreBounded rules.now.limits }
    requires register { IsRegister register.old }
    ensures { Reads rules.now register.old register.new (number, fields_left fields.entry) result }
{
    match record_of(rules, fields) {
        Ok(next) => read_record(alloc, rules, register, number, next),
        Err(record_fault) => Err(FirstFault::Fault(record_fault.at(number))),
    }
}

/// Adds the record of a row to a register, if the row has a field.
fn read_row<'a>(
    alloc: Global,
    rules: &Rules,
    register: &mut Register<'a>,
    number: u64,
    row: Row<'a>,
) -> Result<(), FirstFault<'a>>
    requires limits { AreBounded rules.now.limits }
    requires register { IsRegister register.old }
    ensures { ReadsRow rules.now register.old register.new number row.entry result }
{
    if row.is_empty() {
        return Ok(());
    }
    read_fields(alloc, rules, register, number, row.fields())
}

/// Adds the records of these rows to a register that has none, or gives their first fault. The first row has this
/// number. After a fault nothing is known of the register.
pub(crate) fn first_pass<'a>(
    alloc: Global,
    rules: &Rules,
    register: &mut Register<'a>,
    rows: RowsIter<'a>,
    first: u64,
) -> Result<(), FirstFault<'a>>
    requires limits { AreBounded rules.now.limits }
    requires few { first + length (rows_left rows) < 2 ^ 64 }
    requires register { IsRegister register.old }
    requires none { records_seen register.old ≡ [] }
    ensures { let all = numbered_from first (rows_left rows.entry) in
        GivesRegister register.new result (first_pass rules.now [] all) }
{
    let mut number = first;
    for row in rows {
        read_row(alloc, rules, register, number, row)?;
        number += 1;
    }
    Ok(())
}
