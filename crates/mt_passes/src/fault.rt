ghost use Rattle.std.specs.Prelude.{◌≡◌, ◌+◌, ◌<◌, ◌^◌, [], length, None};
ghost use Rattle.std.specs.Result.{result_ok};
ghost use Rattle.mt_lists.specs.Rows.{rows_left};
ghost use Rattle.mt_terms.specs.Registration.{market_under};
ghost use Rattle.mt_terms.specs.Registration.Passes.{numbered_from};
ghost use Rattle.mt_records.specs.Limits.{AreBounded};
ghost use Rattle.mt_records.specs.Refusals.{Refuses};
ghost use Rattle.mt_passes.specs.Registers.{records_seen, IsRegister};

use crate::first::first_pass;
use crate::register::Register;
use mt_lists::RowsIter;
use mt_records::{FirstFault, Rules};
use std::alloc::Global;

/// The first fault of rows that have one, by a register without records.
fn fault_by<'a>(
    alloc: Global,
    rules: &Rules,
    register: &mut Register<'a>,
    rows: RowsIter<'a>,
    first: u64,
) -> FirstFault<'a>
    requires limits { AreBounded rules.now.limits }
    requires few { first + length (rows_left rows) < 2 ^ 64 }
    requires fault { let all = numbered_from first (rows_left rows) in
        result_ok (market_under rules.now all) ≡ None }
    requires register { IsRegister register.old }
    requires none { records_seen register.old ≡ [] }
    ensures { Refuses result (market_under rules.now (numbered_from first (rows_left rows.entry))) }
{
    match first_pass(alloc, rules, register, rows, first) {
        Ok(()) => match register.second_pass() {
            Some(fault) => FirstFault::Fault(fault),
            None => unreachable!(),
        },
        Err(refusal) => refusal,
    }
}

/// The first fault of rows that have one, by these rules, or want of memory. The faults of one record by itself or
/// beside those before it come first. If there is none of these, the fault is that of the first record that names an
/// unknown id. The first row has this number.
pub fn first_fault<'a>(
    alloc: Global,
    rules: &Rules,
    rows: RowsIter<'a>,
    first: u64,
) -> FirstFault<'a>
    requires limits { AreBounded rules.now.limits }
    requires few { first + length (rows_left rows) < 2 ^ 64 }
    requires fault { let all = numbered_from first (rows_left rows) in
        result_ok (market_under rules.now all) ≡ None }
    ensures { Refuses result (market_under rules.now (numbered_from first (rows_left rows.entry))) }
{
    let mut register = Register::new(alloc, rows);
    fault_by(alloc, rules, &mut register, rows, first)
}
