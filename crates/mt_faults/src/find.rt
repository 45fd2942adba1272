ghost use Rattle.mt_fault_terms.specs.OfFile.{faults_of};
ghost use Rattle.mt_fault_sink.specs.Telling.{Tells};

use crate::rows::tell_rows;
use crate::tell::{fault_alone, tell};
use mt_fault_sink::{FaultEnd, FaultSink};
use mt_ids::Seed;
use mt_lists::Rows;
use mt_records::body_of;
use mt_terms::codes::NO_VERSION;
use std::alloc::Global;

/// Hands a sink all faults of a file's records, in the order of the file. A record is a list of fields without its
/// trailing empty ones. Records are counted from 1, and one without a field is passed over. The error says whether
/// memory was refused or the sink stopped. The sink has the first of the faults then. Tables of ids hash by the seed.
pub fn find_faults<S: FaultSink>(
    alloc: Global,
    seed: Seed,
    rows: &Rows<'_>,
    sink: &mut S,
) -> Result<(), FaultEnd>
    requires { S.takes sink.old }
    ensures { Tells S.takes S.told S.stopped sink.old sink.new (faults_of rows.now) result }
{
    match body_of(rows) {
        Ok(body) => tell_rows(alloc, seed, &body.rules, body.rows, body.first, sink),
        Err(number) => tell(sink, number, Some(fault_alone(NO_VERSION, 0))),
    }
}
