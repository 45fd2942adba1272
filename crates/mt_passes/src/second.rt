ghost use Rattle.std.specs.Prelude.{◌≡◌, option_map};
ghost use Rattle.std.specs.Option.{option_copied};
ghost use Rattle.mt_terms.specs.Registration.Faults.{record_fault};
ghost use Rattle.mt_terms.specs.Registration.Passes.{second_pass, unknown_id};
ghost use Rattle.mt_records.specs.Records.{record_fault_seen, record_seen};
ghost use Rattle.mt_records.specs.Refusals.{fault_seen};
ghost use Rattle.mt_passes.specs.Registers.{records_seen, contents_seen, IsRegister};

use crate::register::Register;
use crate::unknown::{first_unknown, first_unknown_of_pairs};
use mt_records::{Fault, Record, RecordFault};
use mt_terms::codes::{NOT_REGISTERED, UNKNOWN_APPLICANT, UNKNOWN_PROGRAM};

/// A fault with this code at an id, if there is one.
fn record_fault_of<'a>(code: u16, id: Option<&'a [u8]>) -> Option<RecordFault<'a>>
    ensures { option_map record_fault_seen result
        ≡ option_map (record_fault code) (option_copied id.entry) }
{
    let id = id?;
    Some(RecordFault { code, id })
}

impl<'a> Register<'a> {
    /// The first id that a record names and that no record registers.
    fn unknown_id(&self, record: &Record<'a>) -> Option<RecordFault<'a>>
        requires { IsRegister self.now }
        ensures { option_map record_fault_seen result
            ≡ unknown_id (contents_seen self.now) (record_seen «record».now) }
    {
        match record {
            Record::Program { list, .. } => {
                record_fault_of(UNKNOWN_APPLICANT, first_unknown(&self.applicants, *list))
            }
            Record::Applicant { list, .. } => {
                record_fault_of(
                    UNKNOWN_PROGRAM,
                    first_unknown(&self.registered.programs, *list),
                )
            }
            Record::Couple { fields, .. } => record_fault_of(
                UNKNOWN_PROGRAM,
                first_unknown_of_pairs(&self.registered.programs, fields.pairs()),
            ),
            Record::Withdraw { kind, id } => {
                if self.registered.of(*kind).contains(id) {
                    None
                } else {
                    Some(RecordFault {
                        code: NOT_REGISTERED,
                        id,
                    })
                }
            }
        }
    }

    /// The first fault of the second pass: the first record that names an unknown id.
    pub(crate) fn second_pass(&self) -> Option<Fault<'a>>
        requires { IsRegister self.now }
        ensures { option_map fault_seen result ≡ second_pass (records_seen self.now) }
    {
        for i in 0..self.records.len() {
            let numbered = &self.records[i];
            if let Some(record_fault) = self.unknown_id(&numbered.record) {
                return Some(record_fault.at(numbered.row));
            }
        }
        None
    }
}
