ghost use Rattle.std.specs.Prelude.{◌≡◌, List};
ghost use Rattle.mt_fault_terms.specs.OfRecord.{unknown_faults};
ghost use Rattle.mt_fault_terms.specs.Parts as model;
ghost use Rattle.mt_faults.specs.Seen.{faults_by_test, parts_seen};
ghost use Rattle.mt_faults.specs.Standing.{Stands};

use crate::finder::Finder;
use crate::parts::{Form, Parts};
use crate::tell::FieldTest;
use mt_ids::Kind;
use mt_terms::codes::{NOT_REGISTERED, UNKNOWN_APPLICANT, UNKNOWN_PROGRAM};

impl<'a> Finder<'a> {
    /// The test for the ids that a record names and that no record registers.
    pub(crate) fn unknown<'t>(&'t self, parts: &Parts<'a>) -> FieldTest<'t, 'a>
        ensures { (all before : List model.Parts) → Stands self.now all before
            → faults_by_test self.now.rules result
            ≡ unknown_faults self.now.rules all (parts_seen parts.now) }
    {
        let ids = &self.registry.registered;
        match parts.form {
            Form::Registers(Kind::Program) => {
                FieldTest::missing(UNKNOWN_APPLICANT, &self.registry.applicants, parts.list)
            }
            Form::Registers(Kind::Applicant) => {
                FieldTest::missing(UNKNOWN_PROGRAM, &ids.programs, parts.list)
            }
            Form::Registers(Kind::Couple) => {
                let fields = parts.pairs.first(parts.pairs.len() / 2 * 2);
                FieldTest::missing(UNKNOWN_PROGRAM, &ids.programs, fields)
            }
            Form::Withdraws(kind) => {
                FieldTest::missing(NOT_REGISTERED, ids.of(kind), parts.names)
            }
            Form::Unknown => FieldTest::of_none(parts.names),
        }
    }
}
