ghost use Rattle.std.specs.Prelude.{◌≡◌, ◌≤◌, [], length};
ghost use Rattle.mt_match_file.specs.Submitted.{shown};

use mt_ids::is_id;
use mt_terms::{IdText, LIMITS_2, Refusal};
use std::alloc::AllocError;
use thiserror::Error;

/// Why records give no match.
#[derive(Debug, Drop, Error)]
pub enum MatchError {
    /// The match has this fault first.
    #[error("a fault in the records")]
    Fault(Refusal),
    /// Memory was refused.
    #[error("out of memory")]
    Memory,
}

impl From<AllocError> for MatchError {
    ghost use Rattle.mt_match_file.specs.declared.fault.MatchError.TheVariants.{Memory};

    ghost from_gives = { λ _ e. e ≡ Memory };

    fn from(_error: AllocError) -> Self {
        MatchError::Memory
    }
}

/// A fault of a record: its code, and the id at fault as it may be shown, which is empty if there is none.
#[derive(Clone, Copy)]
pub(crate) struct RecordFault<'a> {
    code: u16,
    id: &'a [u8],
    ghost short: { length id.now ≤ 64 },
}

/// A field if it is an id, which may be shown, and else nothing.
fn shown(field: &[u8]) -> &[u8]
    ensures shown { result.now ≡ shown field.now }
    ensures short { length result.now ≤ 64 }
{
    if is_id(LIMITS_2.id_bytes, field) {
        field
    } else {
        b""
    }
}

impl<'a> RecordFault<'a> {
    ghost use Rattle.mt_terms.specs.Registration.Faults.{record_fault_alone, fault_at};
    ghost use Rattle.mt_match_file.specs.Errors.{IsFault};
    ghost use Rattle.mt_match_file.specs.Submitted.{record_fault_at};
    ghost use Rattle.mt_match_file.specs.View.{record_fault_seen};

    /// A fault that no id is at.
    pub(crate) fn alone(code: u16) -> RecordFault<'a>
        ensures { record_fault_seen result ≡ record_fault_alone code }
    {
        RecordFault { code, id: b"" }
    }

    /// A fault at a field, with the field as its id if it is one.
    pub(crate) fn of(code: u16, field: &'a [u8]) -> RecordFault<'a>
        ensures { record_fault_seen result ≡ record_fault_at code field.now }
    {
        RecordFault {
            code,
            id: shown(field),
        }
    }

    /// The fault of the record with this number.
    pub(crate) fn at(self, row: u64) -> MatchError
        ensures { IsFault result (fault_at row (record_fault_seen self.entry)) }
    {
        MatchError::Fault(Refusal {
            code: self.code,
            row,
            id: IdText::new(self.id),
        })
    }
}
