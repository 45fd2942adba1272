ghost use Rattle.std.specs.Prelude.{◌≡◌};
ghost use Rattle.mt_terms.specs.Registration.Faults.{fault_at};
ghost use Rattle.mt_records.specs.Records.{record_fault_seen};
ghost use Rattle.mt_records.specs.Refusals.{fault_seen};
ghost use Rattle.mt_records.specs.declared.first_fault.FirstFault.TheVariants.{Memory};

use crate::record::RecordFault;
use std::alloc::AllocError;

/// The fault of a file: its code, the number of the record at fault, and the id at fault, which is empty if there is
/// none.
#[derive(Clone, Copy)]
pub struct Fault<'a> {
    pub code: u16,
    pub row: u64,
    pub id: &'a [u8],
}

/// Why a file has no market, or none yet.
#[derive(Drop)]
pub enum FirstFault<'a> {
    Fault(Fault<'a>),
    Memory,
}

impl From<AllocError> for FirstFault<'_> {
    ghost from_gives = { λ _ e. e ≡ Memory };

    fn from(_error: AllocError) -> Self {
        FirstFault::Memory
    }
}

impl<'a> RecordFault<'a> {
    /// The fault of the record with this number.
    pub fn at(self, row: u64) -> Fault<'a>
        ensures { fault_seen result ≡ fault_at row (record_fault_seen self.entry) }
    {
        Fault {
            code: self.code,
            row,
            id: self.id,
        }
    }
}
