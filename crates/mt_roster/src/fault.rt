ghost use Rattle.mt_roster.specs.Faults.{HasShortId, IsErrorOf};

use mt_records::{Fault, FirstFault};
use mt_terms::{IdText, Refusal as RosterFault};
use thiserror::Error;

/// Why a file's records give no market.
#[derive(Debug, Drop, Error)]
pub enum RosterError {
    /// The file has this fault first.
    #[error("a fault in the records")]
    Fault(RosterFault),
    /// Memory was refused.
    #[error("out of memory")]
    Memory,
}

/// The error that a refusal is, with an id of its own.
pub(crate) fn error_of(refusal: &FirstFault<'_>) -> RosterError
    requires { HasShortId refusal.now }
    ensures { IsErrorOf refusal.now result }
{
    match refusal {
        FirstFault::Fault(Fault { code, row, id }) => RosterError::Fault(RosterFault {
            code: *code,
            row: *row,
            id: IdText::new(id),
        }),
        FirstFault::Memory => RosterError::Memory,
    }
}
