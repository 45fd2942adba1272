ghost use Rattle.std.specs.Prelude.{◌≡◌};
ghost use Rattle.mt_fault_sink.specs.declared.fault.FaultEnd.TheVariants.{Memory};

use std::alloc::AllocError;

/// A fault of a record.
#[derive(Clone, Copy, Debug)]
pub struct Fault<'a> {
    /// Its code in `mt_terms::codes`.
    pub code: u16,
    /// The number of the field at fault, from 1, or 0 if the fault is at no field alone.
    pub field: usize,
    /// The id at fault, which is empty if there is none.
    pub id: &'a [u8],
    /// The number of the field where a repeated entry stands first, or 0. No contract speaks of it.
    pub first: usize,
}

/// Why the search for faults ended before the last of them.
#[derive(Clone, Copy, Debug, PartialEq, Eq)]
pub enum FaultEnd {
    /// Memory was refused.
    Memory,
    /// The sink stopped.
    Stopped,
}

impl From<AllocError> for FaultEnd {
    ghost from_gives = { λ _ e. e ≡ Memory };

    fn from(_error: AllocError) -> Self {
        FaultEnd::Memory
    }
}
