ghost use Rattle.std.specs.Prelude.{◌≡◌};

use std::marker::Model;
use std::sync::ledger::{Ledger, Share};

/// The credits of a desk: one for each proposal that its applicant can still make. Contracts see their number.
pub struct DeskShare<K: Ledger> {
    pub(crate) credits: u64,
    pub(crate) share: Share<K>,
}

impl<K: Ledger> Model for DeskShare<K> {
    ghost use Rattle.std.specs.Prelude.{◌≡◌, ℕ};

    ghost Value = { ℕ };

    ghost view = { λ s. s.credits };

    ghost invariant = { λ s. (s.share.parts ≡ 1) × (s.share.amount ≡ s.credits) };
}

impl<K: Ledger> DeskShare<K> {
    /// How many credits it has.
    pub fn credits(&self) -> u64
        ensures { result ≡ self.now }
    {
        self.credits
    }
}

/// The credits of a pass: one for each proposal that its worker has made. Contracts see their number.
pub struct PassShare<K: Ledger> {
    pub(crate) credits: u64,
    pub(crate) share: Share<K>,
}

impl<K: Ledger> Model for PassShare<K> {
    ghost use Rattle.std.specs.Prelude.{◌≡◌, ℕ};

    ghost Value = { ℕ };

    ghost view = { λ s. s.credits };

    ghost invariant = { λ s. (s.share.parts ≡ 1) × (s.share.amount ≡ s.credits) };
}

impl<K: Ledger> PassShare<K> {
    /// How many credits it has.
    pub fn credits(&self) -> u64
        ensures { result ≡ self.now }
    {
        self.credits
    }
}
