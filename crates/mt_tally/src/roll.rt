ghost use Rattle.std.specs.Prelude.{◌≡◌};

use std::marker::Model;
use std::sync::ledger::{Book, Ledger, Share};

/// The book of all credits, and the shares that were taken in: how many these are, and with how many credits of desks
/// and of passes. Contracts see it as a `Tally`.
pub struct Roll<K: Ledger> {
    pub(crate) total: u64,
    pub(crate) book: Book<K>,
    pub(crate) taken: Share<K>,
    pub(crate) desk_credits: u64,
    pub(crate) pass_credits: u64,
}

impl<K: Ledger> Model for Roll<K> {
    ghost use Rattle.std.specs.Prelude.{◌≡◌, ◌+◌};
    ghost use Rattle.mt_tally.specs.Tally.{Tally};

    ghost Value = { Tally };

    ghost view = { λ r. record {
      total = r.total;
      shares = r.taken.parts;
      desk_credits = r.desk_credits;
      pass_credits = r.pass_credits;
    } };

    ghost invariant = { λ r. (r.book.total ≡ r.total) × (r.taken.amount ≡ r.desk_credits + r.pass_credits) };
}

impl<K: Ledger> Roll<K> {
    /// How many credits were dealt.
    pub fn total(&self) -> u64
        ensures { result ≡ self.now.total }
    {
        self.total
    }
}
