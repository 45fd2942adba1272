ghost use Rattle.std.specs.Prelude.{◌≡◌, ◌<◌, false, true, length, not, slice_index_or, slice_set, IfOk, OnOk};
ghost use Rattle.mt_id_lists.specs.Met.{IsNoneMet};

use std::alloc::{AllocError, Global};
use std::marker::Model;

/// Which of some ids were met in a list. One that is met gets the list's stamp, so that the next list needs no look at
/// those of this one.
pub struct Met {
    stamps: Vec<u8>,
    stamp: u8,
}

impl Drop for Met {
    fn drop(self) {
        let Met {
            stamps: _,
            stamp: _,
        } = self;
    }
}

impl Model for Met {
    ghost use Rattle.std.specs.Prelude.{List, Bool};
    ghost use Rattle.mt_id_lists.specs.Met.{flags_of, AreAtMost};

    ghost Value = { List Bool };

    ghost view = { λ m. flags_of m.stamp m.stamps.items };

    ghost invariant = { λ m. AreAtMost m.stamp m.stamps.items };
}

impl Met {
    /// The numbers below `count`, none of them met.
    pub fn new(alloc: Global, count: usize) -> Result<Self, AllocError>
        ensures { IfOk result (λ met. length met ≡ count) }
    {
        Ok(Met {
            stamps: vec![in alloc; 0; count]?,
            stamp: 0,
        })
    }

    /// Begins a list: none was met.
    pub fn begin(&mut self, alloc: Global) -> Result<(), AllocError>
        ensures len { OnOk result (length self.new ≡ length self.old) }
        ensures none { OnOk result (IsNoneMet self.new) }
    {
        if self.stamp < u8::MAX {
            self.stamp += 1;
        } else {
            self.stamps = vec![in alloc; 0; self.stamps.len()]?;
            self.stamp = 1;
        }
        Ok(())
    }

    /// Notes that the id at a place is met, and says whether it is for the first time.
    pub fn meet(&mut self, place: usize) -> bool
        requires { place < length self.old }
        ensures first { result ≡ not (slice_index_or self.old place false) }
        ensures met { self.new ≡ slice_set self.old place true }
    {
        let is_first = self.stamps[place] != self.stamp;
        self.stamps[place] = self.stamp;
        is_first
    }
}
