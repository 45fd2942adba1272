ghost use Rattle.std.specs.Prelude.{◌≡◌, ℕ, Bool, List, IfOk, OnOk};
ghost use Rattle.mt_id_lists.specs.Reading.{ReadsOne};

use mt_flat::FlatLists;
use std::alloc::{AllocError, Global};

/// What reads lists `L` by numbers. A list is read as one list of numbers, or as none if it isn't kept. `M` keeps what
/// was met in a list.
pub trait ListReader<L, M>: Sync {
    /// An entry by its number.
    type Item: Copy + Drop + Send + Sync;

    ghost stands: { Self → L → Bool };

    ghost read: { Self → L → List (List Self.Item) };

    ghost entries: { Self → L → ℕ };

    ghost fits: { Self → M → Type 0 };

    /// How many entries a list has.
    fn entries(&self, list: &L) -> usize
        ensures { result ≡ entries self.now list.now };

    /// What lists are read with: it serves one list after another.
    fn new_met(&self, alloc: Global) -> Result<M, AllocError>
        ensures { IfOk result (fits self.now) };

    /// Adds what is read of a list at the end of these, and says that it did so, if the list stands.
    fn read_list(
        &self,
        alloc: Global,
        lists: &mut FlatLists<Self::Item>,
        met: &mut M,
        list: &L,
    ) -> Result<bool, AllocError>
        requires { fits self.now met.old }
        ensures met { OnOk result (fits self.now met.new) }
        ensures reads { IfOk result
            (ReadsOne (stands self.now) (read self.now) list.now lists.old lists.new) };
}
