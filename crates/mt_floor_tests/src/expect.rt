//! Comparisons, and the rank tables of a market. They are made here and not in each test, whose proof the text of a
//! failure would make ten seconds longer.

use mt_ranks::Ranks;
use mt_samples::tables::with_ranks;
use std::alloc::{AllocError, Global};
use std::fmt::Debug;
use std::process::Abort;
use std::test::Fail;
use std::thread::Threads;

// That what was found is what was wanted.
pub(crate) fn same<T: Copy + PartialEq + Debug>(rt: &impl Abort, found: T, wanted: T) {
    assert_eq!(rt; found, wanted);
}

// The same, of something.
pub(crate) fn same_for<T: Copy + PartialEq + Debug, W: Copy + Debug>(
    rt: &impl Abort,
    found: T,
    wanted: T,
    of: W,
) {
    assert_eq!(rt; found, wanted, "of {of:?}");
}

// Lends the rank tables of a market to a test.
pub(crate) fn on_ranks<R: Threads + Sync, F: FnOnce(&Ranks<'_>) -> Result<(), AllocError>>(
    rt: &R,
    alloc: Global,
    file: &[u8],
    body: F,
) -> Result<(), Fail>
    requires { (ranks : _) → F.pre body ranks }
{
    Ok(with_ranks(rt, alloc, file, |_, ranks| body(ranks))?)
}
