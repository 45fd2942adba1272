//! Comparisons. They are made here and not in each test, whose proof the text of a failure would make ten seconds
//! longer.

use std::fmt::Debug;
use std::process::Abort;

// That what was found of something is what was wanted.
pub(crate) fn same_for<T: Copy + PartialEq + Debug, W: Copy + Debug>(
    rt: &impl Abort,
    found: T,
    wanted: T,
    of: W,
) {
    assert_eq!(rt; found, wanted, "of {of:?}");
}
