//! Comparisons. They are made here and not in each test, whose proof the text of a failure would make ten seconds
//! longer.

use std::fmt::Debug;
use std::process::Abort;

// That what was found is what was wanted.
pub(crate) fn same<T: Copy + PartialEq + Debug>(rt: &impl Abort, found: T, wanted: T) {
    assert_eq!(rt; found, wanted);
}

// That something holds of something.
pub(crate) fn holds_for<W: Debug>(rt: &impl Abort, holds: bool, of: &W) {
    assert!(rt; holds, "of {of:?}");
}
