//! What the examples compare, each comparison in a function of its own, since one that stands in a longer function costs its proof much
//! more.
use std::fmt::Debug;
use std::process::Abort;

/// What was told is what was wanted.
pub(crate) fn same<T: PartialEq + Debug>(rt: &impl Abort, told: &T, wanted: &T) {
    assert_eq!(rt; told, wanted);
}

/// These bytes are those that were wanted.
pub(crate) fn same_bytes(rt: &impl Abort, told: &[u8], wanted: &[u8]) {
    assert_eq!(rt; told, wanted);
}
