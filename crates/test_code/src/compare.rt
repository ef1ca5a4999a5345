//! One comparison for all tests.
use std::fmt::Debug;
use std::process::Abort;

/// What is found is what is wanted of the row with this name.
pub fn same<R: Abort, T: PartialEq + Debug + Drop>(
    rt: &R,
    name: &str,
    what: &str,
    found: T,
    wanted: T,
) {
    assert_eq!(rt; found, wanted, "at {name}: {what}");
}
