//! Assertions by calls, each of which is proved once: one in a test costs its proof some seconds.

use std::fmt::Debug;
use std::process::Abort;

/// Asserts that a value is this one, and tells both where it isn't.
pub fn assert_same<T: PartialEq + Debug + Drop>(rt: &impl Abort, found: T, wanted: T, what: &str) {
    assert_eq!(rt; found, wanted, "{what}");
}

/// Asserts what is told where it doesn't hold.
pub fn assert_that(rt: &impl Abort, holds: bool, what: &str) {
    assert!(rt; holds, "{what}");
}
