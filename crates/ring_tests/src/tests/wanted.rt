//! Assertions as calls. A macro's branches in the test itself would be proved again at each use.
use std::fmt::Debug;
use std::process::Abort;

/// Asserts that the two are equal. A row named in both shows in the failure.
pub fn same<R: Abort, T: PartialEq + Debug + Drop>(rt: &R, told: T, wanted: T) {
    assert_eq!(rt; told, wanted);
}

/// Asserts the fact.
pub fn holds<R: Abort>(rt: &R, fact: bool) {
    assert!(rt; fact);
}
