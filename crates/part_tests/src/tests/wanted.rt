//! Checks of a result against the expected one. They are functions, since a macro's branches would be proved again at
//! each use.
use std::fmt::Debug;
use std::process::Abort;

/// The two are equal. To identify a row in a failure, name it in both.
pub fn same<R: Abort, T: PartialEq + Debug + Drop>(rt: &R, told: T, wanted: T) {
    assert_eq!(rt; told, wanted);
}

/// The fact holds.
pub fn holds<R: Abort>(rt: &R, fact: bool) {
    assert!(rt; fact);
}
