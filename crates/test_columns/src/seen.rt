//! Assertions of the tests: a value or a list that was found is compared with the expected one. A separate assertion in
//! each test costs the prover three to six times as much as such a call.

use std::fmt::Debug;
use std::process::Abort;

/// Checks that the value found is the expected one.
pub(crate) fn see<T: PartialEq + Debug + Copy, R: Abort>(rt: &R, found: T, wanted: T) {
    see_at(rt, (), found, wanted);
}

/// Checks that the value found in some case is the one expected there.
pub(crate) fn see_at<C: Debug + Copy, T: PartialEq + Debug + Copy, R: Abort>(
    rt: &R,
    case: C,
    found: T,
    wanted: T,
) {
    assert_eq!(rt; found, wanted, "{case:?}");
}
