//! The one place where what came is compared with what was wanted: an assertion costs a proof wherever it stands.
use std::fmt::Debug;
use std::process::Abort;

/// Which action a test is at: the number of its run, and the action's in that one, both from 0.
#[derive(Clone, Copy)]
pub struct ActionNumber {
    pub case: usize,
    pub action: usize,
}

/// The two are equal, or the test ends with the action's number and with both.
pub fn agree<T: PartialEq + Debug>(rt: &impl Abort, number: ActionNumber, came: &T, wanted: &T) {
    let ActionNumber { case, action } = number;
    assert!(rt;
        came == wanted,
        "run {case}, action {action}: {came:?} came, and not {wanted:?}"
    );
}
