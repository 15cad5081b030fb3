//! What a test asks once. An assertion in the test itself is proved more dearly than this call, as the test owns
//! its `rt`.

use std::process::Abort;

/// Fails the test where it is not so.
pub fn hold(rt: &impl Abort, is_so: bool) {
    assert!(rt; is_so);
}
