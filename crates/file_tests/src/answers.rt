//! What a test asks once. An assertion or a `?` in the test itself is proved more dearly than these calls, as
//! the test owns its `rt`.

use ocs_base::OutOfMemory;
use std::process::Abort;

/// Fails the test where it is not so.
pub fn hold(rt: &impl Abort, is_so: bool) {
    assert!(rt; is_so);
}

/// Whether there was memory, and it is so.
pub fn is_so(answer: Result<bool, OutOfMemory>) -> bool {
    match answer {
        Ok(found) => found,
        Err(OutOfMemory) => false,
    }
}
