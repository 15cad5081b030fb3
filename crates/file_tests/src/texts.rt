//! What is asked of a text.

use script_read::{BadKind, ScriptFault, print_script, read_script};
use std::alloc::Global;

/// Whether a text is bad at that line, and of that kind.
pub fn is_bad(alloc: Global, text: &[u8], line: u32, kind: BadKind) -> bool {
    match read_script(alloc, text) {
        Ok(_) => false,
        Err(fault) => fault == ScriptFault::Bad { line, kind },
    }
}

/// Whether each text is bad at its line, and of its kind.
pub fn are_bad(alloc: Global, cases: &[(&[u8], u32, BadKind)]) -> bool {
    for (text, line, kind) in cases {
        if !is_bad(alloc, text, *line, *kind) {
            return false;
        }
    }
    true
}

/// Whether a text is printed of the script of another.
fn prints(alloc: Global, text: &[u8], printed: &[u8]) -> bool {
    match read_script(alloc, text) {
        Ok(script) => {
            let mut into = Vec::new(alloc);
            print_script(&script, &mut into).is_ok() && into.as_slice() == printed
        }
        Err(_) => false,
    }
}

/// Whether each text is printed of the script of the other.
pub fn are_printed(alloc: Global, cases: &[(&[u8], &[u8])]) -> bool {
    for (text, printed) in cases {
        if !prints(alloc, text, printed) {
            return false;
        }
    }
    true
}
