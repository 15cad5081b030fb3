//! A clock of a field.

ghost use Rattle.std.specs.Prelude.{◌≡◌, ◌≤◌, ◌+◌};

use ocs_base::System;

/// A clock of a field: of which system, its line, and its clock in the line.
#[derive(Clone, Copy)]
pub struct FieldPlace {
    pub system: System,
    pub v: u16,
    pub h: u16,
}

impl FieldPlace {
    /// The clock so many further on the same line.
    #[inline(always)]
    pub fn further(self, count: u16) -> FieldPlace
        requires { self.h + count ≤ 228 }
        ensures { result ≡ record self { h = self.h + count } }
    {
        FieldPlace {
            system: self.system,
            v: self.v,
            h: self.h + count,
        }
    }
}
