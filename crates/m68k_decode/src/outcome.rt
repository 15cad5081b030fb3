//! What an operation gives.

/// The condition codes: extend, negative, zero, overflow, carry.
#[derive(Clone, Copy, PartialEq, Eq)]
pub struct Flags {
    pub x: bool,
    pub n: bool,
    pub z: bool,
    pub v: bool,
    pub c: bool,
}

/// The result of an operation and the condition codes after it.
#[derive(Clone, Copy, PartialEq, Eq)]
pub struct Outcome {
    pub value: u32,
    pub flags: Flags,
}
