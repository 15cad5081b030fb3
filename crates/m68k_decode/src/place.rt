//! The places of operands.

/// Where an operand is. An address keeps its 32 bits.
#[derive(Clone, Copy)]
pub enum Place68 {
    /// In data register `reg`.
    Data { reg: u8 },
    /// In address register `reg`, 7 being the active stack pointer.
    Address { reg: u8 },
    /// In memory from `at` on.
    Memory { at: u32 },
    /// In the instruction itself.
    Value { value: u32 },
}
