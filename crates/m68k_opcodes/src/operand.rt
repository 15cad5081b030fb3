//! What an instruction works on: sizes and address modes.

/// The size of an operation: 8, 16 or 32 bits.
#[derive(Clone, Copy, PartialEq, Eq, Debug)]
pub enum Size {
    Byte,
    Word,
    Long,
}

/// An address mode (M68000 Programmer's Reference Manual, effective addressing). A register number is 0 to 7.
#[derive(Clone, Copy)]
pub enum Mode {
    /// A data register.
    Dn { reg: u8 },
    /// An address register.
    An { reg: u8 },
    /// (An).
    Ind { reg: u8 },
    /// (An)+.
    Post { reg: u8 },
    /// -(An).
    Pre { reg: u8 },
    /// d16(An).
    Disp { reg: u8 },
    /// d8(An,Xn).
    Index { reg: u8 },
    /// (xxx).W.
    Short,
    /// (xxx).L.
    Long,
    /// d16(PC).
    PcDisp,
    /// d8(PC,Xn).
    PcIndex,
    /// #imm.
    Imm,
}
