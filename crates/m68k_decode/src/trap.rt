//! The kinds of exceptions.

/// What the processor leaves its program for (M68000 User's Manual, exception processing).
#[derive(Clone, Copy)]
pub enum Trap {
    /// A word or long access at the odd address `at`. `opcode` is that of the instruction that made
    /// it; 0 where the access is the fetch of an opcode, or an exception's entry made it. `read`:
    /// the access is a read. `program`: it is to an instruction word, or reads an operand of a
    /// PC-relative mode. `instruction`: false where the access belongs to the entry of a trace,
    /// interrupt, illegal, privilege, line A or line F exception; true elsewhere, so also at the
    /// entry of the other exceptions, and at the fetch of a handler's first opcode.
    AddressError {
        at: u32,
        opcode: u16,
        read: bool,
        program: bool,
        instruction: bool,
    },
    Illegal,
    Privilege,
    LineA,
    LineF,
    ZeroDivide,
    Chk,
    Trapv,
    Trace,
    /// An interrupt of level 1 to 7.
    Interrupt {
        level: u8,
    },
    /// TRAP #v, 0 to 15.
    Number {
        v: u8,
    },
}
