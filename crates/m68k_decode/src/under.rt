//! What the processor is about.

use crate::trap::Trap;

/// What is under way in the processor.
#[derive(Clone, Copy)]
pub enum Under {
    /// The reset: the stack pointer and the PC are read from addresses 0 and 4.
    Reset,
    /// An instruction, from the fetch of its opcode on. `taking`: an address error is being taken,
    /// until that opcode is there.
    Instruction { taking: bool },
    /// The entry of an exception. `ea` is the clocks of the operand's mode of the instruction that
    /// the exception broke off, for zero divide and CHK; 0 elsewhere. `taking` as for an
    /// instruction.
    Entry { kind: Trap, ea: u8, taking: bool },
    /// STOP waits for an interrupt, one clock at a time.
    Stopped,
    /// The processor is halted: an address error came while one was being taken.
    Halted,
}
