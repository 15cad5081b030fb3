//! What the processor keeps between two accesses.

ghost use Rattle.std.specs.Prelude.{◌≡◌};

use crate::rows::Rows;
use m68k_decode::{CpuRegs, Trap, Under};
use m68k_results::Fetched;

/// Whose place extension words name.
#[derive(Clone, Copy)]
pub enum Role {
    /// The source.
    Source,
    /// The destination; the source is known.
    Dest { value: u32 },
    /// The address of JSR, JMP, LEA and PEA.
    Control,
    /// The first address of MOVEM; its mask is known.
    List { mask: u16 },
}

/// Which word of the program is fetched.
#[derive(Clone, Copy)]
pub enum Part {
    /// The opcode.
    Opcode,
    /// The word of a row that has one of its own behind the opcode.
    Own,
    /// The only extension word.
    One { role: Role },
    /// The first extension word of two.
    High { role: Role },
    /// The second extension word; `pc` is the address of the first.
    Low { role: Role, pc: u32, high: u16 },
}

/// The registers that MOVEM has still to move: the last `bits` bits of the mask, which are the
/// lowest of `rest`.
#[derive(Clone, Copy)]
pub struct Left {
    pub mask: u16,
    pub rest: u16,
    pub bits: u8,
}

/// What a value that is read is for.
#[derive(Clone, Copy)]
pub enum Use {
    /// The source.
    Source,
    /// What stands at the destination.
    Old { value: u32, at: u32 },
    /// The PC of RTS.
    Return,
    /// The status word of RTE, the flags of RTR.
    Status,
    /// Their PC.
    Resume { status: u16 },
    /// The register of UNLK.
    Unlink,
    /// A byte of MOVEP; `left` more follow, the next at `at`, and `value` is what came before.
    Gather { at: u32, left: u8, value: u32 },
    /// A register of MOVEM; the next is at `at`.
    Load { at: u32, number: u8, left: Left },
    /// The address of a handler.
    Handler { clocks: u32 },
    /// The stack pointer at the reset.
    Stack,
    /// The PC at the reset.
    Begin { ssp: u32 },
}

/// What follows a write.
#[derive(Clone, Copy)]
pub enum Then {
    /// The end of the instruction.
    End { clocks: u32 },
    /// The end, at another place of the program.
    Jump { at: u32 },
    /// The other registers of MOVEM.
    Store { at: u32, left: Left },
    /// The other bytes of MOVEP.
    Scatter { at: u32, left: u8, value: u32 },
}

/// What the processor waits for. The last two last no longer than the call that leads to them.
#[derive(Clone, Copy)]
pub enum Step {
    Fetch {
        part: Part,
    },
    ReadWord {
        at: u32,
        into: Use,
    },
    ReadHigh {
        at: u32,
        program: bool,
        into: Use,
    },
    ReadLow {
        at: u32,
        high: u16,
        into: Use,
    },
    ReadByte {
        at: u32,
        into: Use,
    },
    WriteByte {
        at: u32,
        byte: u16,
        then: Then,
    },
    WriteWord {
        at: u32,
        word: u16,
        then: Then,
    },
    WriteHigh {
        at: u32,
        high: u16,
        low: u16,
        then: Then,
    },
    /// A word of a frame; `next` words of it are written with this one.
    Push {
        at: u32,
        word: u16,
        next: u8,
        kind: Trap,
        ea: u8,
    },
    /// The idle clocks at an end.
    Ended {
        clocks: u32,
        under: Under,
    },
    /// An exception breaks off what was under way.
    Broken {
        under: Under,
    },
    /// Nothing any more.
    Halted,
}

/// What stays the same while an instruction, an entry or the reset goes on.
#[derive(Drop)]
pub struct Context {
    /// The registers with which it began.
    pub start: CpuRegs,
    /// The opcode and its instruction, once the opcode is there.
    pub fetched: Fetched,
    /// The opcodes that were met, ready to be taken again.
    pub rows: Rows,
    /// An address error is being taken.
    pub taking: bool,
    /// An access counts as one of an instruction.
    pub instruction: bool,
}

/// What changes from access to access.
#[derive(Drop)]
pub struct Machine {
    pub regs: CpuRegs,
    pub step: Step,
}

/// The processor between two accesses.
#[derive(Drop)]
pub struct Cpu {
    pub(crate) context: Context,
    pub(crate) machine: Machine,
    /// The accesses made since what is under way began.
    pub(crate) done: u32,
    /// Whether a trace follows it.
    pub(crate) traced: bool,
}

impl Context {
    /// The same once more.
    pub fn copied(&self) -> Context
        ensures { result ≡ self.now }
    {
        Context {
            start: self.start,
            fetched: self.fetched,
            rows: self.rows,
            taking: self.taking,
            instruction: self.instruction,
        }
    }
}

impl Machine {
    /// The same state once more.
    pub fn copied(&self) -> Machine
        ensures { result ≡ self.now }
    {
        Machine {
            regs: self.regs,
            step: self.step,
        }
    }
}

impl Cpu {
    /// The same state once more.
    pub fn copied(&self) -> Cpu
        ensures { result ≡ self.now }
    {
        Cpu {
            context: self.context.copied(),
            machine: self.machine.copied(),
            done: self.done,
            traced: self.traced,
        }
    }
}
