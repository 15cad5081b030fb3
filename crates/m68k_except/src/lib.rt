//! The MC68000's exceptions: their vectors and the words of their frames.
#![tactic(auto)]

ghost use Rattle.std.specs.Prelude.{◌≡◌, ◌≤◌, ◌/◌, ◌%◌, [], ◌∷◌, ◌++◌};
ghost use Rattle.m68k_decode.specs.Frames.{vector_of, frame_of, access_word, function_code};

use arrayvec::ArrayVec;
pub use m68k_decode::{CpuRegs, Trap};

/// The number of an exception's vector; its address is 4 times that (M68000 User's Manual,
/// exception vectors).
pub fn vector(kind: &Trap) -> u32
    ensures { result ≡ vector_of kind.now }
{
    match *kind {
        Trap::AddressError { .. } => 3,
        Trap::Illegal => 4,
        Trap::ZeroDivide => 5,
        Trap::Chk => 6,
        Trap::Trapv => 7,
        Trap::Privilege => 8,
        Trap::Trace => 9,
        Trap::LineA => 10,
        Trap::LineF => 11,
        Trap::Interrupt { level } => 24 + u32::from(level),
        Trap::Number { v } => 32 + u32::from(v),
    }
}

/// The words of an exception's frame, in the order in which they are written, downwards from the
/// highest: the low and the high word of `regs.pc`, which is the stacked PC, and `regs.sr`, which
/// is the kept SR. At an address error the opcode, the low and the high word of the address and the
/// word that says what the access was follow (M68000 User's Manual, exception processing; the S bit
/// of the kept SR gives the function code (profile)).
pub fn frame(kind: &Trap, regs: &CpuRegs) -> ArrayVec<u16, 7>
    ensures { result.items ≡ frame_of kind.now regs.now }
{
    let mut words = ArrayVec::new();
    words.push(low_word(regs.pc));
    words.push(high_word(regs.pc));
    words.push(regs.sr);
    if let Trap::AddressError {
        at,
        opcode,
        read,
        program,
        instruction,
    } = *kind
    {
        words.push(opcode);
        words.push(low_word(at));
        words.push(high_word(at));
        words.push(access(read, program, instruction, regs.is_supervisor()));
    }
    words
}

/// The word that says what an access was: bit 4 a read, bit 3 of no instruction, bits 2 to 0 its
/// function code.
fn access(read: bool, program: bool, instruction: bool, supervisor: bool) -> u16
    ensures { result ≡ access_word read program instruction supervisor }
{
    let read = if read { 0x10 } else { 0 };
    let outside = if instruction { 0 } else { 8 };
    read + outside + function(supervisor, program)
}

/// The function code of an access: 1 user data, 2 user program, 5 supervisor data, 6 supervisor program.
fn function(supervisor: bool, program: bool) -> u16
    ensures value { result ≡ function_code supervisor program }
    ensures small { result ≤ 6 }
{
    match (supervisor, program) {
        (false, false) => 1,
        (false, true) => 2,
        (true, false) => 5,
        (true, true) => 6,
    }
}

/// Bits 15 to 0.
fn low_word(long: u32) -> u16
    ensures { result ≡ long % 65536 }
{
    (long & 0xffff) as u16
}

/// Bits 31 to 16.
fn high_word(long: u32) -> u16
    ensures { result ≡ long / 65536 }
{
    (long >> 16) as u16
}
