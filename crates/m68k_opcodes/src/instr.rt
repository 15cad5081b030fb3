//! The instructions.

use crate::operand::{Mode, Size};

/// An instruction as its opcode says it: one variant for each row of the table of instructions,
/// named after what the row names. `which` is the place of the instruction among them, from 0.
/// `mode` is the operand that the low six bits name. A field of one letter holds the bits that the
/// opcode's pattern marks with that letter, as they stand.
#[derive(Clone, Copy)]
pub enum Instr {
    /// ORI, ANDI, SUBI, ADDI, EORI: `0000 ooo0 ss`.
    Immediate {
        which: u8,
        o: u8,
        size: Size,
        mode: Mode,
    },
    /// CMPI.
    Cmpi {
        size: Size,
        mode: Mode,
    },
    /// ORI, ANDI, EORI to CCR, and the same to SR.
    ImmediateToStatus {
        which: u8,
    },
    /// BTST, BCHG, BCLR, BSET with the bit's number in Dr: `0000 rrr1 tt`.
    BitDynamic {
        which: u8,
        r: u8,
        t: u8,
        mode: Mode,
    },
    /// The same with the bit's number in the instruction: `0000 1000 tt`.
    BitStatic {
        which: u8,
        t: u8,
        mode: Mode,
    },
    /// MOVEP: `0000 rrr1 oo 001 aaa`; oo 0 word and 1 long to Dr, 2 word and 3 long from Dr.
    Movep {
        r: u8,
        o: u8,
        a: u8,
    },
    /// MOVE.
    Move {
        size: Size,
        dest: Mode,
        mode: Mode,
    },
    /// MOVEA to Ar.
    Movea {
        size: Size,
        r: u8,
        mode: Mode,
    },
    /// NEGX, CLR, NEG, NOT: `0100 0oo0 ss`.
    Unary {
        which: u8,
        o: u8,
        size: Size,
        mode: Mode,
    },
    /// MOVE from SR.
    MoveFromSr {
        mode: Mode,
    },
    /// MOVE to CCR, MOVE to SR.
    MoveToStatus {
        which: u8,
        mode: Mode,
    },
    /// NBCD.
    Nbcd {
        mode: Mode,
    },
    /// SWAP.
    Swap {
        r: u8,
    },
    /// PEA.
    Pea {
        mode: Mode,
    },
    /// EXT to `size`.
    Ext {
        size: Size,
        r: u8,
    },
    /// MOVEM to memory.
    MovemToMemory {
        size: Size,
        mode: Mode,
    },
    /// MOVEM to registers.
    MovemToRegisters {
        size: Size,
        mode: Mode,
    },
    /// TST.
    Tst {
        size: Size,
        mode: Mode,
    },
    /// TAS.
    Tas {
        mode: Mode,
    },
    /// TRAP #v.
    Trap {
        v: u8,
    },
    /// LINK, UNLK.
    LinkUnlk {
        which: u8,
        r: u8,
    },
    /// MOVE USP: d 0 to USP, 1 from it.
    MoveUsp {
        d: u8,
        r: u8,
    },
    /// RESET, NOP, STOP, RTE.
    ResetNopStopRte {
        which: u8,
    },
    /// RTS, TRAPV, RTR.
    RtsTrapvRtr {
        which: u8,
    },
    /// JSR, JMP.
    JsrJmp {
        which: u8,
        mode: Mode,
    },
    /// LEA to Ar.
    Lea {
        r: u8,
        mode: Mode,
    },
    /// CHK of Dr.
    Chk {
        r: u8,
        mode: Mode,
    },
    /// ADDQ, SUBQ: q 0 is 8.
    Quick {
        which: u8,
        q: u8,
        size: Size,
        mode: Mode,
    },
    /// Scc: c is the condition.
    Scc {
        c: u8,
        mode: Mode,
    },
    /// DBcc: c is the condition.
    Dbcc {
        c: u8,
        r: u8,
    },
    /// BRA, BSR, Bcc: c is the condition.
    Branch {
        which: u8,
        c: u8,
        d8: u8,
    },
    /// MOVEQ to Dr.
    Moveq {
        r: u8,
        d8: u8,
    },
    /// OR, AND to Dr.
    OrAndToDn {
        which: u8,
        r: u8,
        size: Size,
        mode: Mode,
    },
    /// SUB, ADD to Dr.
    SubAddToDn {
        which: u8,
        r: u8,
        size: Size,
        mode: Mode,
    },
    /// OR, AND, SUB, ADD of Dr to memory.
    ToMemory {
        which: u8,
        r: u8,
        size: Size,
        mode: Mode,
    },
    /// CMP with Dr.
    Cmp {
        r: u8,
        size: Size,
        mode: Mode,
    },
    /// EOR of Dr.
    Eor {
        r: u8,
        size: Size,
        mode: Mode,
    },
    /// CMPM (Ay)+,(Ax)+.
    Cmpm {
        x: u8,
        size: Size,
        y: u8,
    },
    /// SUBA, ADDA to Ar.
    SubaAdda {
        which: u8,
        r: u8,
        size: Size,
        mode: Mode,
    },
    /// CMPA with Ar.
    Cmpa {
        r: u8,
        size: Size,
        mode: Mode,
    },
    /// SUBX, ADDX: m 0 Dy to Dx, 1 -(Ay) to -(Ax).
    SubxAddx {
        which: u8,
        x: u8,
        size: Size,
        m: u8,
        y: u8,
    },
    /// SBCD, ABCD: m as in SUBX.
    SbcdAbcd {
        which: u8,
        x: u8,
        m: u8,
        y: u8,
    },
    /// EXG: o 8 Dx and Dy, 9 Ax and Ay, 17 Dx and Ay.
    Exg {
        x: u8,
        o: u8,
        y: u8,
    },
    /// MULU, MULS to Dr.
    MuluMuls {
        which: u8,
        r: u8,
        mode: Mode,
    },
    /// DIVU, DIVS to Dr.
    DivuDivs {
        which: u8,
        r: u8,
        mode: Mode,
    },
    /// A shift of Dr: d 1 left; i 0 by c (0 is 8), 1 by Dc modulo 64; t 0 arithmetic, 1 logical, 2
    /// rotation with extend, 3 rotation.
    ShiftRegister {
        c: u8,
        d: u8,
        size: Size,
        i: u8,
        t: u8,
        r: u8,
    },
    /// A shift of a word in memory by 1; d and t as in a register's.
    ShiftMemory {
        t: u8,
        d: u8,
        mode: Mode,
    },
    /// No instruction, or ILLEGAL.
    Illegal,
    /// An opcode whose first digit is A.
    LineA,
    /// An opcode whose first digit is F.
    LineF,
}
