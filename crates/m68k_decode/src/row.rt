//! What an instruction with a source, a destination and a result says of these: its row.

ghost use Rattle.std.specs.Prelude.{◌≡◌, true, false, not, ◌==◌, nat_lt, if◌then◌else◌};
ghost use Rattle.m68k_opcodes.specs.declared.operand.Size.TheVariants as S;
ghost use Rattle.m68k_opcodes.specs.declared.operand.Mode.TheVariants as M;
ghost use Rattle.m68k_decode.specs.Registers.{extended_byte};
ghost use Rattle.m68k_decode.specs.declared.row.Op.TheVariants as Q;
ghost use Rattle.m68k_decode.specs.RowWords.{is_an, bit_size, eight_if_zero, pair_mode};
ghost use Rattle.m68k_decode.specs.Rows.{general_row, both, tests, moves, one, status, logic_op, sum_op, immediate_op, bit_op};
ghost use Rattle.m68k_decode.specs.Rows.{unary_op, memory_op, address_op, quick_op, left_op, right_op, shift_op, shift_source};

use m68k_opcodes::{Instr, Mode, Size};

/// The source: a number of the instruction, or an operand.
#[derive(Clone, Copy)]
pub enum Source {
    Number { value: u32 },
    Operand { mode: Mode },
}

/// The destination; the operations on status registers have none.
#[derive(Clone, Copy)]
pub enum Dest {
    Nothing,
    Operand { mode: Mode },
}

/// What is done with the source and the old value of the destination.
#[derive(Clone, Copy)]
pub enum Op {
    Or,
    And,
    Sub,
    Add,
    Eor,
    Cmp,
    /// ORI, ANDI, EORI to CCR and to SR, by their place.
    ImmediateToStatus { which: u8 },
    /// MOVE to CCR, MOVE to SR, by their place.
    MoveToStatus { which: u8 },
    Btst,
    Bchg,
    Bclr,
    Bset,
    Move,
    MoveAddress,
    Negx,
    Clr,
    Neg,
    Not,
    MoveFromSr,
    Nbcd,
    Swap,
    Ext,
    Tst,
    Tas,
    Chk,
    /// Scc; c is the condition.
    Scc { c: u8 },
    /// ADDA, and ADDQ of an address register: no flag changes.
    AddAddress,
    SubAddress,
    CmpAddress,
    Addx,
    Subx,
    Abcd,
    Sbcd,
    Mulu,
    Muls,
    Divu,
    Divs,
    Asl,
    Asr,
    Lsl,
    Lsr,
    Roxl,
    Roxr,
    Rol,
    Ror,
    /// None: the instruction has no row of this kind.
    Other,
}

/// What the row's clocks are counted by.
#[derive(Clone, Copy)]
pub enum Count {
    Nothing,
    /// The 1 bits of the source.
    Ones,
    /// The pairs 01 and 10 of the source followed by a 0.
    Turns,
    /// The count of a shift.
    Shift,
    /// Whether condition c holds.
    Condition { c: u8 },
}

/// The exception that the operands may make.
#[derive(Clone, Copy)]
pub enum Traps {
    Never,
    /// The low word of the source is 0.
    ByZero,
    /// The old value is below 0 or above the source.
    Outside,
}

/// The row of an instruction.
#[derive(Clone, Copy)]
pub struct GeneralRow {
    pub source: Source,
    pub source_size: Size,
    pub dest: Dest,
    /// The size of the destination and of the result; an address register is a long.
    pub size: Size,
    /// Whether the destination is read first.
    pub reads_old: bool,
    /// Whether there is a result to be written.
    pub writes: bool,
    pub op: Op,
    pub count: Count,
    pub traps: Traps,
}

/// An operation on two operands.
fn both(mode: Mode, source_size: Size, dest: Mode, size: Size, op: Op) -> GeneralRow
    ensures { result ≡ both mode source_size dest size op }
{
    GeneralRow {
        source: Source::Operand { mode },
        source_size,
        dest: Dest::Operand { mode: dest },
        size,
        reads_old: true,
        writes: true,
        op,
        count: Count::Nothing,
        traps: Traps::Never,
    }
}

/// The same, where flags alone change.
fn tests(mode: Mode, source_size: Size, dest: Mode, size: Size, op: Op) -> GeneralRow
    ensures { result ≡ tests mode source_size dest size op }
{
    GeneralRow {
        writes: false,
        ..both(mode, source_size, dest, size, op)
    }
}

/// The same, where the destination is not read.
fn moves(mode: Mode, source_size: Size, dest: Mode, size: Size, op: Op) -> GeneralRow
    ensures { result ≡ moves mode source_size dest size op }
{
    GeneralRow {
        reads_old: false,
        ..both(mode, source_size, dest, size, op)
    }
}

/// An operation on one operand and a number.
fn one(value: u32, dest: Mode, size: Size, op: Op) -> GeneralRow
    ensures { result ≡ one value dest size op }
{
    GeneralRow {
        source: Source::Number { value },
        ..both(Mode::Imm, size, dest, size, op)
    }
}

/// An operation on a status register.
fn status(mode: Mode, source_size: Size, op: Op) -> GeneralRow
    ensures { result ≡ status mode source_size op }
{
    GeneralRow {
        dest: Dest::Nothing,
        ..tests(mode, source_size, Mode::Imm, Size::Long, op)
    }
}

/// OR, AND, EOR by their place.
fn logic_op(which: u8) -> Op
    ensures { result ≡ logic_op which }
{
    match which {
        0 => Op::Or,
        1 => Op::And,
        _ => Op::Eor,
    }
}

/// ADD or SUB.
fn sum_op(adds: bool) -> Op
    ensures { result ≡ sum_op adds }
{
    if adds { Op::Add } else { Op::Sub }
}

/// ORI, ANDI, SUBI, ADDI, EORI by their place.
fn immediate_op(which: u8) -> Op
    ensures { result ≡ immediate_op which }
{
    match which {
        0 => Op::Or,
        1 => Op::And,
        2 => Op::Sub,
        3 => Op::Add,
        _ => Op::Eor,
    }
}

/// BTST, BCHG, BCLR, BSET by their place.
fn bit_op(which: u8) -> Op
    ensures { result ≡ bit_op which }
{
    match which {
        0 => Op::Btst,
        1 => Op::Bchg,
        2 => Op::Bclr,
        _ => Op::Bset,
    }
}

/// NEGX, CLR, NEG, NOT by their place.
fn unary_op(which: u8) -> Op
    ensures { result ≡ unary_op which }
{
    match which {
        0 => Op::Negx,
        1 => Op::Clr,
        2 => Op::Neg,
        _ => Op::Not,
    }
}

/// OR, AND, SUB, ADD to memory by their place.
fn memory_op(which: u8) -> Op
    ensures { result ≡ memory_op which }
{
    match which {
        0 => Op::Or,
        1 => Op::And,
        2 => Op::Sub,
        _ => Op::Add,
    }
}

/// ADDA or SUBA.
fn address_op(adds: bool) -> Op
    ensures { result ≡ address_op adds }
{
    if adds { Op::AddAddress } else { Op::SubAddress }
}

/// ADDQ or SUBQ; of an address register it changes no flag.
fn quick_op(adds: bool, mode: Mode) -> Op
    ensures { result ≡ quick_op adds mode }
{
    match mode {
        Mode::An { .. } => address_op(adds),
        _ => sum_op(adds),
    }
}

/// A shift to the left.
fn left_op(t: u8) -> Op
    ensures { result ≡ left_op t }
{
    match t {
        0 => Op::Asl,
        1 => Op::Lsl,
        2 => Op::Roxl,
        _ => Op::Rol,
    }
}

/// A shift to the right.
fn right_op(t: u8) -> Op
    ensures { result ≡ right_op t }
{
    match t {
        0 => Op::Asr,
        1 => Op::Lsr,
        2 => Op::Roxr,
        _ => Op::Ror,
    }
}

/// A shift to the left where d is 1.
fn shift_op(d: u8, t: u8) -> Op
    ensures { result ≡ shift_op d t }
{
    if d == 1 { left_op(t) } else { right_op(t) }
}

/// The size of a bit operation.
fn bit_size(mode: Mode) -> Size
    ensures { result ≡ bit_size mode }
{
    match mode {
        Mode::Dn { .. } => Size::Long,
        _ => Size::Byte,
    }
}

/// The size of a quick sum: an address register is a long.
fn quick_size(mode: Mode, size: Size) -> Size
    ensures { result ≡ (if is_an mode then S.Long else size) }
{
    match mode {
        Mode::An { .. } => Size::Long,
        _ => size,
    }
}

/// A register, or -(An).
fn pair_mode(m: u8, reg: u8) -> Mode
    ensures { result ≡ pair_mode m reg }
{
    if m == 0 {
        Mode::Dn { reg }
    } else {
        Mode::Pre { reg }
    }
}

/// A number of three bits that is 8 where they are 0.
fn eight_if_zero(number: u8) -> u32
    ensures { result ≡ eight_if_zero number }
{
    if number == 0 { 8 } else { u32::from(number) }
}

/// A byte with its sign as 32 bits.
pub fn extended_byte(byte: u8) -> u32
    ensures { result ≡ extended_byte byte }
{
    let byte = u32::from(byte);
    if byte < 0x80 {
        byte
    } else {
        byte + 0xffff_ff00
    }
}

/// The count of a shift: in Dc, or the number c.
fn shift_source(i: u8, c: u8) -> Source
    ensures { result ≡ shift_source i c }
{
    if i == 1 {
        Source::Operand {
            mode: Mode::Dn { reg: c },
        }
    } else {
        Source::Number {
            value: eight_if_zero(c),
        }
    }
}

/// The row of an instruction; of one that has none, a row that is never asked for.
#[tactic(auto, unfolding(crate::specs::Rows::general_row))]
pub fn general_row(instr: &Instr) -> GeneralRow
    ensures { result ≡ general_row instr.now }
{
    match *instr {
        Instr::Immediate {
            which,
            size,
            mode,
            ..
        } => both(Mode::Imm, size, mode, size, immediate_op(which)),
        Instr::Cmpi { size, mode } => tests(Mode::Imm, size, mode, size, Op::Cmp),
        Instr::ImmediateToStatus { which } => {
            let size = if which < 3 { Size::Byte } else { Size::Word };
            status(Mode::Imm, size, Op::ImmediateToStatus { which })
        }
        Instr::BitDynamic { which, r, mode, .. } => GeneralRow {
            writes: which != 0,
            ..both(
                Mode::Dn { reg: r },
                Size::Long,
                mode,
                bit_size(mode),
                bit_op(which),
            )
        },
        Instr::BitStatic { which, mode, .. } => GeneralRow {
            writes: which != 0,
            ..both(Mode::Imm, Size::Byte, mode, bit_size(mode), bit_op(which))
        },
        Instr::Move { size, dest, mode } => moves(mode, size, dest, size, Op::Move),
        Instr::Movea { size, r, mode } => moves(
            mode,
            size,
            Mode::An { reg: r },
            Size::Long,
            Op::MoveAddress,
        ),
        Instr::Unary {
            which,
            size,
            mode,
            ..
        } => one(0, mode, size, unary_op(which)),
        Instr::MoveFromSr { mode } => one(0, mode, Size::Word, Op::MoveFromSr),
        Instr::MoveToStatus { which, mode } => status(mode, Size::Word, Op::MoveToStatus { which }),
        Instr::Nbcd { mode } => one(0, mode, Size::Byte, Op::Nbcd),
        Instr::Swap { r } => one(0, Mode::Dn { reg: r }, Size::Long, Op::Swap),
        Instr::Ext { size, r } => one(0, Mode::Dn { reg: r }, size, Op::Ext),
        Instr::Tst { size, mode } => GeneralRow {
            writes: false,
            ..one(0, mode, size, Op::Tst)
        },
        Instr::Tas { mode } => one(0, mode, Size::Byte, Op::Tas),
        Instr::Chk { r, mode } => GeneralRow {
            traps: Traps::Outside,
            ..tests(mode, Size::Word, Mode::Dn { reg: r }, Size::Word, Op::Chk)
        },
        Instr::Quick {
            which,
            q,
            size,
            mode,
        } => one(
            eight_if_zero(q),
            mode,
            quick_size(mode, size),
            quick_op(which == 0, mode),
        ),
        Instr::Scc { c, mode } => GeneralRow {
            count: Count::Condition { c },
            ..one(0, mode, Size::Byte, Op::Scc { c })
        },
        Instr::Moveq { r, d8 } => GeneralRow {
            reads_old: false,
            ..one(extended_byte(d8), Mode::Dn { reg: r }, Size::Long, Op::Move)
        },
        Instr::OrAndToDn {
            which,
            r,
            size,
            mode,
        } => both(mode, size, Mode::Dn { reg: r }, size, logic_op(which)),
        Instr::SubAddToDn {
            which,
            r,
            size,
            mode,
        } => both(mode, size, Mode::Dn { reg: r }, size, sum_op(which == 1)),
        Instr::ToMemory {
            which,
            r,
            size,
            mode,
        } => both(Mode::Dn { reg: r }, size, mode, size, memory_op(which)),
        Instr::Cmp { r, size, mode } => tests(mode, size, Mode::Dn { reg: r }, size, Op::Cmp),
        Instr::Eor { r, size, mode } => both(Mode::Dn { reg: r }, size, mode, size, Op::Eor),
        Instr::Cmpm { x, size, y } => tests(
            Mode::Post { reg: y },
            size,
            Mode::Post { reg: x },
            size,
            Op::Cmp,
        ),
        Instr::SubaAdda {
            which,
            r,
            size,
            mode,
        } => both(
            mode,
            size,
            Mode::An { reg: r },
            Size::Long,
            address_op(which == 1),
        ),
        Instr::Cmpa { r, size, mode } => tests(
            mode,
            size,
            Mode::An { reg: r },
            Size::Long,
            Op::CmpAddress,
        ),
        Instr::SubxAddx {
            which,
            x,
            size,
            m,
            y,
        } => {
            let op = if which == 1 { Op::Addx } else { Op::Subx };
            both(pair_mode(m, y), size, pair_mode(m, x), size, op)
        }
        Instr::SbcdAbcd { which, x, m, y } => {
            let op = if which == 1 { Op::Abcd } else { Op::Sbcd };
            both(pair_mode(m, y), Size::Byte, pair_mode(m, x), Size::Byte, op)
        }
        Instr::MuluMuls { which: 0, r, mode } => GeneralRow {
            count: Count::Ones,
            ..both(mode, Size::Word, Mode::Dn { reg: r }, Size::Long, Op::Mulu)
        },
        Instr::MuluMuls { r, mode, .. } => GeneralRow {
            count: Count::Turns,
            ..both(mode, Size::Word, Mode::Dn { reg: r }, Size::Long, Op::Muls)
        },
        Instr::DivuDivs { which, r, mode } => {
            let op = if which == 0 { Op::Divu } else { Op::Divs };
            GeneralRow {
                traps: Traps::ByZero,
                ..both(mode, Size::Word, Mode::Dn { reg: r }, Size::Long, op)
            }
        }
        Instr::ShiftRegister {
            c,
            d,
            size,
            i,
            t,
            r,
        } => GeneralRow {
            source: shift_source(i, c),
            source_size: Size::Long,
            count: Count::Shift,
            ..one(0, Mode::Dn { reg: r }, size, shift_op(d, t))
        },
        Instr::ShiftMemory { t, d, mode } => one(1, mode, Size::Word, shift_op(d, t)),
        Instr::Movep { .. }
        | Instr::Pea { .. }
        | Instr::MovemToMemory { .. }
        | Instr::MovemToRegisters { .. }
        | Instr::Trap { .. }
        | Instr::LinkUnlk { .. }
        | Instr::MoveUsp { .. }
        | Instr::ResetNopStopRte { .. }
        | Instr::RtsTrapvRtr { .. }
        | Instr::JsrJmp { .. }
        | Instr::Lea { .. }
        | Instr::Dbcc { .. }
        | Instr::Branch { .. }
        | Instr::Exg { .. }
        | Instr::Illegal
        | Instr::LineA
        | Instr::LineF => both(Mode::Imm, Size::Long, Mode::Imm, Size::Long, Op::Other),
    }
}
