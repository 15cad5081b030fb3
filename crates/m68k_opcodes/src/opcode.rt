//! From an opcode to its instruction.

ghost use Rattle.std.specs.Prelude.{◌≡◌, ◌≤◌, ◌==◌, if◌then◌else◌};
ghost use Rattle.m68k_opcodes.specs.declared.class.Class.TheVariants as K;
ghost use Rattle.m68k_opcodes.specs.declared.instr.Instr.TheVariants as I;
ghost use Rattle.m68k_opcodes.specs.code.Parts.{operand_in};
ghost use Rattle.m68k_opcodes.specs.Table.{decode_of, rows_at};
ghost use Rattle.m68k_opcodes.specs.code.Lines as L;

use crate::class::Class;
use crate::fields::{
    alterable_of, any_of, bit_8, condition, high_register, long_if, low_byte, low_register, mode,
    mode_bits, operand, opmode, size, size_bits,
};
use crate::instr::Instr;
use crate::operand::Size;

/// The instruction of an opcode (M68000 Programmer's Reference Manual, operation code map).
/// A mode outside the class of its row, or a byte of an address register, is no instruction.
pub fn decode(opcode: u16) -> Instr
    ensures instruction { result ≡ decode_of opcode }
    ensures one_row { rows_at opcode ≤ 1 }
{
    match opcode >> 12 {
        0 => immediates_and_bits(opcode),
        1 => moves(opcode, Size::Byte),
        2 => moves(opcode, Size::Long),
        3 => moves(opcode, Size::Word),
        4 => miscellaneous(opcode),
        5 => quick_and_conditions(opcode),
        6 => branch(opcode),
        7 => move_quick(opcode),
        8 => or_and_divide(opcode),
        9 => sums(opcode, 0),
        10 => Instr::LineA,
        11 => compare(opcode),
        12 => and_and_multiply(opcode),
        13 => sums(opcode, 1),
        14 => shifts(opcode),
        _ => Instr::LineF,
    }
}

/// Opcodes 0000 to 0FFF.
fn immediates_and_bits(opcode: u16) -> Instr
    ensures { result ≡ L.immediates_and_bits opcode }
{
    if bit_8(opcode) == 1 {
        return bit_dynamic(opcode);
    }
    match high_register(opcode) {
        4 => bit_static(opcode),
        6 => compare_immediate(opcode),
        7 => Instr::Illegal,
        o => immediate(opcode, o),
    }
}

/// BTST and its kin with the bit's number in a register, and MOVEP.
fn bit_dynamic(opcode: u16) -> Instr
    ensures { result ≡ L.bit_dynamic opcode }
{
    let (r, t) = (high_register(opcode), size_bits(opcode));
    if mode_bits(opcode) == 1 {
        return Instr::Movep {
            r,
            o: t,
            a: low_register(opcode),
        };
    }
    let class = if t == 0 {
        Class::Data
    } else {
        Class::DataAlterable
    };
    match operand(opcode, class) {
        Some(mode) => Instr::BitDynamic {
            which: t,
            r,
            t,
            mode,
        },
        None => Instr::Illegal,
    }
}

/// BTST and its kin with the bit's number in the instruction.
fn bit_static(opcode: u16) -> Instr
    ensures { result ≡ L.bit_static opcode }
{
    let t = size_bits(opcode);
    let class = if t == 0 {
        Class::DataButImmediate
    } else {
        Class::DataAlterable
    };
    match operand(opcode, class) {
        Some(mode) => Instr::BitStatic { which: t, t, mode },
        None => Instr::Illegal,
    }
}

/// CMPI.
fn compare_immediate(opcode: u16) -> Instr
    ensures { result ≡ L.compare_immediate opcode }
{
    match (size(opcode), operand(opcode, Class::DataAlterable)) {
        (Some(size), Some(mode)) => Instr::Cmpi { size, mode },
        _ => Instr::Illegal,
    }
}

/// ORI and its kin.
fn immediate(opcode: u16, o: u8) -> Instr
    ensures { result ≡ L.immediate opcode o }
{
    let which = if o == 5 { 4 } else { o };
    match (size(opcode), operand(opcode, Class::DataAlterable)) {
        (Some(size), Some(mode)) => Instr::Immediate {
            which,
            o,
            size,
            mode,
        },
        _ => immediate_to_status(opcode),
    }
}

/// ORI, ANDI and EORI to CCR and SR.
fn immediate_to_status(opcode: u16) -> Instr
    ensures { result ≡ L.immediate_to_status opcode }
{
    match opcode {
        0x003c => Instr::ImmediateToStatus { which: 0 },
        0x023c => Instr::ImmediateToStatus { which: 1 },
        0x0a3c => Instr::ImmediateToStatus { which: 2 },
        0x007c => Instr::ImmediateToStatus { which: 3 },
        0x027c => Instr::ImmediateToStatus { which: 4 },
        0x0a7c => Instr::ImmediateToStatus { which: 5 },
        _ => Instr::Illegal,
    }
}

/// Opcodes 1000 to 3FFF: MOVE and MOVEA.
fn moves(opcode: u16, size: Size) -> Instr
    ensures { result ≡ L.moves opcode size }
{
    let source = operand(opcode, any_of(size));
    let (bits, r) = (opmode(opcode), high_register(opcode));
    match (source, mode(bits, r)) {
        (Some(mode), Some(dest)) if Class::DataAlterable.admits(dest) => Instr::Move {
            size,
            dest,
            mode,
        },
        (Some(mode), _) if bits == 1 && size != Size::Byte => Instr::Movea { size, r, mode },
        _ => Instr::Illegal,
    }
}

/// Opcodes 4000 to 4FFF.
fn miscellaneous(opcode: u16) -> Instr
    ensures { result ≡ L.miscellaneous opcode }
{
    if bit_8(opcode) == 1 {
        return address_or_check(opcode);
    }
    match high_register(opcode) {
        4 => swap_and_movem(opcode),
        5 => test(opcode),
        6 => movem_to_registers(opcode),
        7 => control(opcode),
        o => unary(opcode, o),
    }
}

/// LEA and CHK.
fn address_or_check(opcode: u16) -> Instr
    ensures { result ≡ L.address_or_check opcode }
{
    let r = high_register(opcode);
    match (
        size_bits(opcode),
        operand(opcode, Class::Control),
        operand(opcode, Class::Data),
    ) {
        (3, Some(mode), _) => Instr::Lea { r, mode },
        (2, _, Some(mode)) => Instr::Chk { r, mode },
        _ => Instr::Illegal,
    }
}

/// NEGX and its kin, and the moves of SR and CCR.
fn unary(opcode: u16, o: u8) -> Instr
    ensures { result ≡ L.unary opcode o }
{
    match (size(opcode), operand(opcode, Class::DataAlterable)) {
        (Some(size), Some(mode)) => Instr::Unary {
            which: o,
            o,
            size,
            mode,
        },
        (Some(_), None) => Instr::Illegal,
        (None, alterable) => match (o, alterable, operand(opcode, Class::Data)) {
            (0, Some(mode), _) => Instr::MoveFromSr { mode },
            (2, _, Some(mode)) => Instr::MoveToStatus { which: 0, mode },
            (3, _, Some(mode)) => Instr::MoveToStatus { which: 1, mode },
            _ => Instr::Illegal,
        },
    }
}

/// NBCD, SWAP, PEA, EXT and MOVEM to memory.
fn swap_and_movem(opcode: u16) -> Instr
    ensures { result ≡ L.swap_and_movem opcode }
{
    match size_bits(opcode) {
        0 => negate_decimal(opcode),
        1 => swap_or_address(opcode),
        bits => extend_or_movem(opcode, long_if(bits == 3)),
    }
}

/// NBCD.
fn negate_decimal(opcode: u16) -> Instr
    ensures { result ≡ L.of_mode (operand_in opcode K.DataAlterable) (λ m. I.Nbcd m) }
{
    match operand(opcode, Class::DataAlterable) {
        Some(mode) => Instr::Nbcd { mode },
        None => Instr::Illegal,
    }
}

/// SWAP and PEA.
fn swap_or_address(opcode: u16) -> Instr
    ensures { result ≡ (if L.modes opcode == 0 then I.Swap (L.low opcode)
        else L.of_mode (operand_in opcode K.Control) (λ m. I.Pea m)) }
{
    if mode_bits(opcode) == 0 {
        return Instr::Swap {
            r: low_register(opcode),
        };
    }
    match operand(opcode, Class::Control) {
        Some(mode) => Instr::Pea { mode },
        None => Instr::Illegal,
    }
}

/// EXT and MOVEM to memory.
fn extend_or_movem(opcode: u16, size: Size) -> Instr
    ensures { result ≡ (if L.modes opcode == 0 then I.Ext size (L.low opcode)
        else L.movem_to_memory opcode size) }
{
    if mode_bits(opcode) == 0 {
        return Instr::Ext {
            size,
            r: low_register(opcode),
        };
    }
    movem_to_memory(opcode, size)
}

/// MOVEM to memory.
fn movem_to_memory(opcode: u16, size: Size) -> Instr
    ensures { result ≡ L.movem_to_memory opcode size }
{
    match operand(opcode, Class::ControlAlterableOrPre) {
        Some(mode) => Instr::MovemToMemory { size, mode },
        None => Instr::Illegal,
    }
}

/// TST and TAS.
fn test(opcode: u16) -> Instr
    ensures { result ≡ L.test opcode }
{
    match (size(opcode), operand(opcode, Class::DataAlterable)) {
        (Some(size), Some(mode)) => Instr::Tst { size, mode },
        (None, Some(mode)) => Instr::Tas { mode },
        _ => Instr::Illegal,
    }
}

/// MOVEM to registers.
fn movem_to_registers(opcode: u16) -> Instr
    ensures { result ≡ L.movem_to_registers opcode }
{
    let bits = size_bits(opcode);
    match operand(opcode, Class::ControlOrPost) {
        Some(mode) if bits >= 2 => Instr::MovemToRegisters {
            size: long_if(bits == 3),
            mode,
        },
        _ => Instr::Illegal,
    }
}

/// JSR, JMP and what has no operand that the low six bits name.
fn control(opcode: u16) -> Instr
    ensures { result ≡ L.control opcode }
{
    match (size_bits(opcode), operand(opcode, Class::Control)) {
        (0, _) => Instr::Illegal,
        (1, _) => system(opcode),
        (2, Some(mode)) => Instr::JsrJmp { which: 0, mode },
        (_, Some(mode)) => Instr::JsrJmp { which: 1, mode },
        _ => Instr::Illegal,
    }
}

/// Opcodes 4E40 to 4E7F.
fn system(opcode: u16) -> Instr
    ensures { result ≡ L.system opcode }
{
    let r = low_register(opcode);
    match (mode_bits(opcode), r) {
        (0, _) => Instr::Trap { v: r },
        (1, _) => Instr::Trap { v: 8 + r },
        (2, _) => Instr::LinkUnlk { which: 0, r },
        (3, _) => Instr::LinkUnlk { which: 1, r },
        (4, _) => Instr::MoveUsp { d: 0, r },
        (5, _) => Instr::MoveUsp { d: 1, r },
        (7, _) | (_, 4) => Instr::Illegal,
        (_, 5) => Instr::RtsTrapvRtr { which: 0 },
        (_, 6) => Instr::RtsTrapvRtr { which: 1 },
        (_, 7) => Instr::RtsTrapvRtr { which: 2 },
        _ => Instr::ResetNopStopRte { which: r },
    }
}

/// Opcodes 5000 to 5FFF: ADDQ, SUBQ, Scc and DBcc.
fn quick_and_conditions(opcode: u16) -> Instr
    ensures { result ≡ L.quick_and_conditions opcode }
{
    match (size(opcode), mode_bits(opcode)) {
        (Some(size), _) => quick(opcode, size),
        (None, 1) => Instr::Dbcc {
            c: condition(opcode),
            r: low_register(opcode),
        },
        _ => match operand(opcode, Class::DataAlterable) {
            Some(mode) => Instr::Scc {
                c: condition(opcode),
                mode,
            },
            None => Instr::Illegal,
        },
    }
}

/// ADDQ and SUBQ.
fn quick(opcode: u16, size: Size) -> Instr
    ensures { result ≡ L.quick opcode size }
{
    match operand(opcode, alterable_of(size)) {
        Some(mode) => Instr::Quick {
            which: bit_8(opcode),
            q: high_register(opcode),
            size,
            mode,
        },
        None => Instr::Illegal,
    }
}

/// Opcodes 6000 to 6FFF: BRA, BSR and Bcc.
fn branch(opcode: u16) -> Instr
    ensures { result ≡ L.branch opcode }
{
    let c = condition(opcode);
    Instr::Branch {
        which: c.min(2),
        c,
        d8: low_byte(opcode),
    }
}

/// Opcodes 7000 to 7FFF: MOVEQ.
fn move_quick(opcode: u16) -> Instr
    ensures { result ≡ L.move_quick opcode }
{
    if bit_8(opcode) == 1 {
        return Instr::Illegal;
    }
    Instr::Moveq {
        r: high_register(opcode),
        d8: low_byte(opcode),
    }
}

/// Opcodes 8000 to 8FFF: OR, DIVU, DIVS and SBCD.
fn or_and_divide(opcode: u16) -> Instr
    ensures { result ≡ L.or_and_divide opcode }
{
    let r = high_register(opcode);
    match (opmode(opcode), operand(opcode, Class::Data)) {
        (3, Some(mode)) => Instr::DivuDivs { which: 0, r, mode },
        (7, Some(mode)) => Instr::DivuDivs { which: 1, r, mode },
        (3 | 7, None) => Instr::Illegal,
        _ => logic(opcode, 0),
    }
}

/// Opcodes C000 to CFFF: AND, MULU, MULS, ABCD and EXG.
fn and_and_multiply(opcode: u16) -> Instr
    ensures { result ≡ L.and_and_multiply opcode }
{
    let r = high_register(opcode);
    match (opmode(opcode), operand(opcode, Class::Data)) {
        (3, Some(mode)) => Instr::MuluMuls { which: 0, r, mode },
        (7, Some(mode)) => Instr::MuluMuls { which: 1, r, mode },
        (3 | 7, None) => Instr::Illegal,
        _ => logic(opcode, 1),
    }
}

/// OR and SBCD (`which` 0), or AND, ABCD and EXG (`which` 1).
fn logic(opcode: u16, which: u8) -> Instr
    ensures { result ≡ L.logic opcode which }
{
    if bit_8(opcode) == 0 {
        return logic_to_register(opcode, which);
    }
    if mode_bits(opcode) >= 2 {
        return to_memory(opcode, which);
    }
    if size_bits(opcode) > 0 {
        return exchange(opcode, which);
    }
    Instr::SbcdAbcd {
        which,
        x: high_register(opcode),
        m: mode_bits(opcode),
        y: low_register(opcode),
    }
}

/// OR and AND to a data register.
fn logic_to_register(opcode: u16, which: u8) -> Instr
    ensures { result ≡ L.logic_to_register opcode which }
{
    match (size(opcode), operand(opcode, Class::Data)) {
        (Some(size), Some(mode)) => Instr::OrAndToDn {
            which,
            r: high_register(opcode),
            size,
            mode,
        },
        _ => Instr::Illegal,
    }
}

/// EXG, which stands among AND's opcodes alone.
fn exchange(opcode: u16, which: u8) -> Instr
    ensures { result ≡ L.exchange opcode which }
{
    let (x, y) = (high_register(opcode), low_register(opcode));
    match (which, size_bits(opcode), mode_bits(opcode)) {
        (1, 1, 0) => Instr::Exg { x, o: 8, y },
        (1, 1, _) => Instr::Exg { x, o: 9, y },
        (1, 2, 1) => Instr::Exg { x, o: 17, y },
        _ => Instr::Illegal,
    }
}

/// OR, AND, SUB and ADD to memory.
fn to_memory(opcode: u16, which: u8) -> Instr
    ensures { result ≡ L.to_memory opcode which }
{
    match (size(opcode), operand(opcode, Class::MemoryAlterable)) {
        (Some(size), Some(mode)) => Instr::ToMemory {
            which,
            r: high_register(opcode),
            size,
            mode,
        },
        _ => Instr::Illegal,
    }
}

/// Opcodes 9000 to 9FFF (`which` 0) and D000 to DFFF (`which` 1): SUB and ADD in their forms.
fn sums(opcode: u16, which: u8) -> Instr
    requires { which ≤ 1 }
    ensures { result ≡ L.sums opcode which }
{
    match (size(opcode), bit_8(opcode), mode_bits(opcode)) {
        (None, bit, _) => sum_to_address(opcode, which, long_if(bit == 1)),
        (Some(size), 0, _) => sum_to_register(opcode, which, size),
        (Some(size), _, m @ (0 | 1)) => Instr::SubxAddx {
            which,
            x: high_register(opcode),
            size,
            m,
            y: low_register(opcode),
        },
        _ => to_memory(opcode, 2 + which),
    }
}

/// SUBA and ADDA.
fn sum_to_address(opcode: u16, which: u8, size: Size) -> Instr
    ensures { result ≡ L.sum_to_address opcode which size }
{
    match operand(opcode, Class::All) {
        Some(mode) => Instr::SubaAdda {
            which,
            r: high_register(opcode),
            size,
            mode,
        },
        None => Instr::Illegal,
    }
}

/// SUB and ADD to a data register.
fn sum_to_register(opcode: u16, which: u8, size: Size) -> Instr
    ensures { result ≡ L.sum_to_register opcode which size }
{
    match operand(opcode, any_of(size)) {
        Some(mode) => Instr::SubAddToDn {
            which,
            r: high_register(opcode),
            size,
            mode,
        },
        None => Instr::Illegal,
    }
}

/// Opcodes B000 to BFFF: CMP, CMPA, CMPM and EOR.
fn compare(opcode: u16) -> Instr
    ensures { result ≡ L.compare opcode }
{
    match (size(opcode), bit_8(opcode), mode_bits(opcode)) {
        (None, bit, _) => compare_address(opcode, long_if(bit == 1)),
        (Some(size), 0, _) => compare_register(opcode, size),
        (Some(size), _, 1) => Instr::Cmpm {
            x: high_register(opcode),
            size,
            y: low_register(opcode),
        },
        (Some(size), _, _) => exclusive_or(opcode, size),
    }
}

/// CMPA.
fn compare_address(opcode: u16, size: Size) -> Instr
    ensures { result ≡ L.compare_address opcode size }
{
    let r = high_register(opcode);
    match operand(opcode, Class::All) {
        Some(mode) => Instr::Cmpa { r, size, mode },
        None => Instr::Illegal,
    }
}

/// CMP.
fn compare_register(opcode: u16, size: Size) -> Instr
    ensures { result ≡ L.compare_register opcode size }
{
    let r = high_register(opcode);
    match operand(opcode, any_of(size)) {
        Some(mode) => Instr::Cmp { r, size, mode },
        None => Instr::Illegal,
    }
}

/// EOR.
fn exclusive_or(opcode: u16, size: Size) -> Instr
    ensures { result ≡ L.exclusive_or opcode size }
{
    let r = high_register(opcode);
    match operand(opcode, Class::DataAlterable) {
        Some(mode) => Instr::Eor { r, size, mode },
        None => Instr::Illegal,
    }
}

/// Opcodes E000 to EFFF: the shifts.
fn shifts(opcode: u16) -> Instr
    ensures { result ≡ L.shifts opcode }
{
    let (high, d) = (high_register(opcode), bit_8(opcode));
    match (size(opcode), operand(opcode, Class::MemoryAlterable)) {
        (Some(size), _) => Instr::ShiftRegister {
            c: high,
            d,
            size,
            i: mode_bits(opcode) >> 2,
            t: mode_bits(opcode) & 3,
            r: low_register(opcode),
        },
        (None, Some(mode)) if high < 4 => Instr::ShiftMemory { t: high, d, mode },
        _ => Instr::Illegal,
    }
}
