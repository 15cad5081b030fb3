//! How many clocks an instruction takes.

ghost use Rattle.std.specs.Prelude.{◌≡◌, ℕ, ◌+◌, ◌*◌, ◌<◌, ◌≤◌, slice_index};
ghost use Rattle.m68k_opcodes.specs.Clocks.{number, in_dn, to_register};
ghost use Rattle.m68k_opcodes.specs.Modes.{sized, ea, move_dest, listed, control, control_or_post, control_alterable_or_pre};
ghost use Rattle.m68k_opcodes.specs.Table.{decode_of, clocks_at};
ghost use Rattle.m68k_opcodes.specs.code.Timing as T;
ghost use Rattle.m68k_opcodes.specs.declared.operand.Size.TheVariants as S;

use crate::instr::Instr;
use crate::operand::{Mode, Size};

/// The clocks of an instruction that `decode` gives, as the table of instructions has them (they
/// follow the M68000 User's Manual, instruction execution times; (profile) where editions differ).
/// `extra` is the number of registers in MOVEM, the count of a register's shift, in MULU the 1 bits
/// of the source, in MULS the pairs 01 and 10 among neighbours of the source followed by a 0. Where
/// an instruction has several outcomes it is the place of the outcome: Bcc 0 taken, 1 not, 2 not
/// with d16; DBcc 0 condition true, 1 branch, 2 ended; Scc of Dn 0 false, 1 true. An exception has
/// no number of its own, and an outcome that is not there neither: 0.
pub fn clocks(i: &Instr, extra: u32) -> u32
    requires { extra ≤ 63 }
    ensures { (opcode : ℕ) → opcode < 65536 → decode_of opcode ≡ i.now →
        result ≡ number (clocks_at opcode) extra }
{
    clocks_of(i, extra)
}

/// The clocks that an operand of a mode adds, by the table of address modes.
pub fn ea(mode: &Mode, size: Size) -> u32
    ensures value { result ≡ ea size mode.now }
    ensures small { result ≤ 16 }
{
    match size {
        Size::Long => ea_long(*mode),
        _ => ea_short(*mode),
    }
}

/// The clocks of immediate operations, bit operations and moves; the others' follow.
fn clocks_of(i: &Instr, extra: u32) -> u32
    requires { extra ≤ 63 }
    ensures { result ≡ number (T.timing i.now) extra }
{
    match *i {
        Instr::Immediate { size, mode, .. } => in_dn(
            mode,
            sized(size, 8, 16),
            with_ea(size, mode, 12, 20),
        ),
        Instr::Cmpi { size, mode } => in_dn(mode, sized(size, 8, 14), with_ea(size, mode, 8, 12)),
        Instr::ImmediateToStatus { .. } => 20,
        Instr::BitDynamic { which, mode, .. } => bit_dynamic(which, mode),
        Instr::BitStatic { which, mode, .. } => bit_static(which, mode),
        Instr::Movep { o, .. } => match o {
            0 | 2 => 16,
            _ => 24,
        },
        Instr::Move { size, dest, mode } => with_ea(size, mode, 4, 4) + move_dest(size, dest),
        Instr::Movea { size, mode, .. } => with_ea(size, mode, 4, 4),
        _ => clocks_of_operands(i, extra),
    }
}

/// The clocks of the instructions of the opcodes 4000 to 4FFF with an operand; the others' follow.
fn clocks_of_operands(i: &Instr, extra: u32) -> u32
    requires { extra ≤ 63 }
    ensures { result ≡ number (T.timing_of_operands i.now) extra }
{
    match *i {
        Instr::Unary { size, mode, .. } => in_dn(
            mode,
            sized(size, 4, 6),
            with_ea(size, mode, 8, 12),
        ),
        Instr::MoveFromSr { mode } => in_dn(mode, 6, with_ea(Size::Word, mode, 8, 8)),
        Instr::MoveToStatus { mode, .. } => with_ea(Size::Word, mode, 12, 12),
        Instr::Nbcd { mode } => in_dn(mode, 6, with_ea(Size::Byte, mode, 8, 8)),
        Instr::Swap { .. } | Instr::Ext { .. } => 4,
        Instr::Pea { mode } => in_control(mode, &[12, 16, 20, 16, 20, 16, 20]),
        Instr::MovemToMemory { size, mode } => movem_to_memory(mode) + sized(size, 4, 8) * extra,
        Instr::MovemToRegisters { size, mode } => movem_to_registers(mode)
            + sized(size, 4, 8) * extra,
        Instr::Tst { size, mode } => with_ea(size, mode, 4, 4),
        Instr::Tas { mode } => in_dn(mode, 4, with_ea(Size::Byte, mode, 10, 10)),
        Instr::JsrJmp { which: 0, mode } => in_control(mode, &[16, 18, 22, 18, 20, 18, 22]),
        Instr::JsrJmp { mode, .. } => in_control(mode, &[8, 10, 14, 10, 12, 10, 14]),
        Instr::Lea { mode, .. } => in_control(mode, &[4, 8, 12, 8, 12, 8, 12]),
        Instr::Chk { mode, .. } => with_ea(Size::Word, mode, 10, 10),
        _ => clocks_of_flow(i, extra),
    }
}

/// The clocks of jumps, branches, conditions, system control and quick operations; the others' follow.
fn clocks_of_flow(i: &Instr, extra: u32) -> u32
    requires { extra ≤ 63 }
    ensures { result ≡ number (T.timing_of_flow i.now) extra }
{
    match *i {
        Instr::LinkUnlk { which: 0, .. } => 16,
        Instr::LinkUnlk { .. } => 12,
        Instr::MoveUsp { .. } | Instr::Moveq { .. } => 4,
        Instr::ResetNopStopRte { which } => outcome(&[132, 4, 8, 20], u32::from(which)),
        Instr::RtsTrapvRtr { which } => outcome(&[16, 4, 20], u32::from(which)),
        Instr::Quick { size, mode, .. } => quick(size, mode),
        Instr::Scc {
            mode: Mode::Dn { .. },
            ..
        } => outcome(&[4, 6], extra),
        Instr::Scc { mode, .. } => with_ea(Size::Byte, mode, 8, 8),
        Instr::Dbcc { .. } => outcome(&[12, 10, 14], extra),
        Instr::Branch { c: 0, .. } => 10,
        Instr::Branch { c: 1, .. } => 18,
        Instr::Branch { .. } => outcome(&[10, 8, 12], extra),
        _ => clocks_of_arithmetic(i, extra),
    }
}

/// The clocks of the two-operand arithmetic, EXG and the shifts; the others have none.
fn clocks_of_arithmetic(i: &Instr, extra: u32) -> u32
    requires { extra ≤ 63 }
    ensures { result ≡ number (T.timing_of_arithmetic i.now) extra }
{
    match *i {
        Instr::OrAndToDn { size, mode, .. } | Instr::SubAddToDn { size, mode, .. } => to_register(
            4, size, mode,
        ),
        Instr::ToMemory { size, mode, .. } => with_ea(size, mode, 8, 12),
        Instr::Cmp { size, mode, .. } => with_ea(size, mode, 4, 6),
        Instr::Eor { size, mode, .. } => in_dn(mode, sized(size, 4, 8), with_ea(size, mode, 8, 12)),
        Instr::Cmpm { size, .. } => sized(size, 12, 20),
        Instr::SubaAdda { size, mode, .. } => to_register(8, size, mode),
        Instr::Cmpa { size, mode, .. } => with_ea(size, mode, 6, 6),
        Instr::SubxAddx { size, m: 0, .. } => sized(size, 4, 8),
        Instr::SubxAddx { size, .. } => sized(size, 18, 30),
        Instr::SbcdAbcd { m: 0, .. } | Instr::Exg { .. } => 6,
        Instr::SbcdAbcd { .. } => 18,
        Instr::MuluMuls { mode, .. } => with_ea(Size::Word, mode, 38, 38) + 2 * extra,
        Instr::DivuDivs { which: 0, mode, .. } => with_ea(Size::Word, mode, 140, 140),
        Instr::DivuDivs { mode, .. } => with_ea(Size::Word, mode, 158, 158),
        Instr::ShiftRegister { size, .. } => sized(size, 6, 8) + 2 * extra,
        Instr::ShiftMemory { mode, .. } => with_ea(Size::Word, mode, 8, 8),
        _ => 0,
    }
}

/// The clocks of BTST and its kin with the bit's number in a register.
fn bit_dynamic(which: u8, mode: Mode) -> u32
    ensures { result ≡ T.bit_dynamic which mode }
{
    match which {
        0 => in_dn(mode, 6, with_ea(Size::Byte, mode, 4, 4)),
        2 => in_dn(mode, 10, with_ea(Size::Byte, mode, 8, 8)),
        _ => in_dn(mode, 8, with_ea(Size::Byte, mode, 8, 8)),
    }
}

/// The clocks of BTST and its kin with the bit's number in the instruction.
fn bit_static(which: u8, mode: Mode) -> u32
    ensures { result ≡ T.bit_static which mode }
{
    match which {
        0 => in_dn(mode, 10, with_ea(Size::Byte, mode, 8, 8)),
        2 => in_dn(mode, 14, with_ea(Size::Byte, mode, 12, 12)),
        _ => in_dn(mode, 12, with_ea(Size::Byte, mode, 12, 12)),
    }
}

/// The clocks of ADDQ and SUBQ.
fn quick(size: Size, mode: Mode) -> u32
    ensures { result ≡ T.quick size mode }
{
    match mode {
        Mode::Dn { .. } => sized(size, 4, 8),
        Mode::An { .. } => 8,
        _ => with_ea(size, mode, 8, 12),
    }
}

/// The clocks of an operation with the result in a register: a long from a register or # takes 2 more.
fn to_register(short: u32, size: Size, mode: Mode) -> u32
    requires { short ≤ 200 }
    ensures { result ≡ to_register short size mode }
{
    match mode {
        Mode::Dn { .. } | Mode::An { .. } | Mode::Imm => with_ea(size, mode, short, 8),
        _ => with_ea(size, mode, short, 6),
    }
}

/// A number for Dn, another for the other modes.
fn in_dn(mode: Mode, there: u32, elsewhere: u32) -> u32
    ensures { result ≡ in_dn mode there elsewhere }
{
    match mode {
        Mode::Dn { .. } => there,
        _ => elsewhere,
    }
}

/// A number for byte and word, another for long.
fn sized(size: Size, short: u32, long: u32) -> u32
    ensures { result ≡ sized size short long }
{
    match size {
        Size::Long => long,
        _ => short,
    }
}

/// A number for byte and word or another for long, and the clocks of the mode.
fn with_ea(size: Size, mode: Mode, short: u32, long: u32) -> u32
    requires short { short ≤ 200 }
    requires long { long ≤ 200 }
    ensures value { result ≡ sized size short long + ea size mode }
    ensures small { result ≤ 300 }
{
    match size {
        Size::Long => long + ea_long(mode),
        _ => short + ea_short(mode),
    }
}

/// The clocks of a mode for a byte or a word.
fn ea_short(mode: Mode) -> u32
    ensures byte { result ≡ ea S.Byte mode }
    ensures word { result ≡ ea S.Word mode }
    ensures small { result ≤ 16 }
{
    match mode {
        Mode::Dn { .. } | Mode::An { .. } => 0,
        Mode::Ind { .. } | Mode::Post { .. } | Mode::Imm => 4,
        Mode::Pre { .. } => 6,
        Mode::Disp { .. } | Mode::Short | Mode::PcDisp => 8,
        Mode::Index { .. } | Mode::PcIndex => 10,
        Mode::Long => 12,
    }
}

/// The clocks of a mode for a long.
fn ea_long(mode: Mode) -> u32
    ensures long { result ≡ ea S.Long mode }
    ensures small { result ≤ 16 }
{
    match mode {
        Mode::Dn { .. } | Mode::An { .. } => 0,
        Mode::Ind { .. } | Mode::Post { .. } | Mode::Imm => 8,
        Mode::Pre { .. } => 10,
        Mode::Disp { .. } | Mode::Short | Mode::PcDisp => 12,
        Mode::Index { .. } | Mode::PcIndex => 14,
        Mode::Long => 16,
    }
}

/// The clocks of a mode as the destination of MOVE: as `ea`, but -(An) takes no longer than (An).
fn move_dest(size: Size, dest: Mode) -> u32
    ensures value { result ≡ move_dest size dest }
    ensures small { result ≤ 20 }
{
    match (size, dest) {
        (_, Mode::An { .. } | Mode::PcDisp | Mode::PcIndex | Mode::Imm) => 0,
        (Size::Long, Mode::Pre { .. }) => 8,
        (_, Mode::Pre { .. }) => 4,
        (Size::Long, _) => ea_long(dest),
        _ => ea_short(dest),
    }
}

/// The number of a control mode, of those for (An), d16(An), d8(An,Xn), (xxx).W, (xxx).L, d16(PC), d8(PC,Xn).
fn in_control(mode: Mode, numbers: &[u32; 7]) -> u32
    ensures { result ≡ listed control numbers.now mode }
{
    match mode {
        Mode::Ind { .. } => numbers[0],
        Mode::Disp { .. } => numbers[1],
        Mode::Index { .. } => numbers[2],
        Mode::Short => numbers[3],
        Mode::Long => numbers[4],
        Mode::PcDisp => numbers[5],
        Mode::PcIndex => numbers[6],
        _ => 0,
    }
}

/// The clocks of MOVEM to memory, but for its registers.
fn movem_to_memory(mode: Mode) -> u32
    ensures value { result ≡ listed control_alterable_or_pre T.to_memory mode }
    ensures small { result ≤ 20 }
{
    match mode {
        Mode::Ind { .. } | Mode::Pre { .. } => 8,
        Mode::Disp { .. } | Mode::Short => 12,
        Mode::Index { .. } => 14,
        Mode::Long => 16,
        _ => 0,
    }
}

/// The clocks of MOVEM to registers, but for its registers.
fn movem_to_registers(mode: Mode) -> u32
    ensures value { result ≡ listed control_or_post T.to_registers mode }
    ensures small { result ≤ 20 }
{
    match mode {
        Mode::Ind { .. } | Mode::Post { .. } => 12,
        Mode::Disp { .. } | Mode::Short | Mode::PcDisp => 16,
        Mode::Index { .. } | Mode::PcIndex => 18,
        Mode::Long => 20,
        _ => 0,
    }
}

/// The number of an outcome; 0 where it is not there.
fn outcome(numbers: &[u32], place: u32) -> u32
    ensures { result ≡ slice_index numbers.now place }
{
    match numbers.get(place as usize) {
        Some(number) => *number,
        None => 0,
    }
}
