//! What follows an access.

ghost use Rattle.std.specs.Prelude.{◌≡◌, ◌≤◌, ◌<◌, ◌+◌, ◌*◌, ◌/◌, ◌%◌};
ghost use Rattle.m68k_decode.specs.Access.{Prog};
ghost use Rattle.m68k_decode.specs.Run.{at_place, moved, half_at};
ghost use Rattle.m68k_decode.specs.Walk.{refused, permitted, execute, opcode_read};
ghost use Rattle.m68k_exec.specs.declared.state.Part.TheVariants as W;
ghost use Rattle.m68k_exec.specs.declared.state.Role.TheVariants as R;
ghost use Rattle.m68k_exec.specs.Meaning.{meaning, run_of, rest, fetched, valued, written, placed, role_mode, role_size, follow};

use crate::access::{end_instruction, fetch_word, finish_row, read_low_word, write_word};
use crate::entries::{end_reset, push_frame, start_handler, take_reset_stack};
use crate::flow::{
    control_mode, exchange_registers, fetch_own_word, finish_unlink, jump_to, move_usp,
    raise_exception, read_resume_pc, resume_at, return_to, start_branch, start_control,
    start_return, start_system_control, start_unlink, take_control_place, take_own_word,
};
use crate::general::{
    compute_in_memory, start_general_row, take_dest_place, take_source_place, take_source_value,
};
use crate::lists::{
    gather_bytes, list_mode, list_size, scatter_bytes, store_next_register, take_list_place,
    take_register_value, without_step,
};
use crate::state::{Context, Machine, Part, Role, Step, Then, Use};
use m68k_decode::{Instr, Mode, Op, Place68, Size, Trap};
use m68k_ea::{long_of, resolve};
use m68k_results::{dest_mode, needs_supervisor, source_mode};

/// An exception in place of the instruction.
#[inline(never)]
#[tactic(auto, unfolding(m68k_decode::specs::Walk::refused))]
fn refuse_instruction(context: &Context, machine: &mut Machine, kind: Trap)
    ensures { meaning context.now machine.new ≡ refused kind (run_of context.now machine.old) }
{
    machine.regs = context.start;
    raise_exception(machine, kind);
}

/// An instruction, after its opcode.
#[tactic(auto, unfolding(m68k_decode::specs::Walk::permitted))]
fn dispatch_instruction(context: &Context, machine: &mut Machine)
    ensures { meaning context.now machine.new
        ≡ permitted context.now.fetched.instr (run_of context.now machine.old) }
{
    match context.fetched.instr {
        Instr::Dbcc { .. } => fetch_own_word(context, machine),
        Instr::Branch { which, c, d8 } => start_branch(context, machine, which, c, d8),
        Instr::Movep { .. }
        | Instr::MovemToMemory { .. }
        | Instr::MovemToRegisters { .. }
        | Instr::Pea { .. }
        | Instr::JsrJmp { .. }
        | Instr::Lea { .. }
        | Instr::LinkUnlk { .. }
        | Instr::ResetNopStopRte { .. }
        | Instr::RtsTrapvRtr { .. }
        | Instr::MoveUsp { .. }
        | Instr::Exg { .. }
        | Instr::Trap { .. }
        | Instr::Illegal
        | Instr::LineA
        | Instr::LineF => dispatch_rare(context, machine),
        _ => start_general_row(context, machine),
    }
}

/// A rare instruction, after its opcode.
#[inline(never)]
#[tactic(auto, unfolding(m68k_decode::specs::Walk::permitted))]
fn dispatch_rare(context: &Context, machine: &mut Machine)
    ensures { meaning context.now machine.new
        ≡ permitted context.now.fetched.instr (run_of context.now machine.old) }
{
    match context.fetched.instr {
        Instr::Movep { .. }
        | Instr::MovemToMemory { .. }
        | Instr::MovemToRegisters { .. }
        | Instr::LinkUnlk { which: 0, .. }
        | Instr::Dbcc { .. } => fetch_own_word(context, machine),
        Instr::Pea { .. } | Instr::JsrJmp { .. } | Instr::Lea { .. } => start_control(
            context, machine,
        ),
        Instr::Branch { which, c, d8 } => start_branch(context, machine, which, c, d8),
        Instr::LinkUnlk { r, .. } => start_unlink(context, machine, r),
        Instr::ResetNopStopRte { which } => start_system_control(context, machine, which),
        Instr::RtsTrapvRtr { which } => start_return(context, machine, which),
        Instr::MoveUsp { d, r } => {
            move_usp(&mut machine.regs, d, r);
            finish_row(context, machine, 0);
        }
        Instr::Exg { x, o, y } => {
            exchange_registers(&mut machine.regs, x, o, y);
            finish_row(context, machine, 0);
        }
        Instr::Trap { v } => raise_exception(machine, Trap::Number { v }),
        Instr::Illegal => refuse_instruction(context, machine, Trap::Illegal),
        Instr::LineA => refuse_instruction(context, machine, Trap::LineA),
        Instr::LineF => refuse_instruction(context, machine, Trap::LineF),
        _ => start_general_row(context, machine),
    }
}

/// An instruction, of which the plain rows are looked for first. Most are rows with a source, a destination
/// and a result, which change the status register by their flags alone, as all may.
#[inline(always)]
fn execute_instruction(context: &Context, machine: &mut Machine)
    ensures { meaning context.now machine.new
        ≡ execute context.now.fetched.instr (run_of context.now machine.old) }
{
    if context.fetched.is_plain() {
        start_general_row(context, machine);
        return;
    }
    match context.fetched.row.op {
        Op::Other | Op::ImmediateToStatus { .. } | Op::MoveToStatus { .. } => execute_other(
            context, machine,
        ),
        _ => start_general_row(context, machine),
    }
}

/// Any instruction, if it is not the supervisor's alone.
#[inline(never)]
#[tactic(auto, unfolding(m68k_decode::specs::Walk::execute))]
fn execute_other(context: &Context, machine: &mut Machine)
    ensures { meaning context.now machine.new
        ≡ execute context.now.fetched.instr (run_of context.now machine.old) }
{
    if needs_supervisor(&context.fetched.instr) && !machine.regs.is_supervisor() {
        refuse_instruction(context, machine, Trap::Privilege);
    } else {
        dispatch_instruction(context, machine);
    }
}

/// The opcode is read: the context takes it.
#[inline(always)]
#[tactic(auto, unfolding(m68k_decode::specs::Walk::opcode_read))]
fn take_opcode(context: &mut Context, machine: &mut Machine, opcode: u16)
    ensures start { context.new.start ≡ context.old.start }
    ensures walk { meaning context.new machine.new
        ≡ opcode_read opcode (run_of context.old machine.old) }
{
    let fetched = context.rows.kept(opcode);
    if fetched.opcode != opcode {
        take_new_opcode(context, machine, opcode);
        return;
    }
    context.fetched = fetched;
    context.taking = false;
    execute_instruction(context, machine);
}

/// The opcode is read, which is not among those kept: the context takes it.
#[cold]
#[inline(never)]
#[tactic(auto, unfolding(m68k_decode::specs::Walk::opcode_read))]
fn take_new_opcode(context: &mut Context, machine: &mut Machine, opcode: u16)
    ensures start { context.new.start ≡ context.old.start }
    ensures walk { meaning context.new machine.new
        ≡ opcode_read opcode (run_of context.old machine.old) }
{
    context.fetched = context.rows.renewed(opcode);
    context.taking = false;
    execute_instruction(context, machine);
}

/// The mode and the size of an operand.
fn operand_of(context: &Context, role: Role) -> (Mode, Size)
    ensures mode { result.0 ≡ role_mode role context.now.fetched.instr }
    ensures size { result.1 ≡ role_size role context.now.fetched.instr }
{
    let instr = &context.fetched.instr;
    let row = &context.fetched.row;
    match role {
        Role::Source => (source_mode(row.source), row.source_size),
        Role::Dest { .. } => (dest_mode(row.dest), row.size),
        Role::Control => (control_mode(instr), Size::Long),
        Role::List { .. } => (without_step(list_mode(instr)), list_size(instr)),
    }
}

/// The place of an operand is known.
#[inline(always)]
fn take_place(context: &Context, machine: &mut Machine, role: Role, place: Place68)
    ensures { meaning context.now machine.new
        ≡ placed role context.now.fetched.instr place (run_of context.now machine.old) }
{
    match role {
        Role::Source => take_source_place(context, machine, place),
        Role::Dest { value } => take_dest_place(context, machine, value, place),
        Role::Control => take_control_place(context, machine, place),
        Role::List { mask } => take_list_place(context, machine, mask, place),
    }
}

/// The extension words of an operand are known.
#[inline(always)]
#[tactic(auto, unfolding(m68k_decode::specs::Run::at_place))]
fn resolve_place(context: &Context, machine: &mut Machine, role: Role, pc: u32, high: u16, low: u16)
    ensures { meaning context.now machine.new
        ≡ at_place (run_of context.now machine.old) (role_mode role context.now.fetched.instr)
        (role_size role context.now.fetched.instr) pc high low
        (placed role context.now.fetched.instr) }
{
    let (mode, size) = operand_of(context, role);
    let place = resolve(&mode, &mut machine.regs, &[high, low], pc, size);
    take_place(context, machine, role, place);
}

/// A word of the program is read; `pc` was its address.
fn take_word(context: &mut Context, machine: &mut Machine, part: Part, pc: u32, word: u16)
    ensures start { context.new.start ≡ context.old.start }
    ensures walk { meaning context.new machine.new
        ≡ fetched part context.old.fetched.instr pc word (run_of context.old machine.old) }
{
    match part {
        Part::Opcode => take_opcode(context, machine, word),
        Part::Own => take_own_word(context, machine, word),
        Part::One { role } => resolve_place(context, machine, role, pc, word, 0),
        Part::High { role } => fetch_word(
            context,
            machine,
            Part::Low {
                role,
                pc,
                high: word,
            },
        ),
        Part::Low { role, pc, high } => resolve_place(context, machine, role, pc, high, word),
    }
}

/// The next word of the program is read: the PC goes beyond it.
fn take_next_word(context: &mut Context, machine: &mut Machine, part: Part, word: u16)
    ensures start { context.new.start ≡ context.old.start }
    ensures walk { meaning context.new machine.new
        ≡ fetched part context.old.fetched.instr machine.old.regs.pc word
        (moved (run_of context.old machine.old)) }
{
    let pc = machine.regs.pc;
    machine.regs.pc = pc.wrapping_add(2);
    take_word(context, machine, part, pc, word);
}

/// The extension words of the source are read: the PC goes beyond the last. The first is at `pc`.
#[inline(never)]
fn take_source_words(context: &Context, machine: &mut Machine, pc: u32, high: u16, low: u16)
    ensures { meaning context.now machine.new
        ≡ at_place (moved (run_of context.now machine.old))
        (role_mode R.Source context.now.fetched.instr)
        (role_size R.Source context.now.fetched.instr) pc high low
        (placed R.Source context.now.fetched.instr) }
{
    machine.regs.pc = machine.regs.pc.wrapping_add(2);
    resolve_place(context, machine, Role::Source, pc, high, low);
}

/// The extension words of the destination are read: the PC goes beyond the last. The first is at `pc`, and
/// the source is `value`.
#[inline(never)]
fn take_dest_words(
    context: &Context,
    machine: &mut Machine,
    value: u32,
    pc: u32,
    high: u16,
    low: u16,
)
    ensures { meaning context.now machine.new
        ≡ at_place (moved (run_of context.now machine.old))
        (role_mode (R.Dest value) context.now.fetched.instr)
        (role_size (R.Dest value) context.now.fetched.instr) pc high low
        (placed (R.Dest value) context.now.fetched.instr) }
{
    machine.regs.pc = machine.regs.pc.wrapping_add(2);
    resolve_place(context, machine, Role::Dest { value }, pc, high, low);
}

/// The first extension word of two is read: the PC goes beyond it.
#[inline(always)]
fn take_high_word(context: &Context, machine: &mut Machine, role: Role, word: u16)
    ensures { meaning context.now machine.new
        ≡ fetched (W.High role) context.now.fetched.instr machine.old.regs.pc word
        (moved (run_of context.now machine.old)) }
{
    let pc = machine.regs.pc;
    machine.regs.pc = pc.wrapping_add(2);
    fetch_word(
        context,
        machine,
        Part::Low {
            role,
            pc,
            high: word,
        },
    );
}

/// The second word of a row is read: the PC goes beyond it.
#[inline(never)]
fn take_next_own_word(context: &Context, machine: &mut Machine, word: u16)
    ensures { meaning context.now machine.new
        ≡ fetched W.Own context.now.fetched.instr machine.old.regs.pc word
        (moved (run_of context.now machine.old)) }
{
    machine.regs.pc = machine.regs.pc.wrapping_add(2);
    take_own_word(context, machine, word);
}

/// The opcode is read: the PC goes beyond it.
#[inline(never)]
fn take_next_opcode(context: &mut Context, machine: &mut Machine, word: u16)
    ensures start { context.new.start ≡ context.old.start }
    ensures walk { meaning context.new machine.new
        ≡ opcode_read word (moved (run_of context.old machine.old)) }
{
    machine.regs.pc = machine.regs.pc.wrapping_add(2);
    take_opcode(context, machine, word);
}

/// The byte of a word that is at an address: the low one where the address is odd.
fn byte_at(at: u32, word: u16) -> u32
    ensures { result ≡ half_at at word }
{
    let byte = if at & 1 == 1 { word & 0xff } else { word >> 8 };
    u32::from(byte)
}

/// A value is read.
fn take_value(context: &Context, machine: &mut Machine, into: Use, value: u32)
    ensures { meaning context.now machine.new
        ≡ valued into context.now.fetched.instr (run_of context.now machine.old) value }
{
    match into {
        Use::Source => take_source_value(context, machine, value),
        Use::Old { value: source, at } => compute_in_memory(context, machine, source, at, value),
        Use::Return => return_to(context, machine, value),
        Use::Status => read_resume_pc(context, machine, value),
        Use::Resume { status } => resume_at(context, machine, status, value),
        Use::Unlink => finish_unlink(context, machine, value),
        Use::Gather {
            at,
            left,
            value: before,
        } => {
            let joined = before.wrapping_mul(0x100).wrapping_add(value);
            gather_bytes(context, machine, at, left, joined);
        }
        Use::Load { at, number, left } => take_register_value(
            context, machine, at, number, left, value,
        ),
        Use::Handler { clocks } => start_handler(context, machine, clocks, value),
        Use::Stack => take_reset_stack(context, machine, value),
        Use::Begin { ssp } => end_reset(context, machine, ssp, value),
    }
}

/// A write is made.
fn continue_after_write(context: &Context, machine: &mut Machine, then: Then)
    ensures { meaning context.now machine.new
        ≡ written then context.now.fetched.instr (run_of context.now machine.old) }
{
    match then {
        Then::End { clocks } => end_instruction(machine, clocks),
        Then::Jump { at } => jump_to(context, machine, at, 0),
        Then::Store { at, left } => store_next_register(context, machine, at, left),
        Then::Scatter { at, left, value } => scatter_bytes(context, machine, at, left, value),
    }
}

/// Goes on with the word of an access; what comes most often is looked for first.
pub fn continue_with_word(context: &mut Context, machine: &mut Machine, word: u16)
    ensures start { context.new.start ≡ context.old.start }
    ensures walk { meaning context.new machine.new ≡ follow (meaning context.old machine.old) word }
{
    match machine.step {
        Step::Fetch { part: Part::Opcode } => take_next_opcode(context, machine, word),
        Step::Fetch {
            part: Part::One { role: Role::Source },
        } => {
            let pc = machine.regs.pc;
            take_source_words(context, machine, pc, word, 0);
        }
        Step::Fetch {
            part: Part::One {
                role: Role::Dest { value },
            },
        } => {
            let pc = machine.regs.pc;
            take_dest_words(context, machine, value, pc, word, 0);
        }
        Step::Fetch {
            part: Part::High { role },
        } => take_high_word(context, machine, role, word),
        Step::Fetch {
            part: Part::Low {
                role: Role::Source,
                pc,
                high,
            },
        } => take_source_words(context, machine, pc, high, word),
        Step::Fetch {
            part: Part::Low {
                role: Role::Dest { value },
                pc,
                high,
            },
        } => take_dest_words(context, machine, value, pc, high, word),
        Step::Fetch { part: Part::Own } => take_next_own_word(context, machine, word),
        _ => continue_after_read(context, machine, word),
    }
}

/// Goes on with the word of an access; the read of a value is looked for first.
#[inline(always)]
fn continue_after_read(context: &mut Context, machine: &mut Machine, word: u16)
    ensures start { context.new.start ≡ context.old.start }
    ensures walk { meaning context.new machine.new ≡ follow (meaning context.old machine.old) word }
{
    match machine.step {
        Step::ReadWord {
            into: Use::Source,
            ..
        } => take_source_value(context, machine, u32::from(word)),
        Step::ReadWord {
            into: Use::Old { value, at },
            ..
        } => compute_in_memory(context, machine, value, at, u32::from(word)),
        Step::ReadLow {
            high,
            into: Use::Source,
            ..
        } => take_source_value(context, machine, long_of(high, word)),
        Step::ReadLow {
            high,
            into: Use::Old { value, at },
            ..
        } => compute_in_memory(context, machine, value, at, long_of(high, word)),
        Step::ReadHigh { at, program, into } => read_low_word(
            context,
            machine,
            program,
            at.wrapping_add(2),
            word,
            into,
        ),
        _ => continue_after_store(context, machine, word),
    }
}

/// Goes on with the word of an access; the write of a result is looked for first.
#[inline(always)]
fn continue_after_store(context: &mut Context, machine: &mut Machine, word: u16)
    ensures start { context.new.start ≡ context.old.start }
    ensures walk { meaning context.new machine.new ≡ follow (meaning context.old machine.old) word }
{
    match machine.step {
        Step::WriteWord {
            then: Then::End { clocks },
            ..
        } => end_instruction(machine, clocks),
        Step::WriteHigh { at, low, then, .. } => write_word(
            context,
            machine,
            at.wrapping_add(2),
            low,
            then,
        ),
        _ => continue_otherwise(context, machine, word),
    }
}

/// Goes on with the word of an access, whatever it was for.
#[inline(never)]
fn continue_otherwise(context: &mut Context, machine: &mut Machine, word: u16)
    ensures start { context.new.start ≡ context.old.start }
    ensures walk { meaning context.new machine.new ≡ follow (meaning context.old machine.old) word }
{
    match machine.step {
        Step::Fetch { part } => take_next_word(context, machine, part, word),
        Step::ReadByte { at, into } => take_value(context, machine, into, byte_at(at, word)),
        Step::ReadWord { into, .. } => take_value(context, machine, into, u32::from(word)),
        Step::ReadHigh { at, program, into } => read_low_word(
            context,
            machine,
            program,
            at.wrapping_add(2),
            word,
            into,
        ),
        Step::ReadLow { high, into, .. } => take_value(context, machine, into, long_of(high, word)),
        Step::WriteByte { then, .. } | Step::WriteWord { then, .. } => continue_after_write(
            context, machine, then,
        ),
        Step::WriteHigh { at, low, then, .. } => write_word(
            context,
            machine,
            at.wrapping_add(2),
            low,
            then,
        ),
        Step::Push {
            at,
            next,
            kind,
            ea,
            ..
        } => push_frame(context, machine, kind, ea, at, next),
        Step::Ended { .. } | Step::Broken { .. } | Step::Halted => {}
    }
}
