//! The rows that take an address, use the stack, branch, or change the processor's state by themselves.

ghost use Rattle.std.specs.Prelude.{◌≡◌, ◌≤◌, ◌+◌, ◌*◌, ◌/◌, ◌%◌, false};
ghost use Rattle.m68k_opcodes.specs.declared.operand.Size.TheVariants as S;
ghost use Rattle.m68k_decode.specs.Registers.{word32, extended_word, extended_byte, data_of, address_of};
ghost use Rattle.m68k_decode.specs.Access.{Prog, Enter};
ghost use Rattle.m68k_decode.specs.Run.{Run, at_place, place, read, with_regs, with_stack, stack_of, jumped, finish};
ghost use Rattle.m68k_decode.specs.Flow.{lowered_stack, lowered, written_on_stack, call, addressed_at, addressed, control_mode, control};
ghost use Rattle.m68k_decode.specs.Flow.{branch_target, branched, counted_down, counted, linked, link, unlinked, unlink, raised, returned};
ghost use Rattle.m68k_decode.specs.Flow.{resumed, resuming, resume, stop, own, own_word, system, returning, usp_moved, exchanged, branch};
ghost use Rattle.m68k_decode.specs.declared.under.Under.TheVariants as U;
ghost use Rattle.m68k_decode.specs.Status.{condition, flags_of};
ghost use Rattle.m68k_exec.specs.declared.state.Context.{Context};
ghost use Rattle.m68k_exec.specs.declared.state.Machine.{Machine};
ghost use Rattle.m68k_exec.specs.Meaning.{meaning, run_of, written};

use crate::access::{
    address_after, address_before, fetch_extension, fetch_word, finish_row, merged_value,
    read_value, write_value,
};
use crate::lists::{start_byte_moves, start_list};
use crate::state::{Context, Machine, Part, Role, Step, Then, Use};
use m68k_decode::{CpuRegs, Instr, Mode, Place68, Size, Trap, Under, extended_byte};
use m68k_ea::{extended_word, extension_words, resolve};
use m68k_results::{condition, flags_of, kept_status, with_code};

/// Makes room for a long on the stack.
fn lower_stack(regs: &mut CpuRegs)
    ensures { regs.new ≡ lowered_stack regs.old }
{
    let at = address_before(Size::Long, regs.address(7));
    regs.set_address(7, at);
}

/// Puts a long where the stack pointer points.
fn write_on_stack(context: &Context, machine: &mut Machine, value: u32, then: Then)
    ensures { meaning context.now machine.new
        ≡ written_on_stack (run_of context.now machine.old) value
        (written then context.now.fetched.instr (run_of context.now machine.old)) }
{
    let top = machine.regs.address(7);
    write_value(context, machine, Size::Long, top, value, then);
}

/// Puts the PC on the stack and goes on at an address.
#[tactic(auto, unfolding(m68k_decode::specs::Flow::call))]
fn call_subroutine(context: &Context, machine: &mut Machine, at: u32)
    ensures { meaning context.now machine.new ≡ call at (run_of context.now machine.old) }
{
    let pc = machine.regs.pc;
    lower_stack(&mut machine.regs);
    write_on_stack(context, machine, pc, Then::Jump { at });
}

/// Goes on at an address, and ends.
pub fn jump_to(context: &Context, machine: &mut Machine, at: u32, extra: u32)
    requires { extra ≤ 63 }
    ensures { meaning context.now machine.new
        ≡ finish extra (jumped at (run_of context.now machine.old)) }
{
    machine.regs.pc = at;
    finish_row(context, machine, extra);
}

/// Puts an address on the stack, and ends.
#[tactic(auto, unfolding(m68k_decode::specs::Run::finish))]
fn push_address(context: &Context, machine: &mut Machine, at: u32)
    ensures { meaning context.now machine.new
        ≡ written_on_stack (lowered (run_of context.now machine.old)) at
        (finish 0 (lowered (run_of context.now machine.old))) }
{
    lower_stack(&mut machine.regs);
    let clocks = context.fetched.row_clocks(0);
    write_on_stack(context, machine, at, Then::End { clocks });
}

/// The address of JSR, JMP, LEA and PEA is known.
#[tactic(auto, unfolding(m68k_decode::specs::Flow::addressed_at))]
fn take_address(context: &Context, machine: &mut Machine, at: u32)
    ensures { meaning context.now machine.new
        ≡ addressed_at context.now.fetched.instr at (run_of context.now machine.old) }
{
    match context.fetched.instr {
        Instr::JsrJmp { which: 0, .. } => call_subroutine(context, machine, at),
        Instr::JsrJmp { .. } => jump_to(context, machine, at, 0),
        Instr::Lea { r, .. } => {
            machine.regs.set_address(r, at);
            finish_row(context, machine, 0);
        }
        Instr::Pea { .. } => push_address(context, machine, at),
        _ => finish_row(context, machine, 0),
    }
}

/// The place of JSR, JMP, LEA and PEA is known.
#[tactic(auto, unfolding(m68k_decode::specs::Flow::addressed))]
pub fn take_control_place(context: &Context, machine: &mut Machine, place: Place68)
    ensures { meaning context.now machine.new
        ≡ addressed context.now.fetched.instr place (run_of context.now machine.old) }
{
    match place {
        Place68::Memory { at } => take_address(context, machine, at),
        _ => finish_row(context, machine, 0),
    }
}

/// The mode of JSR, JMP, LEA and PEA.
#[tactic(auto, unfolding(m68k_decode::specs::Flow::control_mode))]
pub fn control_mode(instr: &Instr) -> Mode
    ensures { result ≡ control_mode instr.now }
{
    match *instr {
        Instr::JsrJmp { mode, .. } | Instr::Lea { mode, .. } | Instr::Pea { mode } => mode,
        _ => Mode::Imm,
    }
}

/// JSR, JMP, LEA and PEA, after the opcode.
#[tactic(auto, unfolding(m68k_decode::specs::Flow::control, m68k_decode::specs::Run::place, m68k_decode::specs::Run::at_place))]
pub fn start_control(context: &Context, machine: &mut Machine)
    ensures { meaning context.now machine.new
        ≡ control context.now.fetched.instr (run_of context.now machine.old) }
{
    let mode = control_mode(&context.fetched.instr);
    match extension_words(&mode, Size::Long) {
        0 => {
            let pc = machine.regs.pc;
            let place = resolve(&mode, &mut machine.regs, &[0, 0], pc, Size::Long);
            take_control_place(context, machine, place);
        }
        words => fetch_extension(context, machine, words, Role::Control),
    }
}

/// Where a branch goes: it counts from the opcode's address + 2.
fn branch_target(opcode_address: u32, displacement: u32) -> u32
    ensures { result ≡ branch_target opcode_address displacement }
{
    opcode_address.wrapping_add(2).wrapping_add(displacement)
}

/// The displacement of a branch is known.
#[tactic(auto, unfolding(m68k_decode::specs::Flow::branched))]
fn decide_branch(
    context: &Context,
    machine: &mut Machine,
    which: u8,
    c: u8,
    displacement: u32,
    miss: u32,
)
    requires { miss ≤ 63 }
    ensures { meaning context.now machine.new
        ≡ branched which c displacement miss (run_of context.now machine.old) }
{
    let target = branch_target(context.start.pc, displacement);
    if which == 1 {
        call_subroutine(context, machine, target);
    } else if condition(c, flags_of(machine.regs.sr)) {
        jump_to(context, machine, target, 0);
    } else {
        finish_row(context, machine, miss);
    }
}

/// Lowers the low word of a data register by 1.
fn count_down(regs: &mut CpuRegs, r: u8)
    ensures { regs.new ≡ counted_down r regs.old }
{
    let counter = regs.data(r);
    let lowered = merged_value(Size::Word, counter, counter % 0x1_0000 + 0xffff);
    regs.set_data(r, lowered);
}

/// Whether the condition of DBcc holds; that of DBRA, which never does, is looked for first.
#[inline(always)]
#[tactic(auto, unfolding(m68k_decode::specs::Status::condition))]
fn stops_loop(c: u8, sr: u16) -> bool
    ensures { result ≡ condition c (flags_of sr) }
{
    if c == 1 {
        return false;
    }
    condition(c, flags_of(sr))
}

/// The displacement of DBcc is known.
#[tactic(auto, unfolding(m68k_decode::specs::Flow::counted))]
fn decrement_and_branch(context: &Context, machine: &mut Machine, c: u8, r: u8, displacement: u16)
    ensures { meaning context.now machine.new
        ≡ counted c r displacement (run_of context.now machine.old) }
{
    if stops_loop(c, machine.regs.sr) {
        finish_row(context, machine, 0);
        return;
    }
    let ends = machine.regs.data(r) % 0x1_0000 == 0;
    count_down(&mut machine.regs, r);
    if ends {
        finish_row(context, machine, 2);
    } else {
        let target = branch_target(context.start.pc, extended_word(displacement));
        jump_to(context, machine, target, 1);
    }
}

/// Points a register to the top of the stack, and makes room there.
fn allocate_frame(regs: &mut CpuRegs, r: u8, displacement: u16)
    ensures { regs.new ≡ linked r displacement regs.old }
{
    let top = regs.address(7);
    regs.set_address(r, top);
    let stack = regs.address(7);
    regs.set_address(7, stack.wrapping_add(extended_word(displacement)));
}

/// The displacement of LINK is known.
#[tactic(auto, unfolding(m68k_decode::specs::Flow::link, m68k_decode::specs::Run::finish))]
fn link_frame(context: &Context, machine: &mut Machine, r: u8, displacement: u16)
    ensures { meaning context.now machine.new ≡ link r displacement (run_of context.now machine.old) }
{
    lower_stack(&mut machine.regs);
    let value = machine.regs.address(r);
    let top = machine.regs.address(7);
    allocate_frame(&mut machine.regs, r, displacement);
    let clocks = context.fetched.row_clocks(0);
    write_value(
        context,
        machine,
        Size::Long,
        top,
        value,
        Then::End { clocks },
    );
}

/// The long where UNLK's register points is read.
#[tactic(auto, unfolding(m68k_decode::specs::Flow::unlinked))]
pub fn finish_unlink(context: &Context, machine: &mut Machine, value: u32)
    ensures { meaning context.now machine.new
        ≡ unlinked context.now.fetched.instr value (run_of context.now machine.old) }
{
    if let Instr::LinkUnlk { r, .. } = context.fetched.instr {
        let stack = address_after(Size::Long, machine.regs.address(r));
        machine.regs.set_address(7, stack);
        machine.regs.set_address(r, value);
    }
    finish_row(context, machine, 0);
}

/// UNLK, after the opcode.
#[tactic(auto, unfolding(m68k_decode::specs::Flow::unlink))]
pub fn start_unlink(context: &Context, machine: &mut Machine, r: u8)
    ensures { meaning context.now machine.new
        ≡ unlink context.now.fetched.instr r (run_of context.now machine.old) }
{
    let at = machine.regs.address(r);
    read_value(context, machine, Size::Long, false, at, Use::Unlink);
}

/// Takes so many bytes from the stack.
fn raise_stack(regs: &mut CpuRegs, bytes: u32)
    ensures { regs.new ≡ raised bytes regs.old }
{
    let at = regs.address(7).wrapping_add(bytes);
    regs.set_address(7, at);
}

/// The PC of RTS is read.
#[tactic(auto, unfolding(m68k_decode::specs::Flow::returned))]
pub fn return_to(context: &Context, machine: &mut Machine, pc: u32)
    ensures { meaning context.now machine.new ≡ returned pc (run_of context.now machine.old) }
{
    raise_stack(&mut machine.regs, 4);
    jump_to(context, machine, pc, 0);
}

/// The PC of RTE and RTR is read.
#[tactic(auto, unfolding(m68k_decode::specs::Flow::resumed))]
pub fn resume_at(context: &Context, machine: &mut Machine, word: u16, pc: u32)
    ensures { meaning context.now machine.new
        ≡ resumed context.now.fetched.instr word pc (run_of context.now machine.old) }
{
    let sr = match context.fetched.instr {
        Instr::ResetNopStopRte { .. } => kept_status(word),
        _ => with_code(machine.regs.sr, word),
    };
    raise_stack(&mut machine.regs, 6);
    machine.regs.sr = sr;
    jump_to(context, machine, pc, 0);
}

/// The word for SR or CCR is read.
#[tactic(auto, unfolding(m68k_decode::specs::Flow::resuming))]
pub fn read_resume_pc(context: &Context, machine: &mut Machine, word: u32)
    ensures { meaning context.now machine.new
        ≡ resuming context.now.fetched.instr word (run_of context.now machine.old) }
{
    let status = (word % 0x1_0000) as u16;
    let at = address_after(Size::Word, machine.regs.address(7));
    read_value(
        context,
        machine,
        Size::Long,
        false,
        at,
        Use::Resume { status },
    );
}

/// RTE and RTR, after the opcode.
#[tactic(auto, unfolding(m68k_decode::specs::Flow::resume))]
fn read_resume_status(context: &Context, machine: &mut Machine)
    ensures { meaning context.now machine.new
        ≡ resume context.now.fetched.instr (run_of context.now machine.old) }
{
    let at = machine.regs.address(7);
    read_value(context, machine, Size::Word, false, at, Use::Status);
}

/// The word of STOP is known.
#[tactic(auto, unfolding(m68k_decode::specs::Flow::stop))]
fn stop_processor(context: &Context, machine: &mut Machine, word: u16)
    ensures { meaning context.now machine.new ≡ stop word (run_of context.now machine.old) }
{
    machine.regs.sr = kept_status(word);
    machine.step = Step::Ended {
        clocks: context.fetched.row_clocks(0),
        under: Under::Stopped,
    };
}

/// The word of a row that has one behind its opcode is known.
#[tactic(auto, unfolding(m68k_decode::specs::Flow::own))]
pub fn take_own_word(context: &Context, machine: &mut Machine, word: u16)
    ensures { meaning context.now machine.new
        ≡ own context.now.fetched.instr word (run_of context.now machine.old) }
{
    match context.fetched.instr {
        Instr::Movep { .. } => start_byte_moves(context, machine, word),
        Instr::MovemToMemory { .. } | Instr::MovemToRegisters { .. } => start_list(
            context, machine, word,
        ),
        Instr::LinkUnlk { r, .. } => link_frame(context, machine, r, word),
        Instr::ResetNopStopRte { .. } => stop_processor(context, machine, word),
        Instr::Dbcc { c, r } => decrement_and_branch(context, machine, c, r, word),
        Instr::Branch { which, c, .. } => decide_branch(
            context,
            machine,
            which,
            c,
            extended_word(word),
            2,
        ),
        _ => finish_row(context, machine, 0),
    }
}

/// Asks for that word.
#[tactic(auto, unfolding(m68k_decode::specs::Flow::own_word))]
pub fn fetch_own_word(context: &Context, machine: &mut Machine)
    ensures { meaning context.now machine.new
        ≡ own_word context.now.fetched.instr (run_of context.now machine.old) }
{
    fetch_word(context, machine, Part::Own);
}

/// RESET, NOP, STOP and RTE.
#[tactic(auto, unfolding(m68k_decode::specs::Flow::system))]
pub fn start_system_control(context: &Context, machine: &mut Machine, which: u8)
    ensures { meaning context.now machine.new
        ≡ system context.now.fetched.instr which (run_of context.now machine.old) }
{
    match which {
        2 => fetch_own_word(context, machine),
        3 => read_resume_status(context, machine),
        _ => finish_row(context, machine, 0),
    }
}

/// RTS, TRAPV and RTR.
#[tactic(auto, unfolding(m68k_decode::specs::Flow::returning))]
pub fn start_return(context: &Context, machine: &mut Machine, which: u8)
    ensures { meaning context.now machine.new
        ≡ returning context.now.fetched.instr which (run_of context.now machine.old) }
{
    if which == 0 {
        let at = machine.regs.address(7);
        read_value(context, machine, Size::Long, false, at, Use::Return);
    } else if which == 2 {
        read_resume_status(context, machine);
    } else if flags_of(machine.regs.sr).v {
        raise_exception(machine, Trap::Trapv);
    } else {
        finish_row(context, machine, 0);
    }
}

/// An exception follows the instruction's last access.
pub fn raise_exception(machine: &mut Machine, kind: Trap)
    ensures { (c : Context) → meaning c machine.new ≡ Enter machine.old.regs (U.Entry kind 0 false) }
{
    machine.step = Step::Broken {
        under: Under::Entry {
            kind,
            ea: 0,
            taking: false,
        },
    };
}

/// MOVE USP.
#[tactic(auto, unfolding(m68k_decode::specs::Flow::usp_moved))]
pub fn move_usp(regs: &mut CpuRegs, d: u8, r: u8)
    ensures { regs.new ≡ usp_moved d r regs.old }
{
    if d == 0 {
        regs.usp = regs.address(r);
    } else {
        let usp = regs.usp;
        regs.set_address(r, usp);
    }
}

/// EXG.
#[tactic(auto, unfolding(m68k_decode::specs::Flow::exchanged))]
pub fn exchange_registers(regs: &mut CpuRegs, x: u8, o: u8, y: u8)
    ensures { regs.new ≡ exchanged x o y regs.old }
{
    let (first, second) = match o {
        8 => (regs.data(x), regs.data(y)),
        9 => (regs.address(x), regs.address(y)),
        _ => (regs.data(x), regs.address(y)),
    };
    match o {
        9 => regs.set_address(x, second),
        _ => regs.set_data(x, second),
    }
    match o {
        8 => regs.set_data(y, first),
        _ => regs.set_address(y, first),
    }
}

/// A branch, after the opcode.
#[tactic(auto, unfolding(m68k_decode::specs::Flow::branch))]
pub fn start_branch(context: &Context, machine: &mut Machine, which: u8, c: u8, d8: u8)
    ensures { meaning context.now machine.new
        ≡ branch context.now.fetched.instr which c d8 (run_of context.now machine.old) }
{
    if d8 == 0 {
        fetch_own_word(context, machine);
    } else {
        decide_branch(context, machine, which, c, extended_byte(d8), 1);
    }
}
