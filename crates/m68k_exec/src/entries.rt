//! Reset, and the entries of exceptions.

ghost use Rattle.std.specs.Prelude.{◌≡◌, ◌≤◌, ◌<◌, ◌+◌, ◌-◌, ◌*◌, ◌/◌, ◌%◌, drop};
ghost use Rattle.std.specs.List.{slice_get};
ghost use Rattle.m68k_decode.specs.Run.{write_word};
ghost use Rattle.m68k_decode.specs.Frames.{vector_of, frame_of};
ghost use Rattle.m68k_decode.specs.Entries.{is_instruction, exception_clocks, accesses_before, entry_clocks};
ghost use Rattle.m68k_decode.specs.Entries.{handled, vectored, pushes, entry, reset_done, reset_stack, reset};
ghost use Rattle.m68k_exec.specs.Meaning.{meaning, run_of};

use crate::access::{address_before, raise_address_error, read_value};
use crate::state::{Context, Machine, Step, Use};
use m68k_decode::{CpuRegs, Size, Trap, Under};
use m68k_except::{frame, vector};

/// What an entry is made for, and the clocks of its instruction's operand mode.
#[derive(Clone, Copy)]
struct Entry {
    kind: Trap,
    ea: u8,
}

/// Whether an access of the entry counts as one of an instruction.
#[tactic(auto, unfolding(m68k_decode::specs::Entries::is_instruction))]
pub fn is_instruction(kind: &Trap) -> bool
    ensures { result ≡ is_instruction kind.now }
{
    !matches!(
        *kind,
        Trap::Trace
            | Trap::Interrupt { .. }
            | Trap::Illegal
            | Trap::Privilege
            | Trap::LineA
            | Trap::LineF
    )
}

/// The clocks of an exception.
fn exception_clocks(kind: &Trap, ea: u8) -> u32
    ensures { result ≡ exception_clocks kind.now ea }
{
    match *kind {
        Trap::AddressError { .. } => 50,
        Trap::ZeroDivide => 38 + u32::from(ea),
        Trap::Chk => 40 + u32::from(ea),
        Trap::Interrupt { .. } => 44,
        _ => 34,
    }
}

/// The accesses of the instruction before the entry.
fn accesses_before(kind: &Trap, ea: u8) -> u32
    ensures value { result ≡ accesses_before kind.now ea }
    ensures few { result ≤ 64 }
{
    match *kind {
        Trap::AddressError { .. } | Trap::Trace | Trap::Interrupt { .. } => 0,
        _ => 1 + u32::from(ea) / 4,
    }
}

/// The clocks that an exception's number leaves to its entry.
#[tactic(auto, unfolding(m68k_decode::specs::Entries::entry_clocks))]
fn entry_clocks(kind: &Trap, ea: u8) -> u32
    ensures { result ≡ entry_clocks kind.now ea }
{
    exception_clocks(kind, ea).saturating_sub(4 * accesses_before(kind, ea))
}

/// The vector is read: the handler begins.
#[tactic(auto, unfolding(m68k_decode::specs::Entries::handled))]
pub fn start_handler(context: &Context, machine: &mut Machine, clocks: u32, pc: u32)
    ensures { meaning context.now machine.new ≡ handled clocks pc (run_of context.now machine.old) }
{
    machine.regs.pc = pc;
    machine.step = Step::Ended {
        clocks,
        under: Under::Instruction {
            taking: context.taking,
        },
    };
}

/// The frame is written down to an address.
#[tactic(auto, unfolding(m68k_decode::specs::Entries::vectored))]
fn read_vector(context: &Context, machine: &mut Machine, entry: Entry, at: u32)
    ensures { meaning context.now machine.new
        ≡ vectored entry.kind entry.ea at (run_of context.now machine.old) }
{
    machine.regs.set_address(7, at);
    let clocks = entry_clocks(&entry.kind, entry.ea);
    read_value(
        context,
        machine,
        Size::Long,
        false,
        4 * vector(&entry.kind),
        Use::Handler { clocks },
    );
}

/// A word of a frame by its place, from 0.
#[tactic(auto, using(crate::proofs::Pushing::get_within, crate::proofs::Pushing::get_past))]
fn frame_word(kind: &Trap, regs: &CpuRegs, next: u8) -> Option<u16>
    ensures { result ≡ slice_get (frame_of kind.now regs.now) next }
{
    let words = frame(kind, regs);
    let words = words.as_slice();
    let index = next as usize;
    if index < words.len() {
        Some(words[index])
    } else {
        None
    }
}

/// Asks to write a word of a frame; `next` of its words are written with this one.
#[tactic(auto, unfolding(m68k_decode::specs::Run::write_word))]
fn write_frame_word(
    context: &Context,
    machine: &mut Machine,
    entry: Entry,
    at: u32,
    word: u16,
    next: u8,
)
    ensures { meaning context.now machine.new
        ≡ write_word (run_of context.now machine.old) at word
        (pushes entry.kind entry.ea at (drop next (frame_of entry.kind context.now.start))
        (run_of context.now machine.old)) }
{
    if at & 1 == 1 {
        raise_address_error(context, machine, at, false, false);
        return;
    }
    machine.step = Step::Push {
        at,
        word,
        next,
        kind: entry.kind,
        ea: entry.ea,
    };
}

/// Goes on with the frame, of which `next` words are written.
#[tactic(auto, using(crate::proofs::Pushing::pushes_word, crate::proofs::Pushing::pushes_end, crate::proofs::Pushing::within_frame))]
pub fn push_frame(context: &Context, machine: &mut Machine, kind: Trap, ea: u8, at: u32, next: u8)
    ensures { meaning context.now machine.new
        ≡ pushes kind ea at (drop next (frame_of kind context.now.start))
        (run_of context.now machine.old) }
{
    let entry = Entry { kind, ea };
    let Some(word) = frame_word(&entry.kind, &context.start, next) else {
        read_vector(context, machine, entry, at);
        return;
    };
    let at = address_before(Size::Word, at);
    write_frame_word(context, machine, entry, at, word, next + 1);
}

/// An entry begins; the registers have its status register.
#[tactic(auto, unfolding(m68k_decode::specs::Entries::entry))]
pub fn start_exception(context: &Context, machine: &mut Machine, kind: Trap, ea: u8)
    ensures { meaning context.now machine.new ≡ entry kind ea (run_of context.now machine.old) }
{
    let at = machine.regs.address(7);
    push_frame(context, machine, kind, ea, at, 0);
}

/// The stack pointer and the PC of the reset are read.
#[tactic(auto, unfolding(m68k_decode::specs::Entries::reset_done))]
pub fn end_reset(context: &Context, machine: &mut Machine, ssp: u32, pc: u32)
    ensures { meaning context.now machine.new ≡ reset_done ssp pc (run_of context.now machine.old) }
{
    machine.regs.ssp = ssp;
    machine.regs.pc = pc;
    machine.regs.sr = 0x2700;
    machine.step = Step::Ended {
        clocks: 40,
        under: Under::Instruction { taking: false },
    };
}

/// The stack pointer of the reset is read.
#[tactic(auto, unfolding(m68k_decode::specs::Entries::reset_stack))]
pub fn take_reset_stack(context: &Context, machine: &mut Machine, ssp: u32)
    ensures { meaning context.now machine.new ≡ reset_stack ssp (run_of context.now machine.old) }
{
    read_value(context, machine, Size::Long, false, 4, Use::Begin { ssp });
}

/// The reset.
#[tactic(auto, unfolding(m68k_decode::specs::Entries::reset))]
pub fn start_reset(context: &Context, machine: &mut Machine)
    ensures { meaning context.now machine.new ≡ reset (run_of context.now machine.old) }
{
    read_value(context, machine, Size::Long, false, 0, Use::Stack);
}
