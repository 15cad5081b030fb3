//! MOVEM and MOVEP.

ghost use Rattle.std.specs.Prelude.{◌≡◌, ◌≤◌, ◌<◌, ◌+◌, ◌*◌, ◌/◌};
ghost use Rattle.m68k_decode.specs.Registers.{word32, extended_word, data_of, address_of};
ghost use Rattle.m68k_decode.specs.Run.{place, with_regs};
ghost use Rattle.m68k_decode.specs.RowWords.{extended};
ghost use Rattle.m68k_decode.specs.Lists.{list_mode, list_size, is_downward, unstepped, numbers, register_of, with_register, stored_number, stored_at};
ghost use Rattle.m68k_decode.specs.Lists.{stored_next, list_end, list_ended, stores, loads, listing, several, scatter, gathered, gather, bytes_moved, spread};
ghost use Rattle.m68k_exec.specs.Meaning.{meaning, run_of, numbers_left, taken};

use crate::access::{
    address_after, address_before, fetch_extension, finish_row, merged_value, read_value,
    write_value,
};
use crate::state::{Context, Left, Machine, Role, Then, Use};
use m68k_decode::{CpuRegs, Instr, Mode, Place68, Size};
use m68k_ea::{extended_word, extension_words, resolve};
use m68k_results::{extended_value, is_program, ones};

/// The mode that MOVEM names.
#[tactic(auto, unfolding(m68k_decode::specs::Lists::list_mode))]
pub fn list_mode(instr: &Instr) -> Mode
    ensures { result ≡ list_mode instr.now }
{
    match *instr {
        Instr::MovemToMemory { mode, .. } | Instr::MovemToRegisters { mode, .. } => mode,
        _ => Mode::Imm,
    }
}

/// The size of MOVEM.
#[tactic(auto, unfolding(m68k_decode::specs::Lists::list_size))]
pub fn list_size(instr: &Instr) -> Size
    ensures { result ≡ list_size instr.now }
{
    match *instr {
        Instr::MovemToMemory { size, .. } | Instr::MovemToRegisters { size, .. } => size,
        _ => Size::Long,
    }
}

/// Whether MOVEM stores downwards.
#[tactic(auto, unfolding(m68k_decode::specs::Lists::is_downward))]
fn is_downward(mode: Mode) -> bool
    ensures { result ≡ is_downward mode }
{
    matches!(mode, Mode::Pre { .. })
}

/// The mode that gives the first address.
#[tactic(auto, unfolding(m68k_decode::specs::Lists::unstepped))]
pub fn without_step(mode: Mode) -> Mode
    ensures { result ≡ unstepped mode }
{
    match mode {
        Mode::Post { reg } | Mode::Pre { reg } => Mode::Ind { reg },
        _ => mode,
    }
}

/// A register by its number among the sixteen.
#[tactic(auto, unfolding(m68k_decode::specs::Lists::register_of))]
fn register(regs: &CpuRegs, number: u8) -> u32
    ensures { result ≡ register_of regs.now number }
{
    if number < 8 {
        regs.data(number)
    } else {
        regs.address(number)
    }
}

/// Writes a register by its number among the sixteen.
#[tactic(auto, unfolding(m68k_decode::specs::Lists::with_register))]
fn set_register(regs: &mut CpuRegs, number: u8, value: u32)
    ensures { regs.new ≡ with_register regs.old number value }
{
    if number < 8 {
        regs.set_data(number, value);
    } else {
        regs.set_address(number, value);
    }
}

/// The register of a mask's bit.
#[tactic(auto, unfolding(m68k_decode::specs::Lists::stored_number))]
fn stored_number(mode: Mode, number: u8) -> u8
    ensures { result ≡ stored_number mode number }
{
    if is_downward(mode) {
        15u8.saturating_sub(number)
    } else {
        number
    }
}

/// Where the next register is stored.
#[tactic(auto, unfolding(m68k_decode::specs::Lists::stored_at))]
fn stored_at(mode: Mode, size: Size, at: u32) -> u32
    ensures { result ≡ stored_at mode size at }
{
    if is_downward(mode) {
        address_before(size, at)
    } else {
        at
    }
}

/// The address after that.
#[tactic(auto, unfolding(m68k_decode::specs::Lists::stored_next))]
fn stored_next(mode: Mode, size: Size, at: u32) -> u32
    ensures { result ≡ stored_next mode size at }
{
    if is_downward(mode) {
        address_before(size, at)
    } else {
        address_after(size, at)
    }
}

/// The registers of a mask.
fn left_of(mask: u16) -> Left
    ensures mask { result.mask ≡ mask }
    ensures numbers { numbers_left result ≡ numbers 16 mask }
{
    Left {
        mask,
        rest: mask,
        bits: 16,
    }
}

/// Takes the next register out of a list.
fn take_number(left: &mut Left) -> Option<u8>
    ensures mask { left.new.mask ≡ left.old.mask }
    ensures numbers { numbers_left left.old ≡ taken result (numbers_left left.new) }
{
    while left.bits > 0 {
        let lowest = left.rest % 2;
        left.rest /= 2;
        left.bits -= 1;
        if lowest == 1 {
            return Some(15u8.saturating_sub(left.bits));
        }
    }
    None
}

/// The end of MOVEM.
#[tactic(auto, unfolding(m68k_decode::specs::Lists::list_ended, m68k_decode::specs::Lists::list_end))]
fn end_list(context: &Context, machine: &mut Machine, mask: u16, at: u32)
    ensures { meaning context.now machine.new
        ≡ list_ended context.now.fetched.instr mask at (run_of context.now machine.old) }
{
    if let Mode::Post { reg } | Mode::Pre { reg } = list_mode(&context.fetched.instr) {
        machine.regs.set_address(reg, at);
    }
    finish_row(context, machine, ones(u32::from(mask)));
}

/// Stores the next register.
#[tactic(auto, unfolding(m68k_decode::specs::Lists::stores))]
pub fn store_next_register(context: &Context, machine: &mut Machine, at: u32, left: Left)
    ensures { meaning context.now machine.new
        ≡ stores context.now.fetched.instr left.mask at (numbers_left left)
        (run_of context.now machine.old) }
{
    let mut left = left;
    let Some(number) = take_number(&mut left) else {
        end_list(context, machine, left.mask, at);
        return;
    };
    let mode = list_mode(&context.fetched.instr);
    let size = list_size(&context.fetched.instr);
    let value = register(&machine.regs, stored_number(mode, number));
    let then = Then::Store {
        at: stored_next(mode, size, at),
        left,
    };
    write_value(
        context,
        machine,
        size,
        stored_at(mode, size, at),
        value,
        then,
    );
}

/// Loads the next register.
#[tactic(auto, unfolding(m68k_decode::specs::Lists::loads))]
fn load_next_register(context: &Context, machine: &mut Machine, at: u32, left: Left)
    ensures { meaning context.now machine.new
        ≡ loads context.now.fetched.instr left.mask at (numbers_left left)
        (run_of context.now machine.old) }
{
    let mut left = left;
    let Some(number) = take_number(&mut left) else {
        end_list(context, machine, left.mask, at);
        return;
    };
    let mode = list_mode(&context.fetched.instr);
    let size = list_size(&context.fetched.instr);
    let into = Use::Load {
        at: address_after(size, at),
        number,
        left,
    };
    read_value(context, machine, size, is_program(mode), at, into);
}

/// A register of MOVEM has been read.
pub fn take_register_value(
    context: &Context,
    machine: &mut Machine,
    at: u32,
    number: u8,
    left: Left,
    value: u32,
)
    ensures { meaning context.now machine.new
        ≡ loads context.now.fetched.instr left.mask at (numbers_left left)
        (with_regs (run_of context.now machine.old) (with_register machine.old.regs number
        (extended (list_size context.now.fetched.instr) value))) }
{
    let size = list_size(&context.fetched.instr);
    set_register(&mut machine.regs, number, extended_value(size, value));
    load_next_register(context, machine, at, left);
}

/// The first address is known.
#[tactic(auto, unfolding(m68k_decode::specs::Lists::listing))]
pub fn take_list_place(context: &Context, machine: &mut Machine, mask: u16, place: Place68)
    ensures { meaning context.now machine.new
        ≡ listing context.now.fetched.instr mask place (run_of context.now machine.old) }
{
    match (context.fetched.instr, place) {
        (Instr::MovemToMemory { .. }, Place68::Memory { at }) => store_next_register(
            context,
            machine,
            at,
            left_of(mask),
        ),
        (_, Place68::Memory { at }) => load_next_register(context, machine, at, left_of(mask)),
        _ => finish_row(context, machine, 0),
    }
}

/// The mask of MOVEM is known.
#[tactic(auto, unfolding(m68k_decode::specs::Lists::several, m68k_decode::specs::Run::place, m68k_decode::specs::Run::at_place))]
pub fn start_list(context: &Context, machine: &mut Machine, mask: u16)
    ensures { meaning context.now machine.new
        ≡ several context.now.fetched.instr mask (run_of context.now machine.old) }
{
    let mode = without_step(list_mode(&context.fetched.instr));
    let size = list_size(&context.fetched.instr);
    match extension_words(&mode, size) {
        0 => {
            let pc = machine.regs.pc;
            let place = resolve(&mode, &mut machine.regs, &[0, 0], pc, size);
            take_list_place(context, machine, mask, place);
        }
        words => fetch_extension(context, machine, words, Role::List { mask }),
    }
}

/// Writes the next of MOVEP's bytes, the top one of a number.
#[tactic(auto, using(crate::proofs::ListSteps::scatter_none, crate::proofs::ListSteps::scatter_step))]
pub fn scatter_bytes(context: &Context, machine: &mut Machine, at: u32, left: u8, value: u32)
    ensures { meaning context.now machine.new
        ≡ scatter left at value (run_of context.now machine.old) }
{
    if left == 0 {
        finish_row(context, machine, 0);
        return;
    }
    let then = Then::Scatter {
        at: at.wrapping_add(2),
        left: left - 1,
        value: value.wrapping_mul(0x100),
    };
    write_value(context, machine, Size::Byte, at, value >> 24, then);
}

/// The bytes for MOVEP's register have been read.
#[tactic(auto, unfolding(m68k_decode::specs::Lists::gathered))]
fn finish_gather(context: &Context, machine: &mut Machine, value: u32)
    ensures { meaning context.now machine.new
        ≡ gathered context.now.fetched.instr value (run_of context.now machine.old) }
{
    if let Instr::Movep { r, o, .. } = context.fetched.instr {
        let size = if o == 0 { Size::Word } else { Size::Long };
        let whole = merged_value(size, machine.regs.data(r), value);
        machine.regs.set_data(r, whole);
    }
    finish_row(context, machine, 0);
}

/// Reads the next of MOVEP's bytes.
#[tactic(auto, using(crate::proofs::ListSteps::gather_none, crate::proofs::ListSteps::gather_step))]
pub fn gather_bytes(context: &Context, machine: &mut Machine, at: u32, left: u8, value: u32)
    ensures { meaning context.now machine.new
        ≡ gather context.now.fetched.instr left at value (run_of context.now machine.old) }
{
    if left == 0 {
        finish_gather(context, machine, value);
        return;
    }
    let into = Use::Gather {
        at: at.wrapping_add(2),
        left: left - 1,
        value,
    };
    read_value(context, machine, Size::Byte, false, at, into);
}

/// The first address of MOVEP is known.
fn move_bytes(context: &Context, machine: &mut Machine, r: u8, o: u8, at: u32)
    ensures { meaning context.now machine.new
        ≡ bytes_moved context.now.fetched.instr r o at (run_of context.now machine.old) }
{
    let value = machine.regs.data(r);
    match o {
        0 => gather_bytes(context, machine, at, 2, 0),
        1 => gather_bytes(context, machine, at, 4, 0),
        2 => scatter_bytes(context, machine, at, 2, value.wrapping_mul(0x1_0000)),
        _ => scatter_bytes(context, machine, at, 4, value),
    }
}

/// The displacement of MOVEP is known.
#[tactic(auto, unfolding(m68k_decode::specs::Lists::spread))]
pub fn start_byte_moves(context: &Context, machine: &mut Machine, displacement: u16)
    ensures { meaning context.now machine.new
        ≡ spread context.now.fetched.instr displacement (run_of context.now machine.old) }
{
    let Instr::Movep { r, o, a } = context.fetched.instr else {
        finish_row(context, machine, 0);
        return;
    };
    let at = machine
        .regs
        .address(a)
        .wrapping_add(extended_word(displacement));
    move_bytes(context, machine, r, o, at);
}
