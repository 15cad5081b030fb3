//! The rows with a source, a destination and a result.

ghost use Rattle.std.specs.Prelude.{◌≡◌, ◌≤◌, true, false};
ghost use Rattle.m68k_decode.specs.Run.{load, place, store};
ghost use Rattle.m68k_decode.specs.RowData.{dest_size, source_size, source_mode, result_of, status_after};
ghost use Rattle.m68k_decode.specs.General.{completed, compute, with_dest, dest, with_source, general};
ghost use Rattle.m68k_decode.specs.declared.place.Place68.TheVariants as P;
ghost use Rattle.m68k_exec.specs.Meaning.{meaning, run_of};
ghost use Rattle.m68k_results.specs.Plain.{is_plain};

use crate::access::{
    end_instruction, fetch_extension, held_value, merged_value, read_value, store_result,
    write_value,
};
use crate::state::{Context, Machine, Role, Step, Then, Use};
use m68k_alu::low_part;
use m68k_decode::{Dest, Mode, Place68, Source, Trap, Under};
use m68k_ea::{extension_words, resolve};
use m68k_results::{
    is_program, operand_trap, operation, plain_operation, source_mode, status_after, trap_ea,
    with_flags,
};

/// The result is known: it is stored, or an exception begins.
#[tactic(auto, unfolding(m68k_decode::specs::General::completed, m68k_decode::specs::Run::store))]
fn finish_operation(
    context: &Context,
    machine: &mut Machine,
    trap: Option<Trap>,
    place: Place68,
    value: u32,
    clocks: u32,
)
    ensures { meaning context.now machine.new
        ≡ completed trap context.now.fetched.instr place value clocks
        (run_of context.now machine.old) }
{
    let row = &context.fetched.row;
    if let Some(kind) = trap {
        machine.step = Step::Broken {
            under: Under::Entry {
                kind,
                ea: trap_ea(row.traps, source_mode(row.source)),
                taking: false,
            },
        };
        return;
    }
    if row.writes {
        store_result(context, machine, row.size, place, value, clocks);
    } else {
        end_instruction(machine, clocks);
    }
}

/// Does the operation of a plain row: the result is the answer, and the flags are set.
#[inline(never)]
#[tactic(auto, using(crate::proofs::PlainResults::plain_op, crate::proofs::PlainResults::plain_status))]
fn perform_plain(context: &Context, machine: &mut Machine, value: u32, old: u32) -> u32
    requires { is_plain context.now.fetched.row ≡ true }
    ensures value { result ≡ (result_of context.now.fetched.instr value old machine.old.regs.sr).value }
    ensures regs { machine.new.regs ≡ record machine.old.regs {
      sr = status_after context.now.fetched.instr value
          (result_of context.now.fetched.instr value old machine.old.regs.sr).flags
          machine.old.regs.sr;
    } }
{
    let sr = machine.regs.sr;
    let outcome = plain_operation(&context.fetched.row, value, old, sr);
    machine.regs.sr = with_flags(sr, outcome.flags);
    outcome.value
}

/// Source and old value are known.
#[tactic(auto, unfolding(m68k_decode::specs::General::compute))]
fn compute_result(context: &Context, machine: &mut Machine, value: u32, place: Place68, old: u32)
    ensures { meaning context.now machine.new
        ≡ compute context.now.fetched.instr value place old (run_of context.now machine.old) }
{
    let row = &context.fetched.row;
    let sr = machine.regs.sr;
    let outcome = operation(row, value, old, sr);
    let clocks = context.fetched.counted_clocks(value, sr);
    machine.regs.sr = status_after(row.op, value, outcome.flags, sr);
    finish_operation(
        context,
        machine,
        operand_trap(row.traps, value, old),
        place,
        outcome.value,
        clocks,
    );
}

/// Source and old value are known, and the destination is in memory.
#[inline(never)]
#[tactic(auto, using(crate::proofs::PlainResults::plain_count, crate::proofs::PlainResults::plain_trap), unfolding(m68k_decode::specs::General::compute, m68k_decode::specs::General::completed, m68k_decode::specs::Run::store))]
pub fn compute_in_memory(context: &Context, machine: &mut Machine, value: u32, at: u32, old: u32)
    ensures { meaning context.now machine.new
        ≡ compute context.now.fetched.instr value (P.Memory at) old
        (run_of context.now machine.old) }
{
    if !context.fetched.is_plain() {
        compute_result(context, machine, value, Place68::Memory { at }, old);
        return;
    }
    let result = perform_plain(context, machine, value, old);
    let row = &context.fetched.row;
    let clocks = context.fetched.first_clocks();
    if row.writes {
        write_value(context, machine, row.size, at, result, Then::End { clocks });
    } else {
        end_instruction(machine, clocks);
    }
}

/// Source and old value are known, and the destination is a data register.
#[inline(always)]
#[tactic(auto, using(crate::proofs::PlainResults::plain_count, crate::proofs::PlainResults::plain_trap), unfolding(m68k_decode::specs::General::compute, m68k_decode::specs::General::completed, m68k_decode::specs::Run::store))]
fn compute_in_register(context: &Context, machine: &mut Machine, value: u32, reg: u8, old: u32)
    requires { is_plain context.now.fetched.row ≡ true }
    ensures { meaning context.now machine.new
        ≡ compute context.now.fetched.instr value (P.Data reg) old
        (run_of context.now machine.old) }
{
    let result = perform_plain(context, machine, value, old);
    let row = &context.fetched.row;
    if row.writes {
        let merged = merged_value(row.size, machine.regs.data(reg), result);
        machine.regs.set_data(reg, merged);
    }
    end_instruction(machine, context.fetched.first_clocks());
}

/// Takes the old value of the destination.
#[inline(always)]
#[tactic(auto, unfolding(m68k_decode::specs::Run::load))]
fn load_old_value(context: &Context, machine: &mut Machine, value: u32, place: Place68)
    ensures { meaning context.now machine.new
        ≡ load (run_of context.now machine.old) (dest_size context.now.fetched.instr) false place
        (λ old. compute context.now.fetched.instr value place old
        (run_of context.now machine.old)) }
{
    let size = context.fetched.row.size;
    match place {
        Place68::Memory { at } => read_value(
            context,
            machine,
            size,
            false,
            at,
            Use::Old { value, at },
        ),
        _ => {
            let old = held_value(&machine.regs, size, place);
            compute_result(context, machine, value, place, old);
        }
    }
}

/// The place of the destination is known.
#[inline(never)]
#[tactic(auto, unfolding(m68k_decode::specs::General::with_dest))]
fn take_any_dest(context: &Context, machine: &mut Machine, value: u32, place: Place68)
    ensures { meaning context.now machine.new
        ≡ with_dest context.now.fetched.instr value place (run_of context.now machine.old) }
{
    if context.fetched.row.reads_old {
        load_old_value(context, machine, value, place);
    } else {
        compute_result(context, machine, value, place, 0);
    }
}

/// The destination is in memory.
#[inline(always)]
#[tactic(auto, unfolding(m68k_decode::specs::General::with_dest, m68k_decode::specs::Run::load))]
fn take_memory_dest(context: &Context, machine: &mut Machine, value: u32, at: u32)
    ensures { meaning context.now machine.new
        ≡ with_dest context.now.fetched.instr value (P.Memory at) (run_of context.now machine.old) }
{
    let row = &context.fetched.row;
    if row.reads_old {
        read_value(
            context,
            machine,
            row.size,
            false,
            at,
            Use::Old { value, at },
        );
    } else {
        compute_in_memory(context, machine, value, at, 0);
    }
}

/// The destination is a data register.
#[inline(never)]
#[tactic(auto, unfolding(m68k_decode::specs::General::with_dest, m68k_decode::specs::Run::load))]
fn take_register_dest(context: &Context, machine: &mut Machine, value: u32, reg: u8)
    ensures { meaning context.now machine.new
        ≡ with_dest context.now.fetched.instr value (P.Data reg) (run_of context.now machine.old) }
{
    if !context.fetched.is_plain() {
        take_any_dest(context, machine, value, Place68::Data { reg });
        return;
    }
    let row = &context.fetched.row;
    let old = if row.reads_old {
        low_part(row.size, machine.regs.data(reg))
    } else {
        0
    };
    compute_in_register(context, machine, value, reg, old);
}

/// The place of the destination is known.
#[inline(always)]
pub fn take_dest_place(context: &Context, machine: &mut Machine, value: u32, place: Place68)
    ensures { meaning context.now machine.new
        ≡ with_dest context.now.fetched.instr value place (run_of context.now machine.old) }
{
    match place {
        Place68::Memory { at } => take_memory_dest(context, machine, value, at),
        Place68::Data { reg } => take_register_dest(context, machine, value, reg),
        Place68::Address { .. } | Place68::Value { .. } => take_any_dest(
            context, machine, value, place,
        ),
    }
}

/// The source is known.
#[tactic(auto, using(crate::proofs::RegisterPlaces::dest_in_register), unfolding(m68k_decode::specs::General::dest, m68k_decode::specs::Run::place, m68k_decode::specs::Run::at_place))]
pub fn take_source_value(context: &Context, machine: &mut Machine, value: u32)
    ensures { meaning context.now machine.new
        ≡ dest context.now.fetched.instr value (run_of context.now machine.old) }
{
    let Dest::Operand { mode } = context.fetched.row.dest else {
        compute_result(context, machine, value, Place68::Value { value: 0 }, 0);
        return;
    };
    if let Mode::Dn { reg } = mode {
        take_register_dest(context, machine, value, reg);
        return;
    }
    let size = context.fetched.row.size;
    match extension_words(&mode, size) {
        0 => {
            let pc = machine.regs.pc;
            let place = resolve(&mode, &mut machine.regs, &[0, 0], pc, size);
            take_dest_place(context, machine, value, place);
        }
        words => fetch_extension(context, machine, words, Role::Dest { value }),
    }
}

/// The place of the source is known.
#[inline(always)]
#[tactic(auto, unfolding(m68k_decode::specs::General::with_source, m68k_decode::specs::Run::load))]
pub fn take_source_place(context: &Context, machine: &mut Machine, place: Place68)
    ensures { meaning context.now machine.new
        ≡ with_source context.now.fetched.instr place (run_of context.now machine.old) }
{
    let size = context.fetched.row.source_size;
    match place {
        Place68::Memory { at } => {
            let program = is_program(source_mode(context.fetched.row.source));
            read_value(context, machine, size, program, at, Use::Source);
        }
        _ => {
            let value = held_value(&machine.regs, size, place);
            take_source_value(context, machine, value);
        }
    }
}

/// A row with a source, a destination and a result, after its opcode.
#[tactic(auto, using(crate::proofs::RegisterPlaces::source_in_register), unfolding(m68k_decode::specs::General::general, m68k_decode::specs::Run::place, m68k_decode::specs::Run::at_place))]
pub fn start_general_row(context: &Context, machine: &mut Machine)
    ensures { meaning context.now machine.new
        ≡ general context.now.fetched.instr (run_of context.now machine.old) }
{
    let mode = match context.fetched.row.source {
        Source::Operand { mode } => mode,
        Source::Number { value } => {
            take_source_value(context, machine, value);
            return;
        }
    };
    let size = context.fetched.row.source_size;
    if let Mode::Dn { reg } = mode {
        take_source_place(context, machine, Place68::Data { reg });
        return;
    }
    match extension_words(&mode, size) {
        0 => {
            let pc = machine.regs.pc;
            let place = resolve(&mode, &mut machine.regs, &[0, 0], pc, size);
            take_source_place(context, machine, place);
        }
        words => fetch_extension(context, machine, words, Role::Source),
    }
}
