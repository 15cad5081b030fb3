//! The status register: its flags, the conditions, privilege, and what an exception makes of it.

ghost use Rattle.std.specs.Prelude.{◌≡◌, ◌≤◌, ◌<◌, ◌+◌, ◌*◌, ◌/◌, ◌%◌};
ghost use Rattle.m68k_decode.specs.Results.{one_if};
ghost use Rattle.m68k_decode.specs.Status.{flags_of, with_flags, with_code, kept_status, condition, even_condition};
ghost use Rattle.m68k_decode.specs.Status.{needs_supervisor, entered_status, supervised, with_mask, has_trace, mask_of};

use m68k_decode::{Flags, Instr, Trap};

/// Bits 4 to 0 of a status register: X, N, Z, V, C.
#[tactic(auto, unfolding(m68k_decode::specs::Status::flags_of))]
pub fn flags_of(sr: u16) -> Flags
    ensures { result ≡ flags_of sr }
{
    Flags {
        x: (sr >> 4) & 1 == 1,
        n: (sr >> 3) & 1 == 1,
        z: (sr >> 2) & 1 == 1,
        v: (sr >> 1) & 1 == 1,
        c: sr & 1 == 1,
    }
}

/// 1 for a set flag, 0 for a clear one.
fn one_if(flag: bool) -> u16
    ensures value { result ≡ one_if flag }
    ensures small { result ≤ 1 }
{
    u16::from(flag)
}

/// The flags as the low five bits of a word.
fn condition_code(f: Flags) -> u16
    ensures value { result
        ≡ 16 * one_if f.x + 8 * one_if f.n + 4 * one_if f.z + 2 * one_if f.v + one_if f.c }
    ensures small { result ≤ 31 }
{
    16 * one_if(f.x) + 8 * one_if(f.n) + 4 * one_if(f.z) + 2 * one_if(f.v) + one_if(f.c)
}

/// The status register with other flags.
#[tactic(auto, unfolding(m68k_decode::specs::Status::with_flags))]
pub fn with_flags(sr: u16, f: Flags) -> u16
    ensures { result ≡ with_flags sr f }
{
    sr - (sr & 31) + condition_code(f)
}

/// The status register with the low five bits of a word as its flags.
#[tactic(auto, unfolding(m68k_decode::specs::Status::with_code))]
pub fn with_code(sr: u16, word: u16) -> u16
    ensures { result ≡ with_code sr word }
{
    sr - (sr & 31) + (word & 31)
}

/// The bits of a word that the status register keeps.
#[tactic(auto, unfolding(m68k_decode::specs::Status::kept_status))]
pub fn kept_status(word: u16) -> u16
    ensures { result ≡ kept_status word }
{
    word & 0xa71f
}

/// The conditions 0, 2, 4 and on, by half their number.
fn even_condition(pair: u8, f: Flags) -> bool
    ensures { result ≡ even_condition pair f }
{
    match pair {
        0 => true,
        1 => !f.c && !f.z,
        2 => !f.c,
        3 => !f.z,
        4 => !f.v,
        5 => !f.n,
        6 => f.n == f.v,
        _ => f.n == f.v && !f.z,
    }
}

/// Whether a condition holds, by its number in an opcode, 0 (true) to 15 (less or equal).
#[tactic(auto, unfolding(m68k_decode::specs::Status::condition))]
pub fn condition(c: u8, f: Flags) -> bool
    ensures { result ≡ condition c f }
{
    let even = even_condition(c >> 1, f);
    if c & 1 == 1 { !even } else { even }
}

/// Whether an instruction is the supervisor's alone.
#[tactic(auto, unfolding(m68k_decode::specs::Status::needs_supervisor))]
pub fn needs_supervisor(instr: &Instr) -> bool
    ensures { result ≡ needs_supervisor instr.now }
{
    match *instr {
        Instr::ImmediateToStatus { which } => which >= 3,
        Instr::MoveToStatus { which, .. } => which == 1,
        Instr::MoveUsp { .. } => true,
        Instr::ResetNopStopRte { which } => which != 1,
        _ => false,
    }
}

/// Whether the trace bit is set.
pub fn has_trace(sr: u16) -> bool
    ensures { result ≡ has_trace sr }
{
    (sr >> 15) & 1 == 1
}

/// The level up to which interrupts are masked, 0 to 7.
pub fn interrupt_mask(sr: u16) -> u8
    ensures { result ≡ mask_of sr }
{
    ((sr >> 8) & 7) as u8
}

/// The status register with S set.
fn with_supervisor(sr: u16) -> u16
    requires { sr < 32768 }
    ensures value { result ≡ supervised sr }
    ensures below { result < 40960 }
{
    if (sr >> 13) & 1 == 1 { sr } else { sr + 0x2000 }
}

/// The status register with another mask.
#[tactic(auto, unfolding(m68k_decode::specs::Status::with_mask))]
fn with_mask(sr: u16, level: u8) -> u16
    requires { sr < 40960 }
    ensures { result ≡ with_mask sr level }
{
    sr - (sr & 0x7ff) + u16::from(level & 7) * 0x100 + (sr & 0xff)
}

/// The status register of an entry, from the one before it: T is clear, S is set, and an interrupt has
/// raised the mask to its level.
#[tactic(auto, unfolding(m68k_decode::specs::Status::entered_status))]
pub fn entered_status(kind: &Trap, sr: u16) -> u16
    ensures { result ≡ entered_status kind.now sr }
{
    let entered = with_supervisor(sr & 0x7fff);
    if let Trap::Interrupt { level } = *kind {
        return with_mask(entered, level);
    }
    entered
}
