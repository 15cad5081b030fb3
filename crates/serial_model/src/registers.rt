//! The custom registers: what a read gives, what a write does, and what of the machine a read sees.

use ocs_base::Beam;

/// What a read of a register gives: 0; the kept bits of DMACON with the state of the blitter; LOF and the
/// line's bit 8; the line's bits 7 to 0 and the clock; a joystick's word; or a word that another chip keeps.
#[derive(Clone, Copy)]
pub enum Reading {
    Zero,
    DmaAndBlitter,
    FieldAndLine,
    LineAndClock,
    Joystick { port: u8 },
    Elsewhere,
}

/// What a write to a register does. `Ignored` changes nothing, and `Interrupt` reaches the
/// interrupt words, which are kept apart from the registers; every other keeps the word in the bits
/// that the register keeps. `PointerHigh` is the high word of a pointer. `SetOrClear` sets or
/// clears bits of the kept word, by bit 15 of the written one. `Jump` makes the Copper fetch from
/// its list 1 or 2, `Blit` starts a blit, `Picture` reaches Denise and `Field` sets LOF.
#[derive(Clone, Copy)]
pub enum Writing {
    Ignored,
    Plain,
    PointerHigh,
    SetOrClear,
    Jump { list: u8 },
    Blit,
    Picture,
    Interrupt,
    Field,
}

/// What a write does beside the register's kept word. `Nothing` says that the write changes nothing, not
/// even that; `Kept` that the word is kept and no more happens. `Jump` names the Copper's list, 1 or 2, and
/// `Lof` the new LOF.
#[derive(Clone, Copy, PartialEq, Eq)]
pub enum Effect {
    Kept,
    Nothing,
    Jump { list: u8 },
    Blit,
    Picture,
    Interrupt,
    Lof { long: bool },
}

/// What a read sees beside the kept words: the beam, whether the blitter is busy, BZERO, and the two
/// joystick words.
#[derive(Clone, Copy)]
pub struct Live {
    pub beam: Beam,
    pub busy: bool,
    pub zero: bool,
    pub joy0: u16,
    pub joy1: u16,
}

/// The joysticks of ports 0 and 1: what JOY0DAT and JOY1DAT read, and whether their fire buttons are down.
#[derive(Clone, Copy)]
pub struct Inputs {
    pub joy0: u16,
    pub joy1: u16,
    pub fire0: bool,
    pub fire1: bool,
}
