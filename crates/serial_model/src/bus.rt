//! The access of a colour clock: who makes it, and what it makes.

use crate::fetch::{PlaneAsk, SpriteAsk};
use crate::trace::Source;
use blit_words::SlotAsk;
use ocs_base::{Addr, Reg};

/// What disk and audio ask for at a clock: nothing, a word to be stored by the disk, or a word of an audio
/// channel's sample.
#[derive(Clone, Copy)]
pub enum SideAsk {
    Nothing,
    Disk { at: Addr, word: u16 },
    Audio { channel: u8, at: Addr },
}

/// The access that the owner of the slot makes, by who it is: none (a free slot, or refresh); that of the
/// disk or an audio channel; the read of a word for a bitplane's latch, or of a sprite's word; the read
/// of an instruction's word by the Copper; what the blitter does with its slot; or what the processor does.
#[derive(Clone, Copy)]
pub enum Ask {
    Free,
    Side { ask: SideAsk },
    Plane { ask: PlaneAsk },
    Sprite { ask: SpriteAsk },
    Copper { at: Addr },
    Blit { ask: SlotAsk },
    Processor { ask: ProcessorAsk },
}

/// What the processor does in its slot: it reads or writes a word of chip memory or a custom register.
#[derive(Clone, Copy)]
pub enum ProcessorAsk {
    Read { at: Addr },
    Write { at: Addr, half: Half, word: u16 },
    ReadRegister { reg: Reg },
    WriteRegister { reg: Reg, word: u16 },
}

/// Which bytes of a word of memory a write changes. A write of one byte has the byte as the low one
/// of its word.
#[derive(Clone, Copy)]
pub enum Half {
    Both,
    High,
    Low,
}

/// What an access or an event of the script makes of the machine: nothing; a write to a register,
/// which the trace tells where there is someone to name; a read of a register that the trace tells;
/// a word stored in memory; or a word of memory that fills the latch of a bitplane, 1 to 6, or
/// SPRxDATA or, `second`, SPRxDATB of a sprite, 0 to 7.
#[derive(Clone, Copy)]
pub enum Made {
    Nothing,
    Wrote {
        reg: Reg,
        word: u16,
        by: Option<Source>,
    },
    Read {
        reg: Reg,
        by: Source,
    },
    Stored {
        at: Addr,
        half: Half,
        word: u16,
    },
    Plane {
        plane: u8,
        at: Addr,
    },
    Sprite {
        sprite: u8,
        second: bool,
        at: Addr,
    },
}
