//! What a blit starts from, what it asks for, and the parts of a blit that its definitions speak of.

use ocs_base::Addr;

/// The blitter's registers as a blit starts, or as it leaves them: BLTCON0 and BLTCON1, the masks
/// BLTAFWM and BLTALWM, BLTSIZE, the data registers, the modulos and the pointers. `aptl` is
/// BLTAPTL with all its 16 bits, the accumulator of a line, and `apt` the address in BLTAPTH and
/// BLTAPTL. The addresses of a channel wrap where its pointer does.
#[derive(Clone, Copy)]
pub struct BlitRegs {
    pub con0: u16,
    pub con1: u16,
    pub afwm: u16,
    pub alwm: u16,
    pub size: u16,
    pub adat: u16,
    pub bdat: u16,
    pub cdat: u16,
    pub amod: i16,
    pub bmod: i16,
    pub cmod: i16,
    pub dmod: i16,
    pub apt: Addr,
    pub bpt: Addr,
    pub cpt: Addr,
    pub dpt: Addr,
    pub aptl: u16,
}

/// What a blit does with its next slot: it reads a word, writes one, or takes the slot and makes no
/// access. `Done` is the end, and asks for no slot.
#[derive(Clone, Copy)]
pub enum SlotAsk {
    Read { at: Addr },
    Write { at: Addr, word: u16 },
    Rest,
    Done,
}

/// One of the asks of a word of an area blit: the read of channel A, B or C, the write of D, or a
/// slot that is taken without an access.
#[derive(Clone, Copy)]
pub enum WordAsk {
    A,
    B,
    C,
    D,
    Rest,
}

/// A point of a line blit, before it is drawn: the address of its word, its bit as a shift of BLTADAT, the
/// accumulator, whether that counts as negative, and whether the line already has a point in this row.
#[derive(Clone, Copy)]
pub struct LinePoint {
    pub at: Addr,
    pub shift: u16,
    pub sum: i16,
    pub sign: bool,
    pub dotted: bool,
}
