//! What a clock says of the slot of the bus.

use serial_model::Ask;

/// What the owner of a clock's slot asked for, and the word with which a read of a custom register was
/// answered, where it asked for one. Words that are read from chip memory are not in it: they are those of
/// the memory before the clock.
#[derive(Clone, Copy)]
pub struct Slot {
    pub ask: Ask,
    pub read: Option<u16>,
}
