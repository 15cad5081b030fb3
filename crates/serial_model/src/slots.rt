//! Who asks for the slot of a colour clock, and who gets it.

/// Who asks for the slot of clock `h` of a line: the disk, an audio channel, a bitplane, a sprite, the
/// Copper, the blitter, the processor. Refresh asks by the clock alone. `missed` is for how many clocks in a
/// row the processor asked and another got the slot, at most 3; `nasty` is BLTPRI of DMACON.
#[derive(Clone, Copy)]
pub struct SlotState {
    pub h: u16,
    pub disk: bool,
    pub audio: Option<u8>,
    pub plane: Option<u8>,
    pub sprite: Option<u8>,
    pub copper: bool,
    pub blitter: bool,
    pub processor: bool,
    pub missed: u8,
    pub nasty: bool,
}

/// Who has the slot of a colour clock.
#[derive(Clone, Copy, PartialEq, Eq)]
pub enum Owner {
    Refresh,
    Disk,
    Audio { channel: u8 },
    Plane { plane: u8 },
    Sprite { sprite: u8 },
    Copper,
    Blitter,
    Processor,
    Free,
}
