//! Who has a slot, and what for.

use serial_model::Half;

/// Who has a slot of the bus, and what for. A channel is 0 to 3, a plane 1 to 6, and a sprite 0 to 7, whose
/// `second` control word or image word it may be. The blitter rests where it has a slot without an access.
#[derive(Clone, Copy)]
pub enum Purpose {
    Free,
    Refresh,
    BlitterRests,
    CopperReads,
    BlitterReads,
    BlitterWrites,
    ProcessorReads,
    ProcessorWrites { half: Half },
    ProcessorReadsRegister,
    ProcessorWritesRegister,
    DiskWrites,
    AudioReads { channel: u8 },
    PlaneReads { plane: u8 },
    ControlOfSprite { sprite: u8, second: bool },
    ImageOfSprite { sprite: u8, second: bool },
}

impl Purpose {
    ghost use Rattle.std.specs.Prelude.{◌≡◌, ◌<◌};
    ghost use Rattle.slot_log.specs.Purpose.{code_of};

    /// Its code in the log.
    pub fn code(self) -> u8
        requires { code_of self < 256 }
        ensures { result ≡ code_of self }
    {
        match self {
            Purpose::Free => 0,
            Purpose::Refresh => 1,
            Purpose::BlitterRests => 2,
            Purpose::CopperReads => 3,
            Purpose::BlitterReads => 4,
            Purpose::BlitterWrites => 5,
            Purpose::ProcessorReads => 6,
            Purpose::ProcessorWrites { half: Half::Both } => 7,
            Purpose::ProcessorWrites { half: Half::High } => 8,
            Purpose::ProcessorWrites { half: Half::Low } => 9,
            Purpose::ProcessorReadsRegister => 10,
            Purpose::ProcessorWritesRegister => 11,
            Purpose::DiskWrites => 12,
            Purpose::AudioReads { channel } => 16 + channel,
            Purpose::PlaneReads { plane } => 32 + plane,
            Purpose::ControlOfSprite {
                sprite,
                second: false,
            } => 40 + sprite,
            Purpose::ControlOfSprite {
                sprite,
                second: true,
            } => 48 + sprite,
            Purpose::ImageOfSprite {
                sprite,
                second: false,
            } => 56 + sprite,
            Purpose::ImageOfSprite {
                sprite,
                second: true,
            } => 64 + sprite,
        }
    }
}
