//! Room for the pixels of a band.

ghost use Rattle.std.specs.Prelude.{◌≡◌, IfOk, OnOk, length, replicate};
ghost use Rattle.std.specs.Borrow.{sem};
ghost use Rattle.band_log.specs.Lending.{LendsPixels};

use ocs_base::OutOfMemory;
use std::alloc::Global;
use std::marker::Model;

/// The bytes of the visible pixels of a band, three a pixel: red, green and blue.
#[derive(Drop)]
pub struct Room {
    bytes: Vec<u8>,
}

impl Model for Room {
    ghost use Rattle.std.specs.Prelude.{ℕ, List};

    ghost Value = { List ℕ };

    ghost view = { λ r. r.bytes.items };
}

impl Room {
    /// Room of so many bytes, each of them zero. It is refused for want of memory alone.
    pub fn new(alloc: Global, bytes: usize) -> Result<Room, OutOfMemory>
        ensures { IfOk result (λ room. room ≡ replicate bytes 0) }
    {
        let mut room = Vec::with_capacity(alloc, bytes)?;
        room.resize(bytes, 0)?;
        Ok(Room { bytes: room })
    }

    /// It gets so many bytes, whatever they are. It is refused for want of memory alone.
    pub(crate) fn resize(&mut self, bytes: usize) -> Result<(), OutOfMemory>
        ensures { OnOk result (length self.new ≡ bytes) }
    {
        self.bytes.resize(bytes, 0)?;
        Ok(())
    }

    /// The bytes.
    pub fn pixels(&self) -> &[u8]
        ensures { result.now ≡ self.now }
    {
        self.bytes.as_slice()
    }

    /// The bytes, lent for writing: the room then has what was written.
    pub fn pixels_mut(&mut self) -> &mut [u8]
        ensures* writes_back { sem 𝓛 (LendsPixels self.entry result) }
        ensures bytes { result.now ≡ self.old }
    {
        self.bytes.as_mut_slice()
    }
}
