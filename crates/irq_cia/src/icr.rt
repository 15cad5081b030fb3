//! The interrupt control register of a CIA.

ghost use Rattle.std.specs.Prelude.{◌≡◌, ◌^◌, ◌<◌};
ghost use Rattle.irq_cia.specs.Icr.{reset_icr, with_flag, is_active as active, icr_read, after_icr_read};
ghost use Rattle.irq_cia.specs.Icr.{mask_after, after_icr_write};

/// The flags of what happened since the last read, and the mask of those that make the line active. Both
/// have bits 4 to 0 (Hardware Reference Manual, 8520 CIA, interrupt control register).
#[derive(Drop)]
pub struct Icr {
    pub flags: u8,
    pub mask: u8,
}

impl Icr {
    /// No flag and no mask (profile).
    pub fn reset() -> Icr
        ensures { result ≡ reset_icr }
    {
        Icr { flags: 0, mask: 0 }
    }

    /// The same state once more.
    pub fn copied(&self) -> Icr
        ensures { result ≡ self.now }
    {
        Icr {
            flags: self.flags,
            mask: self.mask,
        }
    }

    /// Sets a flag where its event happened: 0 timer A, 1 timer B, 2 alarm, 3 serial.
    pub fn raise(&mut self, happened: bool, bit: u8)
        requires { bit < 5 }
        ensures { self.new ≡ with_flag happened bit self.old }
    {
        if happened {
            self.flags |= 1 << bit;
        }
    }

    /// Whether some flag is set that the mask has.
    pub fn is_active(&self) -> bool
        ensures { result ≡ active self.now }
    {
        self.flags & self.mask != 0
    }

    /// A read: the flags and, as bit 7, whether the line is active. All flags are then cleared.
    pub fn read(&mut self) -> u8
        ensures icr { self.new ≡ after_icr_read self.old }
        ensures byte { result ≡ icr_read self.old }
    {
        let active = self.is_active();
        let flags = self.flags;
        self.flags = 0;
        if active { flags | 0x80 } else { flags }
    }

    /// A write: bit 7 says whether the byte's 1 bits of 4 to 0 are set or cleared in the mask.
    pub fn write(&mut self, byte: u8)
        ensures { self.new ≡ after_icr_write byte self.old }
    {
        let bits = byte & 0x1f;
        if byte >= 0x80 {
            self.mask |= bits;
        } else {
            self.mask &= !bits;
        }
    }
}
