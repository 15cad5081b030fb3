//! The registers.

ghost use Rattle.std.specs.Prelude.{◌≡◌};
ghost use Rattle.m68k_decode.specs.Registers.{has_supervisor, data_of, address_of, with_data, with_address};

/// The registers of the MC68000. A7 is `ssp` where bit 13 (S) of `sr` is set, else `usp`.
#[derive(Clone, Copy)]
pub struct CpuRegs {
    /// D0 to D7.
    pub d: [u32; 8],
    /// A0 to A6.
    pub a: [u32; 7],
    /// The user's stack pointer.
    pub usp: u32,
    /// The supervisor's stack pointer.
    pub ssp: u32,
    /// The program counter.
    pub pc: u32,
    /// The status register.
    pub sr: u16,
}

impl CpuRegs {
    /// Whether the S bit is set: the processor is in supervisor mode.
    pub fn is_supervisor(&self) -> bool
        ensures { result ≡ has_supervisor self.now.sr }
    {
        (self.sr >> 13) & 1 == 1
    }

    /// Data register `reg`, of which the low three bits count.
    #[tactic(auto, unfolding(crate::specs::Registers::data_of))]
    pub fn data(&self, reg: u8) -> u32
        ensures { result ≡ data_of self.now reg }
    {
        self.d[(reg & 7) as usize]
    }

    /// Address register `reg`, of which the low three bits count; 7 is the active stack pointer.
    #[tactic(auto, unfolding(crate::specs::Registers::address_of))]
    pub fn address(&self, reg: u8) -> u32
        ensures { result ≡ address_of self.now reg }
    {
        match reg & 7 {
            7 if self.is_supervisor() => self.ssp,
            7 => self.usp,
            number => self.a[number as usize],
        }
    }

    /// Writes data register `reg`.
    #[tactic(auto, unfolding(crate::specs::Registers::with_data))]
    pub fn set_data(&mut self, reg: u8, value: u32)
        ensures { self.new ≡ with_data self.old reg value }
    {
        self.d[(reg & 7) as usize] = value;
    }

    /// Writes address register `reg`; 7 is the active stack pointer.
    #[tactic(auto, unfolding(crate::specs::Registers::with_address))]
    pub fn set_address(&mut self, reg: u8, value: u32)
        ensures { self.new ≡ with_address self.old reg value }
    {
        match reg & 7 {
            7 if self.is_supervisor() => self.ssp = value,
            7 => self.usp = value,
            number => self.a[number as usize] = value,
        }
    }
}
