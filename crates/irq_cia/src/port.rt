//! A port of a CIA.

ghost use Rattle.std.specs.Prelude.{◌≡◌};
ghost use Rattle.irq_cia.specs.Port.{reset_port, port_read};

/// A port: its data register, which its outputs show, and the direction of each pin, 1 for output.
#[derive(Drop)]
pub struct Port {
    pub output: u8,
    pub direction: u8,
}

impl Port {
    /// All pins are inputs (profile).
    pub fn reset() -> Port
        ensures { result ≡ reset_port }
    {
        Port {
            output: 0,
            direction: 0,
        }
    }

    /// The same state once more.
    pub fn copied(&self) -> Port
        ensures { result ≡ self.now }
    {
        Port {
            output: self.output,
            direction: self.direction,
        }
    }

    /// What the data register reads as: itself where the direction is 1, and the pins where it is 0
    /// (Hardware Reference Manual, 8520 CIA, I/O ports).
    pub fn read(&self, pins: u8) -> u8
        ensures { result ≡ port_read pins self.now }
    {
        self.output & self.direction | pins & !self.direction
    }
}
