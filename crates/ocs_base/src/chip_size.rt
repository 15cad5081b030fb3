//! How much chip memory a machine has.

ghost use Rattle.std.specs.Prelude.{◌≡◌, true};
ghost use Rattle.ocs_base.specs.Sizes.{bytes_of, size_of_bytes, is_chip_size};

/// The size of chip memory: 512 KiB, or 1 MiB as the later Agnus addresses it (this project's profile: beam,
/// slots and all else are those of the first).
#[derive(Clone, Copy, PartialEq, Eq)]
pub enum ChipSize {
    Kib512,
    Mib1,
}

impl ChipSize {
    /// The size of so many bytes: 524,288 or 1,048,576.
    pub fn of_bytes(chip: u32) -> ChipSize
        requires { is_chip_size chip ≡ true }
        ensures named { result ≡ size_of_bytes chip }
        ensures bytes { bytes_of result ≡ chip }
    {
        if chip == 0x10_0000 {
            ChipSize::Mib1
        } else {
            ChipSize::Kib512
        }
    }

    /// How many bytes it is, which are also the bytes that an address wraps at.
    #[inline(always)]
    pub fn bytes(self) -> u32
        ensures { result ≡ bytes_of self }
    {
        match self {
            ChipSize::Kib512 => 0x8_0000,
            ChipSize::Mib1 => 0x10_0000,
        }
    }
}
