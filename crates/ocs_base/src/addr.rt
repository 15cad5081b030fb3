//! An address of chip memory.

ghost use Rattle.std.specs.Prelude.{◌≡◌, ◌<◌, ◌%◌, pos, ◌+ℤ◌};
ghost use Rattle.std.specs.Int.{int_rem_euclid};
ghost use Rattle.ocs_base.specs.Addr.{even_address, IsEven};
ghost use Rattle.ocs_base.specs.Sizes.{bytes_of};

use crate::chip_size::ChipSize;

/// The address of a word of chip memory: an even number of bytes below the size of the memory that it is an
/// address of, which is the span that it wraps at.
/// Agnus drops bit 0 and what is above its address bits (Hardware Reference Manual, pointer registers).
#[derive(Clone, Copy, PartialEq, Eq)]
pub struct Addr {
    pub value: u32,
    pub size: ChipSize,
    pub ghost even: { value % 2 ≡ 0 },
    pub ghost below: { value < bytes_of size },
}

impl Addr {
    ghost use Rattle.ocs_base.specs.Span.{span_of};
    ghost use Rattle.ocs_base.specs.AddressOf.{addr_at};
    ghost use Rattle.ocs_base.specs.declared.chip_size.ChipSize.TheVariants.{Kib512, Mib1};

    /// The address that a pointer's number names in 512 KiB: `raw AND 7FFFE`.
    #[tactic(auto, using(crate::proofs::Masks::even_address_masked))]
    pub fn at(raw: u32) -> Addr
        ensures value { result.value ≡ even_address 524288 raw }
        ensures named { result ≡ addr_at Kib512 raw }
        ensures span { span_of result ≡ 524288 }
    {
        Addr {
            value: raw & 0x7_fffe,
            size: ChipSize::Kib512,
        }
    }

    /// The address that a pointer's number names in 1 MiB: `raw AND FFFFE`.
    #[tactic(auto, using(crate::proofs::Masks::wide_address_masked))]
    pub fn wide(raw: u32) -> Addr
        ensures value { result.value ≡ even_address 1048576 raw }
        ensures named { result ≡ addr_at Mib1 raw }
        ensures span { span_of result ≡ 1048576 }
    {
        Addr {
            value: raw & 0xf_fffe,
            size: ChipSize::Mib1,
        }
    }

    /// The address that a pointer's number names in a memory of this size.
    #[inline(always)]
    pub fn sized(size: ChipSize, raw: u32) -> Addr
        ensures { result ≡ addr_at size raw }
    {
        match size {
            ChipSize::Kib512 => Addr::at(raw),
            ChipSize::Mib1 => Addr::wide(raw),
        }
    }

    /// The address as a number of bytes.
    pub fn raw(self) -> u32
        ensures { result ≡ self.value }
    {
        self.value
    }

    /// How many bytes the address wraps at.
    pub fn span(self) -> u32
        ensures { result ≡ span_of self }
    {
        self.size.bytes()
    }

    /// The address so many bytes on, or back where `bytes` is negative, modulo the span.
    pub fn step(self, bytes: i32) -> Addr
        requires { IsEven bytes }
        ensures value { pos result.value
            ≡ int_rem_euclid (pos self.value +ℤ bytes) (pos (span_of self)) }
        ensures size { result.size ≡ self.size }
    {
        let moved = self.value as i64 + bytes as i64;
        Addr {
            value: within(self.size, moved),
            size: self.size,
        }
    }
}

/// A number of bytes modulo a size.
#[inline(always)]
fn within(size: ChipSize, moved: i64) -> u32
    ensures { pos result ≡ int_rem_euclid moved (pos (bytes_of size)) }
{
    match size {
        ChipSize::Kib512 => moved.rem_euclid(0x8_0000) as u32,
        ChipSize::Mib1 => moved.rem_euclid(0x10_0000) as u32,
    }
}
