//! The offset of a custom register.

ghost use Rattle.std.specs.Prelude.{◌≡◌, ◌<◌, ◌%◌, ◌↔◌, IsSome, IfSome};
ghost use Rattle.ocs_base.specs.Addr.{even_address};

/// The offset of a custom register from DFF000: an even number, 000 to 1FE.
#[derive(Clone, Copy, PartialEq, Eq)]
pub struct Reg {
    pub offset: u16,
    pub ghost even: { offset % 2 ≡ 0 },
    pub ghost below: { offset < 512 },
}

impl Reg {
    ghost use Rattle.ocs_base.specs.Register.{register_of};

    /// The register at an offset; None exactly where the number is odd or above 1FE.
    pub fn new(raw: u16) -> Option<Reg>
        ensures there { IsSome result ↔ ((raw % 2 ≡ 0) × (raw < 512)) }
        ensures offset { IfSome result (λ reg. reg.offset ≡ raw) }
    {
        if raw % 2 == 0 && raw <= 0x1fe {
            Some(Reg { offset: raw })
        } else {
            None
        }
    }

    /// The register that a word names by its bits 8 to 1, as the first word of a Copper MOVE does:
    /// `word AND 1FE`.
    #[tactic(auto, using(crate::proofs::Masks::even_offset_masked))]
    pub fn masked(word: u16) -> Reg
        ensures offset { result.offset ≡ even_address 512 word }
        ensures named { result ≡ register_of word }
    {
        Reg {
            offset: word & 0x1fe,
        }
    }

    /// The offset as a number.
    pub fn raw(self) -> u16
        ensures { result ≡ self.offset }
    {
        self.offset
    }
}
