//! INTENA and INTREQ, and the interrupt level that the processor sees.

ghost use Rattle.std.specs.Prelude.{◌≡◌, ◌≤◌};
ghost use Rattle.irq_cia.specs.Bits.{set_or_clear as set_or_clear_of};
ghost use Rattle.irq_cia.specs.Interrupts.{no_interrupts, after_request, after_req_write, after_ena_write};
ghost use Rattle.irq_cia.specs.Interrupts.{level_of, level_in};

use std::marker::Model;

/// The bits of INTREQ: 13 to 0.
const REQUESTS: u16 = 0x3fff;

/// The bits of INTENA: those of INTREQ, and INTEN.
const ENABLES: u16 = 0x7fff;

/// INTEN, bit 14 of INTENA.
const INTEN: u16 = 0x4000;

/// The kept words of INTENA, bits 14 to 0, and INTREQ, bits 13 to 0 (Hardware Reference Manual, INTENA and
/// INTREQ). The level is worked out where a word changes, since it is looked at more often.
#[derive(Drop)]
pub struct Irq {
    req: u16,
    ena: u16,
    level: u8,
    ghost level_is: { level ≡ level_of (record { req = req; ena = ena }) },
    ghost most: { level ≤ 6 },
}

impl Model for Irq {
    ghost use Rattle.irq_cia.specs.Interrupts.{Interrupts};

    ghost Value = { Interrupts };

    ghost view = { λ i. record {
      req = i.req;
      ena = i.ena;
    } };
}

impl Irq {
    /// Both words at reset: 0 (profile).
    pub fn reset() -> Irq
        ensures { result ≡ no_interrupts }
    {
        Irq::of(0, 0)
    }

    /// These words.
    fn of(req: u16, ena: u16) -> Irq
        ensures { result ≡ record { req = req; ena = ena } }
    {
        Irq {
            req,
            ena,
            level: level_by_words(req, ena),
        }
    }

    /// The same state once more.
    pub fn copied(&self) -> Irq
        ensures { result ≡ self.now }
    {
        Irq {
            req: self.req,
            ena: self.ena,
            level: self.level,
        }
    }

    /// The chips request interrupts: each set bit of 13 to 0 is set in INTREQ. Bits 15 and 14 do not count.
    pub fn request(&mut self, bits: u16)
        ensures { self.new ≡ after_request bits self.old }
    {
        let req = self.req | bits & REQUESTS;
        if req != self.req {
            *self = Irq::of(req, self.ena);
        }
    }

    /// A write to INTREQ: bit 15 says whether the word's other 1 bits are set or cleared (Hardware Reference
    /// Manual, INTREQ).
    pub fn poke_req(&mut self, word: u16)
        ensures { self.new ≡ after_req_write word self.old }
    {
        *self = Irq::of(set_or_clear(self.req, word, REQUESTS), self.ena);
    }

    /// A write to INTENA: bit 15 says whether the word's other 1 bits are set or cleared (Hardware Reference
    /// Manual, INTENA).
    pub fn poke_ena(&mut self, word: u16)
        ensures { self.new ≡ after_ena_write word self.old }
    {
        *self = Irq::of(self.req, set_or_clear(self.ena, word, ENABLES));
    }

    /// The kept word of INTREQ, as INTREQR reads.
    pub fn req(&self) -> u16
        ensures { result ≡ self.now.req }
    {
        self.req
    }

    /// The kept word of INTENA, as INTENAR reads.
    pub fn ena(&self) -> u16
        ensures { result ≡ self.now.ena }
    {
        self.ena
    }

    /// The interrupt level, 0 to 6: the greatest level of a bit that is set in both words, and 0 where INTEN
    /// is clear or there is none (Hardware Reference Manual, interrupt control).
    pub fn level(&self) -> u8
        ensures level { result ≡ level_of self.now }
        ensures range { result ≤ 6 }
    {
        self.level
    }
}

/// The level of the two words.
fn level_by_words(req: u16, ena: u16) -> u8
    ensures level { result ≡ level_of (record { req = req; ena = ena }) }
    ensures range { result ≤ 6 }
{
    if ena & INTEN != INTEN {
        return 0;
    }
    level_by_bits(req & ena)
}

/// The greatest level of a bit that is set in the word: the levels rise with the bits.
#[tactic(auto, using(crate::proofs::Levels::level_law, std::proofs::lemmas::Bool::Decides::nat_tests))]
fn level_by_bits(word: u16) -> u8
    ensures level { result ≡ level_in word }
    ensures range { result ≤ 6 }
{
    match word & REQUESTS {
        0 => 0,
        1..=0x0007 => 1,
        0x0008..=0x000f => 2,
        0x0010..=0x007f => 3,
        0x0080..=0x07ff => 4,
        0x0800..=0x1fff => 5,
        _ => 6,
    }
}

/// A kept word after a write: bit 15 of the written word says whether its other 1 bits, of those that the
/// register keeps, are set or cleared.
fn set_or_clear(old: u16, word: u16, bits: u16) -> u16
    ensures { result ≡ set_or_clear_of bits old word }
{
    if word >= 0x8000 {
        old | word & bits
    } else {
        old & !word
    }
}
