//! Sprite DMA: what each of the eight sprites reads on a line, and where the sprites' pointers go.
//!
//! A sprite has two slots on a line and reads two words: its control words on the first line and on
//! the line on which its image ends, and words of the image between (Hardware Reference Manual,
//! sprite hardware). The clocks of the slots and the first line are this project's profile.
#![tactic(auto)]

ghost use Rattle.std.specs.Prelude.{◌≡◌, ◌<◌, ◌≤◌, ◌+◌, ◌%◌, true, false, ℕ, get_or};
ghost use Rattle.serial_model.specs.SpriteFetch.{no_kinds, kinds_at, sprite_ask, move_sprites, kind_of, kind_by};
ghost use Rattle.serial_model.specs.SpriteFetch.{sprite_dma as dma_of, ask_by_kind, move_if_asked, is_sprite_slot};
ghost use Rattle.serial_model.specs.declared.fetch.SpriteKind.TheVariants.{Nothing};
ghost use Rattle.serial_model.specs.Beam.{later_beam};
ghost use Rattle.sprite_dma.specs.Quiet.{ReadsNothing};

use ocs_base::offset::DMACON;
use ocs_base::{Addr, Beam, Reg};
use reg_file::Regs;
pub use serial_model::{SpriteAsk, SpriteKind};
use std::marker::Model;

/// The line on which every sprite reads its control words.
const FIRST_LINE: u16 = 25;

/// The first and the last clock of a line that are slots of sprites.
const FIRST_SLOT: u16 = 0x15;

const LAST_SLOT: u16 = 0x33;

/// Sprite fetch between two colour clocks: what each sprite reads on this line.
#[derive(Drop)]
pub struct SpriteDma {
    kinds: [SpriteKind; 8],
}

impl Model for SpriteDma {
    ghost use Rattle.std.specs.Prelude.{List};
    ghost use Rattle.serial_model.specs.declared.fetch.SpriteKind.{SpriteKind};

    ghost Value = { List SpriteKind };

    ghost view = { λ s. s.kinds };
}

impl SpriteDma {
    /// No sprite reads anything yet.
    pub fn new() -> SpriteDma
        ensures { result ≡ no_kinds }
    {
        SpriteDma {
            kinds: [SpriteKind::Nothing; 8],
        }
    }

    /// The same state once more.
    pub fn copied(&self) -> SpriteDma
        ensures { result ≡ self.now }
    {
        SpriteDma { kinds: self.kinds }
    }

    /// One colour clock, called at each. What a sprite reads on a line is decided at its first
    /// slot, by the registers as they are then.
    ///
    /// `taken` says that a bitplane has the slot of this clock: a sprite whose slot it is then
    /// reads nothing in it, and its pointer stays (profile). The answer is Some exactly where a
    /// sprite's word is read. The sprite's pointer has then moved on by that word.
    #[inline(always)]
    #[tactic(auto, unfolding(serial_model::specs::SpriteFetch::kinds_at))]
    pub fn step(&mut self, beam: &Beam, regs: &mut Regs, taken: bool) -> Option<SpriteAsk>
        ensures kinds { self.new ≡ kinds_at beam.now regs.old self.old }
        ensures ask { result ≡ sprite_ask beam.now.h regs.old self.new taken }
        ensures moved { regs.new ≡ move_sprites beam.now.h self.new taken regs.old }
    {
        if beam.h > LAST_SLOT {
            return None;
        }
        if !is_slot(beam.h) {
            if beam.h == 0 {
                self.kinds = [SpriteKind::Nothing; 8];
            }
            return None;
        }
        self.decide(beam, regs);
        if taken || !has_dma(regs) {
            return None;
        }
        let sprite = (beam.h - 0x15) / 4;
        let kind = self.kinds[sprite as usize];
        fetch(kind, sprite as u8, beam.h % 4 == 3, regs)
    }

    /// For how many clocks of this line, from this one on and at most so many, the sprites need no slot,
    /// while the registers stay: what they read on this line stays as it is, and none asks. There may be
    /// more such clocks behind them.
    #[tactic(auto, using(crate::proofs::Quiet::quiet_without_dma, crate::proofs::Quiet::quiet_behind, std::proofs::lemmas::Bool::Decides::nat_tests))]
    pub fn quiet(&self, beam: &Beam, regs: &Regs, most: u16) -> u16
        requires inner { 0 < beam.now.h }
        ensures most { result ≤ most }
        ensures quiet { (k : ℕ) → k < result
            → ReadsNothing (later_beam k beam.now) regs.now self.now }
    {
        if beam.h > LAST_SLOT {
            return most;
        }
        if !has_dma(regs) && self.is_idle() {
            return most;
        }
        self.before_read(beam, regs, most)
    }

    /// For how many clocks of this line, from this one on and at most so many, no sprite reads anything, and
    /// none begins to.
    fn before_read(&self, beam: &Beam, regs: &Regs, most: u16) -> u16
        requires inner { 0 < beam.now.h }
        requires early { beam.now.h ≤ 0x33 }
        ensures most { result ≤ most }
        ensures quiet { (k : ℕ) → k < result
            → ReadsNothing (later_beam k beam.now) regs.now self.now }
    {
        let mut clocks = before_slot(beam.h);
        while clocks < most && beam.h + clocks <= LAST_SLOT {
            let slot = Beam {
                frame: beam.frame,
                v: beam.v,
                h: beam.h + clocks,
                lof: beam.lof,
            };
            if !self.is_idle_slot(&slot, regs) {
                return clocks;
            }
            // an idle first slot takes the sprite's second one with it
            clocks += if slot.h % 4 == 1 { 4 } else { 2 };
        }
        most
    }

    /// Whether the sprite of this slot reads nothing on this line, and does not begin to. Where this is its first
    /// slot, it then reads nothing in its second one either, two clocks later.
    #[tactic(auto, using(crate::proofs::Quiet::quiet_second, crate::proofs::Quiet::quiet_first, std::proofs::lemmas::Bool::Decides::nat_tests))]
    fn is_idle_slot(&self, beam: &Beam, regs: &Regs) -> bool
        requires { is_sprite_slot beam.now.h ≡ true }
        ensures here { result ≡ true → ReadsNothing beam.now regs.now self.now }
        ensures second { result ≡ true → beam.now.h % 4 ≡ 1
            → ReadsNothing (later_beam 2 beam.now) regs.now self.now }
    {
        let sprite = (beam.h - 0x15) / 4;
        if !is_nothing(self.kinds[sprite as usize]) {
            return false;
        }
        beam.h % 4 == 3 || is_nothing(kind(beam.v, sprite as u8, regs))
    }

    /// Whether no sprite reads anything on this line, as far as it is decided.
    fn is_idle(&self) -> bool
        ensures { result ≡ true → (sprite : ℕ) → sprite < 8
            → get_or self.now sprite Nothing ≡ Nothing }
    {
        for sprite in 0..8 {
            if !is_nothing(self.kinds[sprite]) {
                return false;
            }
        }
        true
    }

    /// Decides at a sprite's first slot what it reads on this line.
    #[tactic(auto, unfolding(serial_model::specs::SpriteFetch::kinds_at))]
    fn decide(&mut self, beam: &Beam, regs: &Regs)
        requires { is_sprite_slot beam.now.h ≡ true }
        ensures { self.new ≡ kinds_at beam.now regs.now self.old }
    {
        if beam.h % 4 == 1 {
            let sprite = (beam.h - 0x15) / 4;
            self.kinds[sprite as usize] = kind(beam.v, sprite as u8, regs);
        }
    }
}

/// Whether a sprite of this kind reads nothing.
fn is_nothing(kind: SpriteKind) -> bool
    ensures { result ≡ true → kind ≡ Nothing }
{
    matches!(kind, SpriteKind::Nothing)
}

/// How many clocks from clock `h` of a line on come before the next slot of a sprite, if there is one.
fn before_slot(h: u16) -> u16
    requires { h ≤ 0x33 }
    ensures few { h + result ≤ 0x35 }
    ensures slot { (h + result) % 2 ≡ 1 }
    ensures first { 0x15 ≤ h + result }
    ensures none { (k : ℕ) → k < result → is_sprite_slot (h + k) ≡ false }
{
    if h < FIRST_SLOT {
        FIRST_SLOT - h
    } else {
        1 - h % 2
    }
}

/// Whether clock `h` is a slot of a sprite.
fn is_slot(h: u16) -> bool
    ensures { result ≡ is_sprite_slot h }
{
    h % 2 == 1 && h >= 0x15 && h <= LAST_SLOT
}

/// Whether DMAEN and SPREN of DMACON are set.
fn has_dma(regs: &Regs) -> bool
    ensures { result ≡ dma_of regs.now }
{
    regs.word(Reg::masked(DMACON)) & 0x220 == 0x220
}

/// What a sprite reads on line `v`, by the registers as they are now.
fn kind(v: u16, sprite: u8, regs: &Regs) -> SpriteKind
    requires { sprite < 8 }
    ensures { result ≡ kind_of v regs.now sprite }
{
    if !has_dma(regs) {
        return SpriteKind::Nothing;
    }
    let pos = regs.word(Reg::masked(0x140 + 8 * sprite as u16));
    let ctl = regs.word(Reg::masked(0x142 + 8 * sprite as u16));
    kind_from(v, pos, ctl)
}

/// What a sprite with these words of SPRxPOS and SPRxCTL reads on line `v`. Bit 2 of SPRxCTL is bit 8 of the
/// line on which the image starts, and its bit 1 that of the line on which it stops.
fn kind_from(v: u16, pos: u16, ctl: u16) -> SpriteKind
    ensures { result ≡ kind_by v pos ctl }
{
    let start = pos / 0x100 + ctl / 4 % 2 * 0x100;
    let stop = ctl / 0x100 + ctl / 2 % 2 * 0x100;
    if v < FIRST_LINE {
        SpriteKind::Nothing
    } else if v == FIRST_LINE || v == stop {
        SpriteKind::Control
    } else if start <= v && v < stop {
        SpriteKind::Words
    } else {
        SpriteKind::Nothing
    }
}

/// The fetch of a sprite in its first or second slot, by what it reads on this line.
fn fetch(kind: SpriteKind, sprite: u8, second: bool, regs: &mut Regs) -> Option<SpriteAsk>
    requires { sprite < 8 }
    ensures ask { result ≡ ask_by_kind kind second regs.old sprite }
    ensures moved { regs.new ≡ move_if_asked result regs.old }
{
    let high = Reg::masked(0x120 + 4 * sprite as u16);
    let at = regs.pointer(high);
    let ask = match kind {
        SpriteKind::Nothing => return None,
        SpriteKind::Control => SpriteAsk::Control { sprite, second, at },
        SpriteKind::Words => SpriteAsk::Words { sprite, second, at },
    };
    regs.set_pointer(high, Addr::sized(at.size, at.raw() + 2));
    Some(ask)
}
