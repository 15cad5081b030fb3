//! The four channels together, and the side that they are.

ghost use Rattle.std.specs.Prelude.{◌≡◌, true, ◌+◌, ◌*◌, ◌^◌, ◌<◌, ◌≤◌};
ghost use Rattle.irq_cia.specs.Bits.{has_bits};
ghost use Rattle.ocs_base.specs.Sizes.{is_chip_size, size_of_bytes};
ghost use Rattle.paula_audio.specs.Paula.{reset_paula, paula_write, paula_tick, paula_bits, paula_ask, paula_word, left_of, right_of};
ghost use Rattle.paula_audio.specs.Paula.{paula_side, channel_ask as ask_of_channel};
ghost use Rattle.paula_audio.specs.code.Quiet.{paula_later, last_tick as last_clock};
ghost use Rattle.paula_audio.specs.Sound.{side_byte};
ghost use Rattle.serial_model.specs.Registers.{bit_worth};
ghost use Rattle.serial_model.specs.Side.{FitsSide, IsInTime, IsQuietSide};

use crate::channel::Channel;
use ocs_base::{Beam, ChipSize, Reg};
use serial_model::{Side, SideAsk};
use std::marker::Model;

/// DMAEN of DMACON.
const DMAEN: u16 = 0x200;

/// The four audio channels (Hardware Reference Manual, audio hardware). Channels 0 and 3 sound left, 1
/// and 2 right. `h` is the clock of the last tick, by which a word that is given finds its channel.
#[derive(Drop)]
pub struct Paula {
    zero: Channel,
    one: Channel,
    two: Channel,
    three: Channel,
    h: u16,
}

impl Model for Paula {
    ghost use Rattle.paula_audio.specs.Paula.{PaulaValue};

    ghost Value = { PaulaValue };

    ghost view = { λ p. record { zero = p.zero; one = p.one; two = p.two; three = p.three; h = p.h } };
}

impl Paula {
    /// The channels at reset, with so many bytes of chip memory: 524,288 or 1,048,576. All are off and
    /// silent, and every register is 0 (profile).
    pub fn reset(chip: u32) -> Paula
        requires { is_chip_size chip ≡ true }
        ensures reset { result ≡ reset_paula (size_of_bytes chip) }
        ensures fits { FitsSide chip (paula_side (reset_paula (size_of_bytes chip))) }
    {
        let channel = Channel::reset(ChipSize::of_bytes(chip));
        Paula {
            zero: channel,
            one: channel,
            two: channel,
            three: channel,
            h: 0,
        }
    }

    /// What sounds left and right, each a byte in two's complement: half the sum of the levels of channels
    /// 0 and 3, and of 1 and 2, rounded down (profile).
    pub fn pair(&self) -> (u8, u8)
        ensures left { result.0 ≡ left_of self.now }
        ensures right { result.1 ≡ right_of self.now }
    {
        (
            half_of_both(&self.zero, &self.three),
            half_of_both(&self.one, &self.two),
        )
    }

    /// A word was written to a register: those of channel n are AUDnLCH at 0A0 + 10n, and +2 AUDnLCL, +4
    /// AUDnLEN, +6 AUDnPER and +8 AUDnVOL.
    fn write(&mut self, reg: Reg, word: u16)
        ensures { self.new ≡ paula_write reg word self.old }
    {
        let place = reg.raw() % 16;
        match reg.raw() / 16 {
            10 => self.zero.write(place, word),
            11 => self.one.write(place, word),
            12 => self.two.write(place, word),
            13 => self.three.write(place, word),
            _ => {}
        }
    }

    /// A colour clock came: what each channel requests is its bit of INTREQ, 7 to 10.
    fn count(&mut self, beam: &Beam, dmacon: u16) -> u16
        ensures state { self.new ≡ paula_tick beam.now dmacon self.old }
        ensures bits { result ≡ paula_bits dmacon self.old }
    {
        self.h = beam.h;
        let zero = self.zero.tick(has_dma(dmacon, 1));
        let one = self.one.tick(has_dma(dmacon, 2));
        let two = self.two.tick(has_dma(dmacon, 4));
        let three = self.three.tick(has_dma(dmacon, 8));
        bit(zero, 0x080) + bit(one, 0x100) + bit(two, 0x200) + bit(three, 0x400)
    }

    /// What the channel whose clock it is asks for.
    fn wish(&self, beam: &Beam, dmacon: u16) -> SideAsk
        ensures ask { result ≡ paula_ask beam.now dmacon self.now }
        ensures time { IsInTime beam.now result }
    {
        match beam.h {
            13 => channel_ask(&self.zero, 0, has_dma(dmacon, 1)),
            15 => channel_ask(&self.one, 1, has_dma(dmacon, 2)),
            17 => channel_ask(&self.two, 2, has_dma(dmacon, 4)),
            19 => channel_ask(&self.three, 3, has_dma(dmacon, 8)),
            _ => SideAsk::Nothing,
        }
    }

    /// For how many clocks of the line no channel requests or asks for anything.
    fn still(&self, beam: &Beam, dmacon: u16, most: u16) -> u16
        ensures most { result ≤ most }
        ensures quiet { IsQuietSide beam.now dmacon result (paula_side self.now) }
    {
        let first = self.zero.quiet(beam.h, 13, has_dma(dmacon, 1), most);
        let second = self.one.quiet(beam.h, 15, has_dma(dmacon, 2), first);
        let third = self.two.quiet(beam.h, 17, has_dma(dmacon, 4), second);
        self.three.quiet(beam.h, 19, has_dma(dmacon, 8), third)
    }

    /// So many colour clocks of the line came.
    fn pass(&mut self, beam: &Beam, dmacon: u16, clocks: u16)
        requires room { beam.now.h + clocks ≤ 226 }
        ensures { self.new ≡ paula_later clocks beam.now dmacon self.old }
    {
        self.h = last_tick(self.h, beam, clocks);
        self.zero.skip(has_dma(dmacon, 1), clocks);
        self.one.skip(has_dma(dmacon, 2), clocks);
        self.two.skip(has_dma(dmacon, 4), clocks);
        self.three.skip(has_dma(dmacon, 8), clocks);
    }

    /// The channel whose clock it is was given a word.
    fn take(&mut self, word: u16)
        ensures { self.new ≡ paula_word word self.old }
    {
        match self.h {
            13 => self.zero.take(word),
            15 => self.one.take(word),
            17 => self.two.take(word),
            19 => self.three.take(word),
            _ => {}
        }
    }
}

impl Side for Paula {
    ghost seen = { paula_side };

    fn poke(&mut self, reg: Reg, word: u16) {
        self.write(reg, word);
    }

    fn tick(&mut self, beam: &Beam, dmacon: u16) -> u16 {
        self.count(beam, dmacon)
    }

    fn ask(&self, beam: &Beam, dmacon: u16) -> SideAsk {
        self.wish(beam, dmacon)
    }

    fn give(&mut self, word: u16) {
        self.take(word);
    }

    fn quiet(&self, beam: &Beam, dmacon: u16, most: u16) -> u16 {
        self.still(beam, dmacon, most)
    }

    fn skip(&mut self, beam: &Beam, dmacon: u16, clocks: u16) {
        self.pass(beam, dmacon, clocks);
    }
}

/// Whether DMAEN and a channel's bit of DMACON are set.
fn has_dma(dmacon: u16, channel: u16) -> bool
    requires { channel < 512 }
    ensures { result ≡ has_bits dmacon (0x200 + channel) }
{
    dmacon & (DMAEN + channel) == DMAEN + channel
}

/// The clock of the last of so many ticks, the first of which comes with the beam there; of none it is that of
/// the last one before, clock `h`.
fn last_tick(h: u16, beam: &Beam, clocks: u16) -> u16
    requires room { beam.now.h + clocks ≤ 226 }
    ensures { result ≡ last_clock clocks beam.now h }
{
    if clocks == 0 {
        return h;
    }
    beam.h + clocks - 1
}

/// A bit's worth where it is set.
fn bit(set: bool, worth: u16) -> u16
    ensures { result ≡ bit_worth set worth }
{
    if set { worth } else { 0 }
}

/// What a channel asks for at its clock.
fn channel_ask(channel: &Channel, number: u8, dma: bool) -> SideAsk
    ensures { result ≡ ask_of_channel number dma channel.now }
{
    if channel.wants(dma) {
        SideAsk::Audio {
            channel: number,
            at: channel.at,
        }
    } else {
        SideAsk::Nothing
    }
}

/// Half the sum of the levels of two channels, rounded down, as a byte in two's complement.
fn half_of_both(one: &Channel, other: &Channel) -> u8
    ensures { result ≡ side_byte one.now other.now }
{
    let half = (one.level() + other.level()).div_euclid(2);
    half.rem_euclid(256) as u8
}
