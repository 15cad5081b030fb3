//! The disk, and the side that it is.

ghost use Rattle.std.specs.Prelude.{◌≡◌, ◌≤◌, ◌<◌, ◌+◌, ℕ, true, false, IfOk};
ghost use Rattle.disk_dma.specs.Disk.{new_disk, disk_write, disk_tick, disk_bits, disk_ask, disk_given, disk_side};
ghost use Rattle.disk_dma.specs.Disk.{after_length, with_high_half, with_low_half, after_arrival, is_sync_next};
ghost use Rattle.disk_dma.specs.Disk.{is_arrival as arrives, is_disk_clock as disk_clock};
ghost use Rattle.disk_dma.specs.Disk.{has_disk_dma, ask_first as first_ask, with_queue, after_store};
ghost use Rattle.disk_dma.specs.code.Disk.{ends_transfer, after_end, after_begin, wants_word, join_if_wanted};
ghost use Rattle.disk_dma.specs.code.Queue.{words_in};
ghost use Rattle.disk_dma.specs.Track.{is_track};
ghost use Rattle.irq_cia.specs.Bits.{set_or_clear as set_or_clear_of};
ghost use Rattle.ocs_base.specs.Sizes.{is_chip_size, size_of_bytes};
ghost use Rattle.serial_model.specs.Registers.{bit_worth};
ghost use Rattle.serial_model.specs.Side.{FitsSide, IsInTime, IsQuietSide};

use crate::queue::Queue;
use crate::track::{next_place, word_at};
use ocs_base::{Addr, Beam, ChipSize, OutOfMemory, Reg};
use serial_model::{Side, SideAsk};
use std::alloc::Global;
use std::marker::Model;

/// High word of the pointer.
const DSKPTH: u16 = 0x020;

/// Low word of the pointer.
const DSKPTL: u16 = 0x022;

/// The length: bit 15 enables, bit 14 is for writing to the disk, bits 13 to 0 are the number of words.
const DSKLEN: u16 = 0x024;

/// The word that is waited for.
const DSKSYNC: u16 = 0x07e;

/// Audio and disk control; a written word's bit 15 says whether its other 1 bits are set or cleared.
const ADKCON: u16 = 0x09e;

/// WORDSYNC of ADKCON.
const WORDSYNC: u16 = 0x400;

/// DMAEN and DSKEN of DMACON.
const DISK_DMA: u16 = 0x210;

/// The last of the disk's three clocks of a line.
const LAST_CLOCK: u16 = 11;

/// DSKSYN of INTREQ.
const DSKSYN: u16 = 0x1000;

/// DSKBLK of INTREQ.
const DSKBLK: u16 = 0x0002;

/// A drive's track that turns, and the disk controller that reads it. `place` is the number of the word
/// that arrives next. A transfer is `armed` by a first write of DSKLEN and started by a second; `wanted`
/// words of the track are still to join the queue, and `stored` words are still to be stored. `synced`
/// says that the word of DSKSYNC has passed since the start. `due` says that the next tick requests
/// DSKBLK.
#[derive(Drop)]
pub struct Disk {
    track: Vec<u8>,
    place: usize,
    armed: bool,
    running: bool,
    synced: bool,
    wanted: u16,
    stored: u16,
    queue: Queue,
    at: Addr,
    length: u16,
    sync: u16,
    control: u16,
    due: bool,
}

impl Model for Disk {
    ghost use Rattle.std.specs.Prelude.{◌<◌, ◌/◌, length as length_of};
    ghost use Rattle.disk_dma.specs.Disk.{DiskValue};
    ghost use Rattle.disk_dma.specs.code.Queue.{words_in};

    ghost Value = { DiskValue };

    ghost view = { λ d. record {
      track = d.track.items;
      place = d.place;
      armed = d.armed;
      running = d.running;
      synced = d.synced;
      wanted = d.wanted;
      stored = d.stored;
      queue = words_in d.queue;
      at = d.at;
      length = d.length;
      sync = d.sync;
      control = d.control;
      due = d.due;
    } };

    ghost invariant = { λ d. d.place < length_of d.track.items / 2 };
}

impl Disk {
    /// A disk with this track, an even number of 2 to 32,768 bytes, at its first word, and with so many
    /// bytes of chip memory: 524,288 or 1,048,576. Nothing runs, and every register is 0 (profile).
    pub fn new(alloc: Global, track: &[u8], chip: u32) -> Result<Disk, OutOfMemory>
        requires form { is_track track.now ≡ true }
        requires size { is_chip_size chip ≡ true }
        ensures made { IfOk result (λ disk. disk ≡ new_disk track.now (size_of_bytes chip)) }
        ensures fits { FitsSide chip (disk_side (new_disk track.now (size_of_bytes chip))) }
    {
        let size = ChipSize::of_bytes(chip);
        Ok(Disk {
            track: Vec::from_slice(alloc, track)?,
            place: 0,
            armed: false,
            running: false,
            synced: false,
            wanted: 0,
            stored: 0,
            queue: Queue::Empty,
            at: Addr::sized(size, 0),
            length: 0,
            sync: 0,
            control: 0,
            due: false,
        })
    }

    /// A word was written to a register. A write of one half of the pointer leaves the other half as it is
    /// by then.
    fn write(&mut self, reg: Reg, word: u16)
        ensures { self.new ≡ disk_write reg word self.old }
    {
        match reg.raw() {
            DSKPTH => self.write_high(word),
            DSKPTL => self.write_low(word),
            DSKLEN => self.write_length(word),
            DSKSYNC => self.sync = word,
            ADKCON => self.control = set_or_clear(self.control, word),
            _ => {}
        }
    }

    fn write_high(&mut self, word: u16)
        ensures { self.new ≡ with_high_half word self.old }
    {
        let low = self.at.raw() % 65_536;
        self.at = Addr::sized(self.at.size, 65_536 * u32::from(word) + low);
    }

    fn write_low(&mut self, word: u16)
        ensures { self.new ≡ with_low_half word self.old }
    {
        let high = self.at.raw() / 65_536 * 65_536;
        self.at = Addr::sized(self.at.size, high + u32::from(word));
    }

    /// DSKLEN was written: with bit 15 clear or bit 14 set it ends what is armed and what runs; else a first
    /// write arms, and the next starts.
    fn write_length(&mut self, word: u16)
        ensures { self.new ≡ after_length word self.old }
    {
        self.length = word;
        if is_end(word) {
            self.end();
        } else if self.armed {
            self.begin(word % 0x4000);
        } else {
            self.armed = true;
        }
    }

    fn end(&mut self)
        ensures { self.new ≡ after_end self.old }
    {
        self.armed = false;
        self.running = false;
        self.queue = Queue::Empty;
    }

    /// A transfer of so many words begins; one of no words is done at the next tick.
    fn begin(&mut self, count: u16)
        ensures { self.new ≡ after_begin count self.old }
    {
        self.armed = false;
        self.running = count != 0;
        self.synced = false;
        self.wanted = count;
        self.stored = count;
        self.queue = Queue::Empty;
        self.due = self.due || count == 0;
    }

    /// A colour clock came: it requests DSKSYN where the word that arrives is that of DSKSYNC, and DSKBLK
    /// where a transfer is over.
    fn turn(&mut self, beam: &Beam) -> u16
        ensures state { self.new ≡ disk_tick beam.now self.old }
        ensures bits { result ≡ disk_bits beam.now self.old }
    {
        let block = bit(self.due, DSKBLK);
        self.due = false;
        let sync = if is_arrival(beam.h) {
            self.arrive()
        } else {
            false
        };
        bit(sync, DSKSYN) + block
    }

    /// The word at the place arrives, and the track turns to the next. The answer is whether it is that of
    /// DSKSYNC.
    fn arrive(&mut self) -> bool
        ensures state { self.new ≡ after_arrival self.old }
        ensures sync { result ≡ is_sync_next self.old }
    {
        let word = word_at(&self.track, self.place);
        let is_sync = word == self.sync;
        self.join(word);
        self.synced = self.synced || is_sync;
        self.place = next_place(&self.track, self.place);
        is_sync
    }

    /// A word that arrived joins the queue, where the transfer takes it and there is room; where there is
    /// none it is lost, and still wanted.
    fn join(&mut self, word: u16)
        ensures { self.new ≡ join_if_wanted word self.old }
    {
        if self.takes() && self.queue.has_room() {
            self.queue = self.queue.with_word(word);
            self.wanted = self.wanted.saturating_sub(1);
        }
    }

    /// Whether a running transfer takes the word that arrives.
    fn takes(&self) -> bool
        ensures { result ≡ wants_word self.now }
    {
        let lets_in = self.control & WORDSYNC != WORDSYNC || self.synced;
        self.running && self.wanted != 0 && lets_in
    }

    /// What it asks for: to store the queue's first word, at clocks 7, 9 and 11 of a line.
    fn wish(&self, beam: &Beam, dmacon: u16) -> SideAsk
        ensures ask { result ≡ disk_ask beam.now dmacon self.now }
        ensures time { IsInTime beam.now result }
    {
        if is_disk_clock(beam.h) && has_dma(dmacon) {
            self.ask_first()
        } else {
            SideAsk::Nothing
        }
    }

    fn ask_first(&self) -> SideAsk
        ensures { result ≡ first_ask (self.now).queue (self.now).at }
    {
        let at = self.at;
        match self.queue {
            Queue::Empty => SideAsk::Nothing,
            Queue::One(word) => SideAsk::Disk { at, word },
            Queue::Two(word, _) => SideAsk::Disk { at, word },
            Queue::Three(word, _, _) => SideAsk::Disk { at, word },
        }
    }

    /// For how many clocks of the line it requests nothing and asks for nothing: where no transfer is over, up to
    /// the next word that arrives, and where words wait behind its three clocks alone.
    fn still(&self, beam: &Beam, dmacon: u16, most: u16) -> u16
        ensures most { result ≤ most }
        ensures quiet { IsQuietSide beam.now dmacon result (disk_side self.now) }
    {
        if self.due {
            return 0;
        }
        let clocks = before_arrival(beam.h, most);
        if self.queue.is_empty() {
            return clocks;
        }
        if beam.h <= LAST_CLOCK {
            return 0;
        }
        clocks
    }

    /// The queue's first word was stored, where there is one, and leaves.
    fn take(&mut self)
        ensures { self.new ≡ disk_given self.old }
    {
        match self.queue {
            Queue::Empty => {}
            Queue::One(_) => self.store(Queue::Empty),
            Queue::Two(_, second) => self.store(Queue::One(second)),
            Queue::Three(_, second, third) => self.store(Queue::Two(second, third)),
        }
    }

    /// A word was stored, and these wait behind it: the pointer moves by 2, and after the last word the
    /// transfer is over.
    fn store(&mut self, behind: Queue)
        ensures { self.new ≡ after_store (with_queue (words_in behind) self.old) }
    {
        self.queue = behind;
        self.at = Addr::sized(self.at.size, self.at.raw() + 2);
        self.stored = self.stored.saturating_sub(1);
        if self.stored == 0 {
            self.running = false;
            self.due = true;
        }
    }
}

impl Side for Disk {
    ghost seen = { disk_side };

    fn poke(&mut self, reg: Reg, word: u16) {
        self.write(reg, word);
    }

    fn tick(&mut self, beam: &Beam, _dmacon: u16) -> u16 {
        self.turn(beam)
    }

    fn ask(&self, beam: &Beam, dmacon: u16) -> SideAsk {
        self.wish(beam, dmacon)
    }

    fn give(&mut self, _word: u16) {
        self.take();
    }

    fn quiet(&self, beam: &Beam, dmacon: u16, most: u16) -> u16 {
        self.still(beam, dmacon, most)
    }
}

/// Whether a word of DSKLEN ends a transfer: its bit 15 is clear, or its bit 14 is set.
fn is_end(word: u16) -> bool
    ensures { result ≡ ends_transfer word }
{
    word < 0x8000 || word >= 0xc000
}

/// Whether a word of the track arrives at this clock of a line (profile).
fn is_arrival(h: u16) -> bool
    ensures { result ≡ arrives h }
{
    h == 6 || h == 120
}

/// How many clocks of a line, from this one on and at most so many, come before a word of the track arrives.
fn before_arrival(h: u16, most: u16) -> u16
    ensures most { result ≤ most }
    ensures none { (k : ℕ) → k < result → arrives (h + k) ≡ false }
{
    if h <= 6 {
        most.min(6 - h)
    } else if h <= 120 {
        most.min(120 - h)
    } else {
        most
    }
}

/// Whether this clock of a line is one of the disk's three.
fn is_disk_clock(h: u16) -> bool
    ensures { result ≡ disk_clock h }
{
    h == 7 || h == 9 || h == 11
}

/// Whether DMAEN and DSKEN of DMACON are set.
fn has_dma(dmacon: u16) -> bool
    ensures { result ≡ has_disk_dma dmacon }
{
    dmacon & DISK_DMA == DISK_DMA
}

/// The kept word of ADKCON after a write, whose bit 15 says whether its other 1 bits are set or cleared.
fn set_or_clear(old: u16, word: u16) -> u16
    ensures { result ≡ set_or_clear_of 0x7fff old word }
{
    if word >= 0x8000 {
        old | word & 0x7fff
    } else {
        old & !word
    }
}

/// A bit's worth where it is set.
fn bit(set: bool, worth: u16) -> u16
    ensures { result ≡ bit_worth set worth }
{
    if set { worth } else { 0 }
}
