//! One audio channel.

ghost use Rattle.std.specs.Prelude.{◌≡◌, ◌≤◌, ◌<◌, ◌+◌, ◌≤ℤ◌, pos, negsuc, true, is_some};
ghost use Rattle.paula_audio.specs.Channel.{or_most as most_of, reset_channel, after_load, after_start, after_stop, after_switch};
ghost use Rattle.paula_audio.specs.Channel.{next_half as half_after, after_tick, is_requested, wants_word, after_fetch, after_word};
ghost use Rattle.paula_audio.specs.Channel.{after_count, after_write};
ghost use Rattle.paula_audio.specs.code.Quiet.{ticked, counted, IsQuietChannel};
ghost use Rattle.paula_audio.specs.Sound.{level_of, volume_of, signed_byte};

use ocs_base::{Addr, ChipSize};

/// A channel between two colour clocks. `at` is where it fetches next, with `left` words to go until it
/// begins anew; `held` is a word that was fetched and does not sound yet, and `word` the one that does,
/// with `second` where its low byte is next; `counter` is how many clocks the present half still has.
/// `sample` is the byte that sounds, in two's complement. Then come the words of its five registers
/// AUDxLCH, AUDxLCL, AUDxLEN, AUDxPER and AUDxVOL; and `due` says that the next tick requests its
/// interrupt.
#[derive(Clone, Copy)]
pub struct Channel {
    pub on: bool,
    pub at: Addr,
    pub left: u32,
    pub held: Option<u16>,
    pub word: u16,
    pub second: bool,
    pub counter: u32,
    pub sample: u8,
    pub high: u16,
    pub low: u16,
    pub length: u16,
    pub period: u16,
    pub volume: u16,
    pub due: bool,
}

impl Channel {
    /// A channel at reset, with a chip memory of this size: off, silent, and all else 0 (profile).
    pub fn reset(size: ChipSize) -> Channel
        ensures { result ≡ reset_channel size }
    {
        Channel {
            on: false,
            at: Addr::sized(size, 0),
            left: 0,
            held: None,
            word: 0,
            second: false,
            counter: 0,
            sample: 0,
            high: 0,
            low: 0,
            length: 0,
            period: 0,
            volume: 0,
            due: false,
        }
    }

    /// A word was written to the register at this place among those of the channel, in bytes from AUDxLCH.
    pub fn write(&mut self, place: u16, word: u16)
        ensures { self.new ≡ after_write place word self.old }
    {
        match place {
            0 => self.high = word,
            2 => self.low = word,
            4 => self.length = word,
            6 => self.period = word,
            8 => self.volume = word,
            _ => {}
        }
    }

    /// A colour clock came; `dma` says that DMAEN and the channel's bit of DMACON are set. The answer is
    /// whether it requests its interrupt.
    pub fn tick(&mut self, dma: bool) -> bool
        ensures state { self.new ≡ after_tick dma self.old }
        ensures request { result ≡ is_requested dma self.old }
    {
        let requested = self.requests(dma);
        self.due = false;
        self.switch(dma);
        if self.on {
            self.count();
        }
        requested
    }

    /// The channel becomes on or off, or stays as it is.
    fn switch(&mut self, dma: bool)
        ensures { self.new ≡ after_switch dma self.old }
    {
        if !dma {
            self.stop();
        } else if !self.on {
            self.start();
        }
    }

    /// It becomes on: it begins at LC with nothing held.
    fn start(&mut self)
        ensures { self.new ≡ after_start self.old }
    {
        self.load();
        self.on = true;
        self.held = None;
        self.second = false;
        self.counter = 0;
    }

    /// It becomes off and silent.
    fn stop(&mut self)
        ensures { self.new ≡ after_stop self.old }
    {
        self.on = false;
        self.sample = 0;
    }

    /// The pointer is LC again, and as many words are left as LEN says.
    fn load(&mut self)
        ensures { self.new ≡ after_load self.old }
    {
        self.at = Addr::sized(
            self.at.size,
            65_536 * u32::from(self.high) + u32::from(self.low),
        );
        self.left = or_most(self.length);
    }

    /// A clock of a channel that is on: its counter falls, and at 0 the next half begins.
    fn count(&mut self)
        ensures { self.new ≡ after_count self.old }
    {
        self.counter = self.counter.saturating_sub(1);
        if self.counter == 0 {
            self.next_half();
        }
    }

    /// The low byte of the present word sounds, or else the high byte of the one that is held, if any is.
    fn next_half(&mut self)
        ensures { self.new ≡ half_after self.old }
    {
        if self.second {
            self.sample = (self.word % 256) as u8;
            self.second = false;
            self.counter = or_most(self.period);
        } else if let Some(word) = self.held {
            self.word = word;
            self.held = None;
            self.sample = (word / 256) as u8;
            self.second = true;
            self.counter = or_most(self.period);
        }
    }

    /// For how many clocks from clock `h` of a line on, at most so many, it requests no interrupt, and asks for
    /// no word at its own clock `slot`; nothing hangs on it but how fast a run is. `dma` says that its bits of
    /// DMACON are set in them.
    pub fn quiet(&self, h: u16, slot: u16, dma: bool, most: u16) -> u16
        ensures most { result ≤ most }
        ensures quiet { IsQuietChannel h slot dma result self.now }
    {
        if self.requests(dma) {
            return 0;
        }
        if !dma {
            return most;
        }
        if slot < h {
            return most;
        }
        let before = slot - h;
        if most <= before {
            return most;
        }
        if self.holds_for(before) {
            return most;
        }
        before
    }

    /// Whether the next tick requests its interrupt.
    fn requests(&self, dma: bool) -> bool
        ensures { result ≡ is_requested dma self.now }
    {
        self.due || (dma && !self.on)
    }

    /// Whether it holds a word still at the tick behind so many.
    fn holds_for(&self, ticks: u16) -> bool
        ensures held { result ≡ true → is_some (self.now).held ≡ true }
        ensures far { result ≡ true → ticks + 1 < (self.now).counter }
    {
        self.held.is_some() && self.counter > u32::from(ticks) + 1
    }

    /// So many colour clocks came, in each of which `dma` says the same: as many ticks.
    pub fn skip(&mut self, dma: bool, clocks: u16)
        ensures { self.new ≡ ticked dma clocks self.old }
    {
        if clocks == 0 {
            return;
        }
        self.tick(dma);
        if dma {
            self.count_for(clocks - 1);
        }
    }

    /// So many clocks of a channel that is on.
    fn count_for(&mut self, clocks: u16)
        ensures { self.new ≡ counted clocks self.old }
    {
        let mut left = u32::from(clocks);
        while left > 0 {
            left -= self.count_to_half(left);
        }
    }

    /// The clocks up to that at which its counter comes to 0 and the next half begins, or as many as these.
    /// The answer is how many.
    fn count_to_half(&mut self, most: u32) -> u32
        requires { 0 < most }
        ensures some { 0 < result }
        ensures most { result ≤ most }
        ensures counted { self.new ≡ counted result self.old }
    {
        if most < self.counter {
            self.counter -= most;
            return most;
        }
        let clocks = self.counter.max(1);
        self.counter = self.counter.saturating_sub(clocks);
        self.next_half();
        clocks
    }

    /// Whether it asks for a word at its clock: while it is on and holds none.
    pub fn wants(&self, dma: bool) -> bool
        ensures { result ≡ wants_word dma self.now }
    {
        self.on && self.held.is_none() && dma
    }

    /// It is given a word. A channel that is off or holds one takes none.
    pub fn take(&mut self, word: u16)
        ensures { self.new ≡ after_word word self.old }
    {
        if self.on && self.held.is_none() {
            self.advance();
            self.held = Some(word);
        }
    }

    /// The pointer moves to the next word, after the last one to the first.
    fn advance(&mut self)
        ensures { self.new ≡ after_fetch self.old }
    {
        let left = self.left.saturating_sub(1);
        if left == 0 {
            self.load();
            self.due = true;
        } else {
            self.at = Addr::sized(self.at.size, self.at.raw() + 2);
            self.left = left;
        }
    }

    /// What it sounds: its sample times a 64th of its volume, rounded down.
    pub fn level(&self) -> i32
        ensures level { result ≡ level_of self.now }
        ensures least { negsuc 127 ≤ℤ result }
        ensures most { result ≤ℤ pos 127 }
    {
        (signed(self.sample) * i32::from(self.loudness())).div_euclid(64)
    }

    /// Bits 6 to 0 of AUDxVOL, of which those above 64 count as 64.
    fn loudness(&self) -> u8
        ensures { result ≡ volume_of self.now }
    {
        ((self.volume % 128) as u8).min(64)
    }
}

/// The number that a byte in two's complement stands for.
fn signed(byte: u8) -> i32
    ensures value { result ≡ signed_byte byte }
    ensures least { negsuc 127 ≤ℤ result }
    ensures most { result ≤ℤ pos 127 }
{
    if byte < 128 {
        i32::from(byte)
    } else {
        i32::from(byte) - 256
    }
}

/// What LEN and PER say: 0 means 65,536.
fn or_most(number: u16) -> u32
    ensures { result ≡ most_of number }
{
    if number == 0 {
        65_536
    } else {
        u32::from(number)
    }
}
