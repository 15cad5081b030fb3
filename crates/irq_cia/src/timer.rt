//! A timer of a CIA.

ghost use Rattle.std.specs.Prelude.{◌≡◌, true};
ghost use Rattle.irq_cia.specs.Bits.{has_bits};
ghost use Rattle.irq_cia.specs.Timer.{reset_timer, has_start, has_one_shot, counts_as_a, counts_as_b};
ghost use Rattle.irq_cia.specs.Timer.{is_underflow};
ghost use Rattle.irq_cia.specs.Timer.{after_underflow, after_count, after_low_write, after_high_write};
ghost use Rattle.irq_cia.specs.Timer.{after_control_write};
ghost use Rattle.irq_cia.specs.Ticks.{counts_left, is_far, lowered};

/// START of a control register.
const START: u8 = 0x01;

/// One-shot of a control register.
const ONE_SHOT: u8 = 0x08;

/// The load strobe of a control register, which is not kept.
const LOAD: u8 = 0x10;

/// CRA: count CNT. CRB: the lower bit of the input mode.
const INPUT_LOW: u8 = 0x20;

/// CRB: count the underflows of timer A.
const INPUT_HIGH: u8 = 0x40;

/// A timer with its latch, its counter and its control register, CRA or CRB (Hardware Reference Manual,
/// 8520 CIA, interval timers).
#[derive(Drop)]
pub struct Timer {
    pub latch: u16,
    pub counter: u16,
    pub control: u8,
}

impl Timer {
    /// Latch and counter FFFF, and stopped (profile).
    pub fn reset() -> Timer
        ensures { result ≡ reset_timer }
    {
        Timer {
            latch: 0xffff,
            counter: 0xffff,
            control: 0,
        }
    }

    /// The same state once more.
    pub fn copied(&self) -> Timer
        ensures { result ≡ self.now }
    {
        Timer {
            latch: self.latch,
            counter: self.counter,
            control: self.control,
        }
    }

    /// Whether these bits of the control register are all set.
    fn has(&self, bits: u8) -> bool
        ensures { result ≡ has_bits self.now.control bits }
    {
        self.control & bits == bits
    }

    /// Whether START is set.
    pub fn is_started(&self) -> bool
        ensures { result ≡ has_start self.now }
    {
        self.has(START)
    }

    /// Whether it counts this tick as timer A: CRA bit 5 set would count CNT, which never comes.
    pub fn counts_ticks(&self) -> bool
        ensures { result ≡ counts_as_a self.now }
    {
        self.has(START) && !self.has(INPUT_LOW)
    }

    /// Whether it counts this tick as timer B: CRB bits 6 and 5 are 00 for ticks, 01 for CNT, which never
    /// comes, 10 for the underflows of timer A, and 11 for the same (profile).
    pub fn counts_cascade(&self, underflow: bool) -> bool
        ensures { result ≡ counts_as_b underflow self.now }
    {
        if !self.has(START) {
            false
        } else if self.has(INPUT_HIGH) {
            underflow
        } else {
            !self.has(INPUT_LOW)
        }
    }

    /// One tick, at which it counts or not. The answer is whether it underflows: a counter of 0 becomes the
    /// latch, and in one-shot START is cleared.
    pub fn count(&mut self, counts: bool) -> bool
        ensures timer { self.new ≡ after_count counts self.old }
        ensures underflow { result ≡ is_underflow counts self.old }
    {
        if !counts {
            return false;
        }
        if self.counter > 0 {
            self.counter -= 1;
            return false;
        }
        self.counter = self.latch;
        if self.has(ONE_SHOT) {
            self.control &= !START;
        }
        true
    }

    /// So many ticks, not above its counter, at each of which it counts or not.
    pub fn lower(&mut self, counts: bool, ticks: u16)
        requires { is_far counts ticks self.old ≡ true }
        ensures { self.new ≡ lowered ticks counts self.old }
    {
        if counts {
            self.counter -= ticks;
        }
    }

    /// How many ticks it counts, at each or at none, before it underflows; 65,535 where it does not count.
    pub fn left(&self, counts: bool) -> u16
        ensures exact { result ≡ counts_left counts self.now }
        ensures far { is_far counts result self.now ≡ true }
    {
        if counts { self.counter } else { 0xffff }
    }

    /// A write of the latch's low byte.
    pub fn write_low(&mut self, byte: u8)
        ensures { self.new ≡ after_low_write byte self.old }
    {
        self.latch = self.latch / 256 * 256 + byte as u16;
    }

    /// A write of the latch's high byte. In one-shot it loads the counter and sets START; otherwise it loads
    /// the counter of a timer whose START is 0.
    pub fn write_high(&mut self, byte: u8)
        ensures { self.new ≡ after_high_write byte self.old }
    {
        self.latch = byte as u16 * 256 + self.latch % 256;
        if self.has(ONE_SHOT) {
            self.counter = self.latch;
            self.control |= START;
        } else if !self.has(START) {
            self.counter = self.latch;
        }
    }

    /// A write of the control register. The load strobe makes the counter the latch and is not kept.
    pub fn write_control(&mut self, byte: u8)
        ensures { self.new ≡ after_control_write byte self.old }
    {
        self.control = byte & !LOAD;
        if byte & LOAD == LOAD {
            self.counter = self.latch;
        }
    }
}
