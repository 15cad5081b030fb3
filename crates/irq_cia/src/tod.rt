//! The time of day of a CIA.

ghost use Rattle.std.specs.Prelude.{◌≡◌};
ghost use Rattle.irq_cia.specs.Tod.{reset_tod, next_time, after_tod_count, meets_alarm, low_of, middle_of};
ghost use Rattle.irq_cia.specs.Tod.{high_of, time_seen};
ghost use Rattle.irq_cia.specs.Tod.{with_low as low_put, with_middle as middle_put, with_high as high_put};
ghost use Rattle.irq_cia.specs.Tod.{after_low_read, after_high_read, after_low_set, after_middle_set};
ghost use Rattle.irq_cia.specs.Tod.{after_high_set};

/// The time of day: a count of 24 bits, its alarm, whether it counts, and the time that was held by a read
/// of its high byte (Hardware Reference Manual, 8520 CIA, time of day).
#[derive(Drop)]
pub struct Tod {
    pub time: u32,
    pub alarm: u32,
    pub counting: bool,
    pub held: Option<u32>,
}

impl Tod {
    /// Time and alarm 0, counting (profile).
    pub fn reset() -> Tod
        ensures { result ≡ reset_tod }
    {
        Tod {
            time: 0,
            alarm: 0,
            counting: true,
            held: None,
        }
    }

    /// The same state once more.
    pub fn copied(&self) -> Tod
        ensures { result ≡ self.now }
    {
        Tod {
            time: self.time,
            alarm: self.alarm,
            counting: self.counting,
            held: self.held,
        }
    }

    /// One count. The answer is whether it made the time the alarm.
    pub fn count(&mut self) -> bool
        ensures tod { self.new ≡ after_tod_count self.old }
        ensures alarm { result ≡ meets_alarm self.old }
    {
        if !self.counting {
            return false;
        }
        self.time = self.time.wrapping_add(1) % 0x100_0000;
        self.time == self.alarm
    }

    /// The time that reads see: the held one, else the present one.
    fn visible_time(&self) -> u32
        ensures { result ≡ time_seen self.now }
    {
        match self.held {
            Some(time) => time,
            None => self.time,
        }
    }

    /// A read of TODLO, which lets go of the held time.
    pub fn read_low(&mut self) -> u8
        ensures tod { self.new ≡ after_low_read self.old }
        ensures byte { result ≡ low_of (time_seen self.old) }
    {
        let time = self.visible_time();
        self.held = None;
        (time % 256) as u8
    }

    /// A read of TODMID.
    pub fn read_middle(&self) -> u8
        ensures { result ≡ middle_of (time_seen self.now) }
    {
        (self.visible_time() / 256 % 256) as u8
    }

    /// A read of TODHI, which holds the time for the reads up to that of TODLO.
    pub fn read_high(&mut self) -> u8
        ensures tod { self.new ≡ after_high_read self.old }
        ensures byte { result ≡ high_of (time_seen self.old) }
    {
        let time = self.visible_time();
        self.held = Some(time);
        (time / 0x1_0000 % 256) as u8
    }

    /// A write of TODLO: of the alarm, or of the time, which then counts.
    pub fn write_low(&mut self, to_alarm: bool, byte: u8)
        ensures { self.new ≡ after_low_set to_alarm byte self.old }
    {
        if to_alarm {
            self.alarm = with_low(self.alarm, byte);
        } else {
            self.time = with_low(self.time, byte);
            self.counting = true;
        }
    }

    /// A write of TODMID: of the alarm or of the time.
    pub fn write_middle(&mut self, to_alarm: bool, byte: u8)
        ensures { self.new ≡ after_middle_set to_alarm byte self.old }
    {
        if to_alarm {
            self.alarm = with_middle(self.alarm, byte);
        } else {
            self.time = with_middle(self.time, byte);
        }
    }

    /// A write of TODHI: of the alarm, or of the time, which then stands still (profile).
    pub fn write_high(&mut self, to_alarm: bool, byte: u8)
        ensures { self.new ≡ after_high_set to_alarm byte self.old }
    {
        if to_alarm {
            self.alarm = with_high(self.alarm, byte);
        } else {
            self.time = with_high(self.time, byte);
            self.counting = false;
        }
    }
}

/// A time with another low byte.
fn with_low(time: u32, byte: u8) -> u32
    ensures { result ≡ low_put byte time }
{
    time / 256 * 256 + byte as u32
}

/// A time with another middle byte.
fn with_middle(time: u32, byte: u8) -> u32
    ensures { result ≡ middle_put byte time }
{
    time / 0x1_0000 * 0x1_0000 + byte as u32 * 256 + time % 256
}

/// A time with another high byte.
fn with_high(time: u32, byte: u8) -> u32
    ensures { result ≡ high_put byte time }
{
    byte as u32 * 0x1_0000 + time % 0x1_0000
}
