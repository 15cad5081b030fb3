//! A CIA: two ports, two timers, the time of day, the serial register and the interrupt control register.

ghost use Rattle.std.specs.Prelude.{◌≡◌, ◌<◌, true};
ghost use Rattle.irq_cia.specs.Cia.{register_at, reset_cia, after_tick, after_tod_pulse, after_key, byte_at};
ghost use Rattle.irq_cia.specs.Cia.{after_read, sets_alarm as alarm_set};
ghost use Rattle.irq_cia.specs.Cia.{after_write};
ghost use Rattle.irq_cia.specs.Icr.{is_active};
ghost use Rattle.irq_cia.specs.Ticks.{HasNoUnderflow, both_stand, ticks_before_underflow, ticks_on};

use crate::icr::Icr;
use crate::port::Port;
use crate::timer::Timer;
use crate::tod::Tod;
use std::marker::Model;

/// The flag of timer A in ICR.
const TIMER_A: u8 = 0;

/// The flag of timer B in ICR.
const TIMER_B: u8 = 1;

/// The flag of the alarm in ICR.
const ALARM: u8 = 2;

/// The flag of the serial register in ICR.
const SERIAL: u8 = 3;

/// CRB bit 7: writes to the time of day set the alarm.
const TO_ALARM: u8 = 0x80;

/// What a CIA keeps.
#[derive(Drop)]
pub struct CiaState {
    pub port_a: Port,
    pub port_b: Port,
    pub timer_a: Timer,
    pub timer_b: Timer,
    pub tod: Tod,
    pub serial: u8,
    pub icr: Icr,
}

impl CiaState {
    /// The same state once more.
    pub fn copied(&self) -> CiaState
        ensures { result ≡ self.now }
    {
        CiaState {
            port_a: self.port_a.copied(),
            port_b: self.port_b.copied(),
            timer_a: self.timer_a.copied(),
            timer_b: self.timer_b.copied(),
            tod: self.tod.copied(),
            serial: self.serial,
            icr: self.icr.copied(),
        }
    }
}

/// The registers of a CIA.
#[derive(Clone, Copy)]
pub enum Register {
    PortA,
    PortB,
    DirectionA,
    DirectionB,
    TimerALow,
    TimerAHigh,
    TimerBLow,
    TimerBHigh,
    TodLow,
    TodMiddle,
    TodHigh,
    Unused,
    Serial,
    InterruptControl,
    ControlA,
    ControlB,
}

/// One of the two CIAs, which are alike (Hardware Reference Manual, 8520 CIA). Its timers tick once in five
/// colour clocks.
#[derive(Drop)]
pub struct Cia {
    state: CiaState,
}

impl Model for Cia {
    ghost use Rattle.irq_cia.specs.declared.cia.CiaState.{CiaState};

    ghost Value = { CiaState };

    ghost view = { λ c. c.state };
}

impl Cia {
    /// A CIA at reset: latches and counters FFFF, time of day and alarm 0, the time of day counting, and all
    /// else 0 (profile).
    #[tactic(auto, unfolding(crate::specs::Cia::reset_cia))]
    pub fn reset() -> Cia
        ensures { result ≡ reset_cia }
    {
        Cia {
            state: CiaState {
                port_a: Port::reset(),
                port_b: Port::reset(),
                timer_a: Timer::reset(),
                timer_b: Timer::reset(),
                tod: Tod::reset(),
                serial: 0,
                icr: Icr::reset(),
            },
        }
    }

    /// The same state once more.
    pub fn copied(&self) -> Cia
        ensures { result ≡ self.now }
    {
        Cia {
            state: self.state.copied(),
        }
    }

    /// One tick of the timers, which is five colour clocks. Timer A comes before timer B, which may count
    /// A's underflow of the same tick. An underflow sets ICR bit 0 for A and bit 1 for B.
    #[tactic(auto, unfolding(crate::specs::Cia::after_tick))]
    pub fn tick(&mut self)
        ensures { self.new ≡ after_tick self.old }
    {
        if self.state.timer_a.is_started() || self.state.timer_b.is_started() {
            self.count_timers();
        }
    }

    /// The tick of a CIA in which a timer is started.
    #[tactic(auto, unfolding(crate::specs::Cia::after_tick))]
    fn count_timers(&mut self)
        ensures { self.new ≡ after_tick self.old }
    {
        let counts_a = self.state.timer_a.counts_ticks();
        let underflow_a = self.state.timer_a.count(counts_a);
        let counts_b = self.state.timer_b.counts_cascade(underflow_a);
        let underflow_b = self.state.timer_b.count(counts_b);
        self.state.icr.raise(underflow_a, TIMER_A);
        self.state.icr.raise(underflow_b, TIMER_B);
    }

    /// Whether neither timer is started: a tick then leaves the CIA as it is.
    #[inline(always)]
    #[tactic(auto, unfolding(crate::specs::Cia::after_tick))]
    pub fn stands(&self) -> bool
        ensures exact { result ≡ both_stand self.now }
        ensures still { result ≡ true → after_tick self.now ≡ self.now }
    {
        !self.state.timer_a.is_started() && !self.state.timer_b.is_started()
    }

    /// Ticks of the timers among which none underflows, as many one behind the other: each timer that counts
    /// goes down by their number.
    pub fn skip(&mut self, ticks: u16)
        requires { HasNoUnderflow ticks self.old }
        ensures { self.new ≡ ticks_on ticks self.old }
    {
        let counts_a = self.state.timer_a.counts_ticks();
        let counts_b = self.state.timer_b.counts_cascade(false);
        self.state.timer_a.lower(counts_a, ticks);
        self.state.timer_b.lower(counts_b, ticks);
    }

    /// A number of ticks among which no timer underflows: the lesser counter of those that count, and 65,535
    /// where none counts.
    pub fn ticks_left(&self) -> u16
        ensures exact { result ≡ ticks_before_underflow self.now }
        ensures none { HasNoUnderflow result self.now }
    {
        let counts_a = self.state.timer_a.counts_ticks();
        let counts_b = self.state.timer_b.counts_cascade(false);
        self.state
            .timer_a
            .left(counts_a)
            .min(self.state.timer_b.left(counts_b))
    }

    /// One count of the time of day: a line for CIA B and a field for CIA A. Where it makes the time equal
    /// to the alarm it sets ICR bit 2.
    #[tactic(auto, unfolding(crate::specs::Cia::after_tod_pulse))]
    pub fn count_tod(&mut self)
        ensures { self.new ≡ after_tod_pulse self.old }
    {
        let alarm = self.state.tod.count();
        self.state.icr.raise(alarm, ALARM);
    }

    /// A read of register `reg`, 0 to 15. `pins` are those of the port that is read by register 0 or 1, and
    /// do not count for another register. Register 11 reads as 0. A read of TODHI holds the time of day for
    /// the reads up to that of TODLO, also for another read of TODHI. A read of ICR gives bits 4 to 0 and, as
    /// bit 7, whether the line is active, and clears it.
    #[tactic(auto, unfolding(crate::specs::Cia::after_read, crate::specs::Cia::byte_at))]
    pub fn peek(&mut self, reg: u8, pins: u8) -> u8
        requires { reg < 16 }
        ensures state { self.new ≡ after_read reg self.old }
        ensures byte { result ≡ byte_at reg pins self.old }
    {
        match find_register(reg) {
            Register::PortA => self.state.port_a.read(pins),
            Register::PortB => self.state.port_b.read(pins),
            Register::DirectionA => self.state.port_a.direction,
            Register::DirectionB => self.state.port_b.direction,
            Register::TimerALow => (self.state.timer_a.counter % 256) as u8,
            Register::TimerAHigh => (self.state.timer_a.counter / 256) as u8,
            Register::TimerBLow => (self.state.timer_b.counter % 256) as u8,
            Register::TimerBHigh => (self.state.timer_b.counter / 256) as u8,
            Register::TodLow => self.state.tod.read_low(),
            Register::TodMiddle => self.state.tod.read_middle(),
            Register::TodHigh => self.state.tod.read_high(),
            Register::Unused => 0,
            Register::Serial => self.state.serial,
            Register::InterruptControl => self.state.icr.read(),
            Register::ControlA => self.state.timer_a.control,
            Register::ControlB => self.state.timer_b.control,
        }
    }

    /// A write of a byte to register `reg`, 0 to 15. At the timers it sets the latch, and a high byte also
    /// loads a timer that is not started; in one-shot it loads any and starts it. At ICR bit 7 says whether
    /// the other 1 bits are set or cleared in the mask. At the time of day it sets the alarm where CRB bit 7
    /// is set; otherwise TODHI stops the count and TODLO starts it (profile), and no write is compared with
    /// the alarm. Register 11 is none, and nothing changes there.
    #[tactic(auto, unfolding(crate::specs::Cia::after_write))]
    pub fn poke(&mut self, reg: u8, byte: u8)
        requires { reg < 16 }
        ensures { self.new ≡ after_write reg byte self.old }
    {
        let to_alarm = self.sets_alarm();
        match find_register(reg) {
            Register::PortA => self.state.port_a.output = byte,
            Register::PortB => self.state.port_b.output = byte,
            Register::DirectionA => self.state.port_a.direction = byte,
            Register::DirectionB => self.state.port_b.direction = byte,
            Register::TimerALow => self.state.timer_a.write_low(byte),
            Register::TimerAHigh => self.state.timer_a.write_high(byte),
            Register::TimerBLow => self.state.timer_b.write_low(byte),
            Register::TimerBHigh => self.state.timer_b.write_high(byte),
            Register::TodLow => self.state.tod.write_low(to_alarm, byte),
            Register::TodMiddle => self.state.tod.write_middle(to_alarm, byte),
            Register::TodHigh => self.state.tod.write_high(to_alarm, byte),
            Register::Unused => {}
            Register::Serial => self.state.serial = byte,
            Register::InterruptControl => self.state.icr.write(byte),
            Register::ControlA => self.state.timer_a.write_control(byte),
            Register::ControlB => self.state.timer_b.write_control(byte),
        }
    }

    /// The keyboard hands over a code: it is in SDR, and ICR bit 3 is set.
    #[tactic(auto, unfolding(crate::specs::Cia::after_key))]
    pub fn key(&mut self, code: u8)
        ensures { self.new ≡ after_key code self.old }
    {
        self.state.serial = code;
        self.state.icr.raise(true, SERIAL);
    }

    /// Whether the interrupt line is active: some ICR bit is set that the mask has.
    pub fn line(&self) -> bool
        ensures { result ≡ is_active self.now.icr }
    {
        self.state.icr.is_active()
    }

    /// Whether writes to the time of day set the alarm.
    fn sets_alarm(&self) -> bool
        ensures { result ≡ alarm_set self.now }
    {
        self.state.timer_b.control & TO_ALARM == TO_ALARM
    }
}

/// A register by its number, 0 to 15 (Hardware Reference Manual, 8520 CIA, register map).
fn find_register(number: u8) -> Register
    requires { number < 16 }
    ensures { result ≡ register_at number }
{
    match number {
        0 => Register::PortA,
        1 => Register::PortB,
        2 => Register::DirectionA,
        3 => Register::DirectionB,
        4 => Register::TimerALow,
        5 => Register::TimerAHigh,
        6 => Register::TimerBLow,
        7 => Register::TimerBHigh,
        8 => Register::TodLow,
        9 => Register::TodMiddle,
        10 => Register::TodHigh,
        12 => Register::Serial,
        13 => Register::InterruptControl,
        14 => Register::ControlA,
        15 => Register::ControlB,
        _ => Register::Unused,
    }
}
