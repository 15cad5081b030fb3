//! Words, bytes and ticks worked by hand from the manual's registers.

use irq_cia::{Cia, Irq};

/// Writes bytes to registers, each after its number.
fn write_all(cia: &mut Cia, bytes: &[(u8, u8)]) {
    for (reg, byte) in bytes {
        cia.poke(*reg % 16, *byte);
    }
}

/// A CIA after these writes.
fn make_cia(bytes: &[(u8, u8)]) -> Cia {
    let mut cia = Cia::reset();
    write_all(&mut cia, bytes);
    cia
}

/// What a register reads as, with all pins 1.
fn read(cia: &mut Cia, reg: u8) -> u8 {
    cia.peek(reg % 16, 0xff)
}

/// Ticks the timers so often.
fn tick(cia: &mut Cia, times: u16) {
    for _ in 0..times {
        cia.tick();
    }
}

/// The ticks that are left before the first timer underflows, where A's counter is 7 and B's is 3, by CRA and
/// CRB, after so many ticks.
fn ticks_left(controls: (u8, u8), ticks: u16) -> u16 {
    let mut cia = timers_of_7_and_3(controls);
    tick(&mut cia, ticks);
    cia.ticks_left()
}

/// A CIA with counters of 7 and 3, and these words of CRA and CRB.
fn timers_of_7_and_3(controls: (u8, u8)) -> Cia {
    let (control_a, control_b) = controls;
    make_cia(&[
        (4, 7),
        (5, 0),
        (6, 3),
        (7, 0),
        (14, control_a),
        (15, control_b),
    ])
}

/// The two counters and the flags in ICR behind all ticks that are left.
fn behind_ticks_left(controls: (u8, u8)) -> (u8, u8, u8) {
    let mut cia = timers_of_7_and_3(controls);
    let ticks = cia.ticks_left();
    cia.skip(ticks);
    (read(&mut cia, 4), read(&mut cia, 6), read(&mut cia, 13))
}

/// The three bytes of the time of day, as reads from TODHI to TODLO give them.
fn time_of(cia: &mut Cia) -> (u8, u8, u8) {
    let high = read(cia, 10);
    let middle = read(cia, 9);
    let low = read(cia, 8);
    (high, middle, low)
}

/// The level, INTREQ and INTENA.
fn state_of(irq: &Irq) -> (u8, u16, u16) {
    (irq.level(), irq.req(), irq.ena())
}

#[test]
fn a_vertical_blank(rt: HostRuntime) {
    let mut irq = Irq::reset();
    irq.request(0x0020);
    irq.poke_ena(0xc020);
    let requested = state_of(&irq);
    irq.poke_req(0x0020);
    let found = [requested, state_of(&irq)];
    assert!(rt; found == [(3, 0x0020, 0x4020), (0, 0x0000, 0x4020)]);
}

/// The levels of these requests: all enabled, all but the master bit, and all but the requests.
fn levels_of(bits: u16) -> [u8; 3] {
    let mut irq = Irq::reset();
    irq.request(bits);
    irq.poke_ena(0xffff);
    let enabled = irq.level();
    irq.poke_ena(0x4000);
    let without_master = irq.level();
    irq.poke_ena(0xc000);
    irq.poke_ena(bits & 0x3fff);
    [enabled, without_master, irq.level()]
}

#[test]
fn levels(rt: HostRuntime) {
    let mut right = true;
    for (bits, level) in &[
        (0x0000, 0),
        (0x0001, 1),
        (0x0002, 1),
        (0x0004, 1),
        (0x0008, 2),
        (0x0010, 3),
        (0x0020, 3),
        (0x0040, 3),
        (0x0080, 4),
        (0x0100, 4),
        (0x0200, 4),
        (0x0400, 4),
        (0x0800, 5),
        (0x1000, 5),
        (0x2000, 6),
        (0x000f, 2),
        (0x0881, 5),
        (0xc008, 2),
        (0xffff, 6),
    ] {
        right &= levels_of(*bits) == [*level, 0, 0];
    }
    assert!(rt; right);
}

/// INTREQ and INTENA after a write to each.
fn kept_of(irq: &mut Irq, req: u16, ena: u16) -> (u16, u16) {
    irq.poke_req(req);
    irq.poke_ena(ena);
    (irq.req(), irq.ena())
}

#[test]
fn kept_bits(rt: HostRuntime) {
    let mut irq = Irq::reset();
    irq.request(0xffff);
    let mut right = irq.req() == 0x3fff;
    for (req, ena, kept_req, kept_ena) in &[
        (0x0fff, 0x8000, 0x3000, 0x0000),
        (0x8001, 0x8180, 0x3001, 0x0180),
        (0x7000, 0x0080, 0x0001, 0x0100),
        (0xffff, 0xffff, 0x3fff, 0x7fff),
        (0x7fff, 0x4000, 0x0000, 0x3fff),
    ] {
        right &= kept_of(&mut irq, *req, *ena) == (*kept_req, *kept_ena);
    }
    assert!(rt; right);
}

/// Timer A from a latch of 2: its counter, low and high, CRA and ICR after some ticks.
fn timer_a_after(control: u8, ticks: u16) -> [u8; 4] {
    let mut cia = make_cia(&[(4, 2), (5, 0), (14, control)]);
    tick(&mut cia, ticks);
    [
        read(&mut cia, 4),
        read(&mut cia, 5),
        read(&mut cia, 14),
        read(&mut cia, 13),
    ]
}

#[test]
fn one_timer(rt: HostRuntime) {
    let mut right = true;
    for (control, ticks, counter, kept, flags) in &[
        (0x01, 0, 2, 0x01, 0),
        (0x01, 2, 0, 0x01, 0),
        (0x01, 3, 2, 0x01, 1),
        (0x01, 4, 1, 0x01, 1),
        (0x01, 6, 2, 0x01, 1),
        (0x09, 2, 0, 0x09, 0),
        (0x09, 3, 2, 0x08, 1),
        (0x09, 9, 2, 0x08, 1),
        (0x00, 3, 2, 0x00, 0),
        (0x21, 3, 2, 0x21, 0),
        (0x41, 1, 1, 0x41, 0),
        (0xd1, 3, 2, 0xc1, 1),
    ] {
        let found = timer_a_after(*control, *ticks);
        right &= found == [*counter, 0, *kept, *flags];
    }
    assert!(rt; right);
}

/// Timer A counts from a latch of 3, with its mask bit set: the line is active after the fourth tick, until
/// ICR is read.
#[test]
fn an_underflow_under_its_mask(rt: HostRuntime) {
    let mut cia = make_cia(&[(4, 0x03), (5, 0x00), (13, 0x81), (14, 0x11)]);
    tick(&mut cia, 3);
    let before = cia.line();
    tick(&mut cia, 1);
    let behind = cia.line();
    let flags = [read(&mut cia, 13), read(&mut cia, 13)];
    let lines = [before, behind, cia.line()];
    assert!(rt; flags == [0x81, 0x00] && lines == [false, true, false]);
}

/// Timer A from a latch of 1 underflows every second tick; timer B has a latch of 3. The counter of B and ICR
/// after some ticks.
fn timer_b_after(control: u8, ticks: u16) -> [u8; 2] {
    let mut cia = make_cia(&[(4, 1), (5, 0), (6, 3), (7, 0), (15, control), (14, 0x01)]);
    tick(&mut cia, ticks);
    [read(&mut cia, 6), read(&mut cia, 13)]
}

#[test]
fn cascade(rt: HostRuntime) {
    let mut right = true;
    for (control, ticks, counter, flags) in &[
        (0x41, 1, 3, 0),
        (0x41, 2, 2, 1),
        (0x41, 7, 0, 1),
        (0x41, 8, 3, 3),
        (0x61, 6, 0, 1),
        (0x61, 8, 3, 3),
        (0x21, 8, 3, 1),
        (0x40, 8, 3, 1),
        (0x01, 3, 0, 1),
        (0x01, 4, 3, 3),
    ] {
        let found = timer_b_after(*control, *ticks);
        right &= found == [*counter, *flags];
    }
    assert!(rt; right);
}

/// Timers that stand still do not count; nor does a timer B that counts underflows of A, or a timer A that
/// counts pulses of CNT.
#[test]
fn ticks_before_an_underflow(rt: HostRuntime) {
    let found = [
        ticks_left((0x01, 0x00), 0),
        ticks_left((0x01, 0x00), 2),
        ticks_left((0x01, 0x00), 7),
        ticks_left((0x01, 0x01), 0),
        ticks_left((0x01, 0x41), 0),
        ticks_left((0x00, 0x01), 1),
        ticks_left((0x21, 0x00), 0),
        ticks_left((0x00, 0x00), 0),
    ];
    assert!(rt; found == [7, 5, 0, 3, 7, 2, 65_535, 65_535]);
}

/// The counter that was the lesser comes to 0, and no flag is set.
#[test]
fn ticks_passed_over(rt: HostRuntime) {
    let found = [
        behind_ticks_left((0x01, 0x00)),
        behind_ticks_left((0x01, 0x01)),
        behind_ticks_left((0x01, 0x41)),
        behind_ticks_left((0x00, 0x01)),
        behind_ticks_left((0x00, 0x00)),
    ];
    let want = [(0, 3, 0), (4, 0, 0), (0, 3, 0), (7, 0, 0), (7, 3, 0)];
    assert!(rt; found == want);
}

/// A counter, low and high, and the control register of its timer.
fn counter_of(cia: &mut Cia, low: u8, control: u8) -> [u8; 3] {
    [
        read(cia, low),
        read(cia, low.saturating_add(1)),
        read(cia, control),
    ]
}

/// A write of the high byte loads no timer that runs; bit 4 of CRA does, and is not kept.
#[test]
fn loads_of_a_running_timer(rt: HostRuntime) {
    let mut cia = make_cia(&[(14, 0x01), (4, 5), (5, 0)]);
    tick(&mut cia, 1);
    let counting = counter_of(&mut cia, 4, 14);
    write_all(&mut cia, &[(14, 0x11)]);
    let found = [counting, counter_of(&mut cia, 4, 14)];
    assert!(rt; found == [[0xfe, 0xff, 0x01], [5, 0, 0x01]]);
}

/// A write of the high byte loads a timer of one shot, and starts it.
#[test]
fn loads_of_one_shot(rt: HostRuntime) {
    let mut cia = make_cia(&[(15, 0x08), (6, 0x34)]);
    let stopped = counter_of(&mut cia, 6, 15);
    write_all(&mut cia, &[(7, 0x12)]);
    let started = counter_of(&mut cia, 6, 15);
    tick(&mut cia, 1);
    let counting = counter_of(&mut cia, 6, 15);
    write_all(&mut cia, &[(7, 0x56)]);
    let found = [stopped, started, counting, counter_of(&mut cia, 6, 15)];
    let want = [
        [0xff, 0xff, 0x08],
        [0x34, 0x12, 0x09],
        [0x33, 0x12, 0x09],
        [0x34, 0x56, 0x09],
    ];
    assert!(rt; found == want);
}

#[test]
fn held_time(rt: HostRuntime) {
    let mut cia = make_cia(&[(10, 0x01), (9, 0xff), (8, 0xff)]);
    let high = read(&mut cia, 10);
    cia.count_tod();
    let found = [
        high,
        read(&mut cia, 9),
        read(&mut cia, 10),
        read(&mut cia, 8),
        read(&mut cia, 8),
    ];
    let time = time_of(&mut cia);
    assert!(rt; found == [0x01, 0xff, 0x01, 0xff, 0x00] && time == (0x02, 0x00, 0x00));
}

#[test]
fn time_that_stands_still(rt: HostRuntime) {
    let mut cia = make_cia(&[(10, 0x12)]);
    cia.count_tod();
    write_all(&mut cia, &[(9, 0x34), (15, 0x80), (8, 0x01), (15, 0x00)]);
    cia.count_tod();
    let still = time_of(&mut cia);
    write_all(&mut cia, &[(8, 0x56)]);
    cia.count_tod();
    let counted = time_of(&mut cia);
    assert!(rt; still == (0x12, 0x34, 0x00) && counted == (0x12, 0x34, 0x57));
}

/// The alarm is 010203; a write that makes the time the alarm is no count.
#[test]
fn alarm(rt: HostRuntime) {
    let mut cia = make_cia(&[(15, 0x80), (10, 1), (9, 2), (8, 3)]);
    let at_reset = time_of(&mut cia);
    cia.count_tod();
    let counted = time_of(&mut cia);
    write_all(&mut cia, &[(15, 0x00), (10, 1), (9, 2), (8, 3)]);
    let written = read(&mut cia, 13);
    write_all(&mut cia, &[(8, 1)]);
    cia.count_tod();
    let before = read(&mut cia, 13);
    cia.count_tod();
    let flags = [written, before, read(&mut cia, 13)];
    let times = [at_reset, counted, time_of(&mut cia)];
    let want = [(0, 0, 0), (0, 0, 1), (1, 2, 3)];
    assert!(rt; flags == [0, 0, 0x04] && times == want);
}

/// The time goes on from its greatest to 0, where the alarm is at reset.
#[test]
fn the_time_begins_again(rt: HostRuntime) {
    let mut cia = make_cia(&[(10, 0xff), (9, 0xff), (8, 0xff)]);
    cia.count_tod();
    let time = time_of(&mut cia);
    assert!(rt; time == (0, 0, 0) && read(&mut cia, 13) == 0x04);
}

/// What both ports of two CIAs read as: with this output and direction of port A, and of port B.
fn ports_of(output: u8, direction: u8, pins: u8) -> [u8; 4] {
    let mut a = make_cia(&[(0, output), (2, direction)]);
    let mut b = make_cia(&[(1, output), (3, direction)]);
    [
        a.peek(0, pins),
        a.peek(1, pins),
        b.peek(0, pins),
        b.peek(1, pins),
    ]
}

#[test]
fn ports(rt: HostRuntime) {
    let mut right = true;
    for (output, direction, pins, byte) in &[
        (0xa5, 0x00, 0x3c, 0x3c),
        (0xa5, 0xff, 0x3c, 0xa5),
        (0xa5, 0xf0, 0x3c, 0xac),
        (0xa5, 0x0f, 0x3c, 0x35),
    ] {
        let found = ports_of(*output, *direction, *pins);
        right &= found == [*byte, *pins, *pins, *byte];
    }
    assert!(rt; right);
}

/// A code of the keyboard under masks: the line before ICR is read and after it, and the bytes of the code,
/// of ICR, and of ICR once more.
fn code_under(first: u8, second: u8) -> ([bool; 2], [u8; 3]) {
    let mut cia = make_cia(&[(13, first), (13, second)]);
    cia.key(0x75);
    let code = read(&mut cia, 12);
    let line = cia.line();
    let flags = read(&mut cia, 13);
    ([line, cia.line()], [code, flags, read(&mut cia, 13)])
}

#[test]
fn masks(rt: HostRuntime) {
    let mut right = true;
    for (first, second, line, byte) in &[
        (0x00, 0x00, false, 0x08),
        (0x88, 0x00, true, 0x88),
        (0x9f, 0x00, true, 0x88),
        (0x97, 0x00, false, 0x08),
        (0x9f, 0x08, false, 0x08),
        (0x9f, 0x17, true, 0x88),
        (0xe0, 0x00, false, 0x08),
        (0x81, 0x88, true, 0x88),
    ] {
        let found = code_under(*first, *second);
        right &= found == ([*line, false], [0x75, *byte, 0]);
    }
    assert!(rt; right);
}

/// What a register reads as at reset, and another CIA's after a write of 96 to it, with pins of 5A.
fn read_around_write(reg: u8) -> [u8; 2] {
    let mut fresh = Cia::reset();
    let mut cia = Cia::reset();
    cia.poke(reg % 16, 0x96);
    [fresh.peek(reg % 16, 0x5a), cia.peek(reg % 16, 0x5a)]
}

/// Each register at reset, and after a write of 96 to it, with pins of 5A. At 0 and 1 the pins are
/// inputs; at 4 and 6 only the latch is written, and at 5 and 7 a stopped timer is loaded. CRA and
/// CRB do not keep bit 4.
#[test]
fn registers(rt: HostRuntime) {
    let mut right = true;
    for (reg, at_reset, written) in &[
        (0, 0x5a, 0x5a),
        (1, 0x5a, 0x5a),
        (2, 0x00, 0x96),
        (3, 0x00, 0x96),
        (4, 0xff, 0xff),
        (5, 0xff, 0x96),
        (6, 0xff, 0xff),
        (7, 0xff, 0x96),
        (8, 0x00, 0x96),
        (9, 0x00, 0x96),
        (10, 0x00, 0x96),
        (11, 0x00, 0x00),
        (12, 0x00, 0x96),
        (13, 0x00, 0x00),
        (14, 0x00, 0x86),
        (15, 0x00, 0x86),
    ] {
        right &= read_around_write(*reg) == [*at_reset, *written];
    }
    assert!(rt; right);
}
