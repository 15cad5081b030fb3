//! The processor on the bus, clock by clock, worked by hand.

use cpu_bus::BusCpu;
use irq_cia::Irq;
use ocs_base::ChipSize;
use serial_model::{CiaName, Half, ProcessorAsk, Turn};

/// The clocks that pass until the processor goes on, where its slots are given at once with this
/// word. The last is the one in which it goes on; 99 where it does not.
fn clocks_to_go_on(cpu: &mut BusCpu, word: u16) -> u32 {
    for clock in 1..99 {
        if cpu.wish().is_some() {
            cpu.give(word);
        }
        match cpu.turn() {
            Turn::Rests => return 99,
            Turn::Waits { spent } => cpu.wait(spent),
            Turn::Goes { word } => {
                let _level = cpu.go_on(word, 0);
                return clock;
            }
            Turn::Cia { .. } => {
                let _level = cpu.go_on(0, 0);
                return clock;
            }
        }
    }
    99
}

/// Gives the processor these words, one at each access or stretch of idle clocks.
fn give_words(cpu: &mut BusCpu, words: &[u16]) {
    for word in words {
        let _clocks = clocks_to_go_on(cpu, *word);
    }
}

/// SSP and PC, which are read at reset.
static AT_RESET: [u16; 4] = [0, 0x1000, 0, 8];

/// A processor with a chip memory of this size after its reset, with these words of a program given.
fn after_with(chip: ChipSize, words: &[u16]) -> BusCpu {
    let mut cpu = BusCpu::reset(chip, true);
    give_words(&mut cpu, &AT_RESET);
    let _idle = clocks_to_go_on(&mut cpu, 0);
    give_words(&mut cpu, words);
    cpu
}

/// The processor with 512 KiB after its reset, with these words of a program given.
fn after(words: &[u16]) -> BusCpu {
    after_with(ChipSize::Kib512, words)
}

/// Whether a processor asks for its slot at the second clock of an access, and goes on with the word given there.
fn asks_late(cpu: &mut BusCpu) -> bool {
    let is_silent = cpu.wish().is_none() && matches!(cpu.turn(), Turn::Waits { spent: 1 });
    cpu.wait(1);
    let is_asking = matches!(cpu.wish(), Some(ProcessorAsk::Read { .. }))
        && matches!(cpu.turn(), Turn::Waits { spent: 1 });
    cpu.give(0);
    let goes = matches!(cpu.turn(), Turn::Goes { word: 0 }) && cpu.go_on(0, 0).is_none();
    is_silent && is_asking && goes && cpu.wish().is_none()
}

#[test]
fn a_slot_is_asked_for_from_the_second_clock_on(rt: HostRuntime) {
    assert!(rt; asks_late(&mut BusCpu::reset(ChipSize::Kib512, true)));
}

#[test]
fn a_processor_that_is_off_rests(rt: HostRuntime) {
    let mut cpu = BusCpu::reset(ChipSize::Kib512, false);
    cpu.wait(1);
    assert!(rt; cpu.wish().is_none() && matches!(cpu.turn(), Turn::Rests));
}

#[test]
fn clocks_of_a_reset(rt: HostRuntime) {
    let mut cpu = BusCpu::reset(ChipSize::Kib512, true);
    let found = [
        clocks_to_go_on(&mut cpu, 0),
        clocks_to_go_on(&mut cpu, 0x1000),
        clocks_to_go_on(&mut cpu, 0),
        clocks_to_go_on(&mut cpu, 8),
        clocks_to_go_on(&mut cpu, 0),
    ];
    assert!(rt; found == [2, 2, 2, 2, 12]);
}

/// The clocks of the access behind these words of a program.
fn clocks_behind(program: [u16; 3]) -> u32 {
    clocks_to_go_on(&mut after(&program), 0)
}

/// MOVE.B of a byte of CIA A, of a byte that is nowhere, and of a word of memory.
#[test]
fn clocks_of_accesses(rt: HostRuntime) {
    let found = [
        clocks_behind([0x1039, 0x00bf, 0xe001]),
        clocks_behind([0x1039, 0x00bf, 0xe000]),
        clocks_behind([0x1039, 0x00bf, 0xd000]),
        clocks_behind([0x1039, 0x00bf, 0xd101]),
        clocks_behind([0x1039, 0x00f8, 0x0000]),
        clocks_behind([0x1039, 0x0007, 0xffff]),
        clocks_behind([0x3039, 0x00bf, 0xe000]),
    ];
    assert!(rt; found == [5, 2, 5, 2, 2, 2, 5]);
}

/// MOVE.B #$12 to a register.
#[test]
fn where_a_write_to_a_register_goes(rt: HostRuntime) {
    let mut register = after(&[0x13fc, 0x0012, 0x00df, 0xf181]);
    register.wait(1);
    assert!(rt;
        matches!(register.wish(), Some(ProcessorAsk::WriteRegister { reg, word: 0x1212 })
        if reg.raw() == 0x180)
    );
}

/// MOVE.B #$12 to CIA B's register 13.
#[test]
fn where_a_write_to_a_cia_goes(rt: HostRuntime) {
    let mut cia = after(&[0x13fc, 0x0012, 0x00bf, 0xdd00]);
    cia.wait(4);
    assert!(rt;
        matches!(cia.turn(), Turn::Cia { cia: CiaName::B, reg, byte: Some(0x12) } if reg.number == 13)
    );
}

/// MOVE.B #$12 to the odd byte of a word.
#[test]
fn where_a_write_to_memory_goes(rt: HostRuntime) {
    let mut memory = after(&[0x13fc, 0x0012, 0xff00, 0x2001]);
    memory.wait(1);
    assert!(rt;
        matches!(memory.wish(), Some(ProcessorAsk::Write { at, half: Half::Low, .. })
        if at.raw() == 0x2000)
    );
}

/// What a processor with a chip memory of this size asks for when it reads the word at 080000:
/// MOVE.W 00080000,D0.
fn wish_above_512_kib(chip: ChipSize) -> Option<ProcessorAsk> {
    let mut cpu = after_with(chip, &[0x3039, 0x0008, 0x0000]);
    cpu.wait(1);
    cpu.wish()
}

#[test]
fn chip_memory_ends_where_its_size_does(rt: HostRuntime) {
    let wide = wish_above_512_kib(ChipSize::Mib1);
    let is_read = matches!(wide, Some(ProcessorAsk::Read { at }) if at.raw() == 0x8_0000);
    assert!(rt; is_read && wish_above_512_kib(ChipSize::Kib512).is_none());
}

/// Interrupts of which that of vertical blanking, level 3, is requested and enabled.
fn level_3() -> Irq {
    let mut irq = Irq::reset();
    irq.request(0x0020);
    irq.poke_ena(0xc020);
    irq
}

/// The clocks for which a processor only waits behind these words of a program, with no interrupt.
fn quiet_after(words: &[u16]) -> u32 {
    after(words).quiet(&Irq::reset())
}

/// A processor that STOP with this SR stopped: its words, and its first clock.
fn stopped(sr: u16) -> BusCpu {
    let mut cpu = after(&[0x4e72, sr]);
    let _clock = clocks_to_go_on(&mut cpu, 0);
    cpu
}

/// All clocks but the last of a CIA's access, of a place that is nowhere, and of the 12 idle ones of reset;
/// none of an access to memory. For ever where it is off.
#[test]
fn clocks_at_which_it_only_waits(rt: HostRuntime) {
    let mut reset = BusCpu::reset(ChipSize::Kib512, true);
    give_words(&mut reset, &AT_RESET);
    let found = [
        reset.quiet(&Irq::reset()),
        quiet_after(&[0x1039, 0x00bf, 0xe001]),
        quiet_after(&[0x1039, 0x00f8, 0x0000]),
        quiet_after(&[0x1039, 0x0007, 0xffff]),
        BusCpu::reset(ChipSize::Kib512, false).quiet(&Irq::reset()),
    ];
    assert!(rt; found == [11, 4, 1, 0, u32::MAX]);
}

/// STOP waits for ever, unless an interrupt is above its mask.
#[test]
fn clocks_of_stop(rt: HostRuntime) {
    let found = [
        stopped(0x2000).quiet(&Irq::reset()),
        stopped(0x2300).quiet(&level_3()),
        stopped(0x2200).quiet(&level_3()),
    ];
    assert!(rt; found == [u32::MAX, u32::MAX, 0]);
}

/// The clocks until it goes on, where those at which it only waits are passed over.
fn clocks_behind_quiet(words: &[u16]) -> u32 {
    let mut cpu = after(words);
    let clocks = cpu.quiet(&Irq::reset());
    cpu.skip(clocks);
    clocks_to_go_on(&mut cpu, 0)
}

/// Behind them it goes on at the next clock; an access to memory still takes its two.
#[test]
fn clocks_passed_over(rt: HostRuntime) {
    let found = [
        clocks_behind_quiet(&[0x1039, 0x00bf, 0xe001]),
        clocks_behind_quiet(&[0x1039, 0x00f8, 0x0000]),
        clocks_behind_quiet(&[0x1039, 0x0007, 0xffff]),
    ];
    assert!(rt; found == [1, 1, 2]);
}
