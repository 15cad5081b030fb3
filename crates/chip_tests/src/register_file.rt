//! Each public call once; the words are worked by hand from the manual's registers.

use crate::answers::hold;
use crate::written_registers::registers;
use ocs_base::{Addr, Beam, Reg};
use reg_file::{Effect, Live, Regs};

/// A register's offset, the word that is written, whether a blit runs, and what the write comes to.
static EFFECTS: [(u16, u16, bool, Effect); 24] = [
    (0x088, 0x0000, false, Effect::Jump { list: 1 }),
    (0x08a, 0x0000, true, Effect::Jump { list: 2 }),
    (0x058, 0x0041, false, Effect::Blit),
    (0x058, 0x0041, true, Effect::Nothing),
    (0x040, 0x09f0, false, Effect::Kept),
    (0x040, 0x09f0, true, Effect::Nothing),
    (0x074, 0xffff, true, Effect::Nothing),
    (0x080, 0x0007, true, Effect::Kept),
    (0x02e, 0x0002, true, Effect::Kept),
    (0x100, 0x1200, false, Effect::Picture),
    (0x180, 0x0fff, false, Effect::Picture),
    (0x140, 0x2c40, false, Effect::Picture),
    (0x098, 0x0041, false, Effect::Picture),
    (0x092, 0x0038, false, Effect::Kept),
    (0x096, 0x8380, false, Effect::Kept),
    (0x0e0, 0x0001, false, Effect::Kept),
    (0x09a, 0xc020, false, Effect::Interrupt),
    (0x09c, 0x0020, false, Effect::Interrupt),
    (0x02a, 0x8000, false, Effect::Lof { long: true }),
    (0x02a, 0x7fff, false, Effect::Lof { long: false }),
    (0x002, 0xffff, false, Effect::Nothing),
    (0x05a, 0xffff, false, Effect::Nothing),
    (0x076, 0xffff, false, Effect::Nothing),
    (0x1f0, 0xffff, false, Effect::Nothing),
];

/// Whether each write in turn comes to what its row says.
fn has_effects(regs: &mut Regs) -> bool {
    for (offset, word, busy, want) in &EFFECTS {
        if regs.poke(Reg::masked(*offset), *word, *busy) != *want {
            return false;
        }
    }
    true
}

#[test]
fn effects(rt: HostRuntime) {
    hold(&rt, has_effects(&mut Regs::reset()));
}

/// A register's offset, the word that is written, whether a blit runs, and the word that is kept.
static KEPT_WORDS: [(u16, u16, bool, u16); 19] = [
    (0x080, 0xffff, false, 0x0007),
    (0x082, 0xffff, false, 0xfffe),
    (0x050, 0xffff, false, 0x0007),
    (0x052, 0x8001, false, 0x8001),
    (0x052, 0x1234, true, 0x8001),
    (0x056, 0x8001, false, 0x8000),
    (0x0f4, 0xfffa, false, 0x0002),
    (0x13e, 0x1235, false, 0x1234),
    (0x180, 0xfabc, false, 0x0abc),
    (0x1be, 0xffff, false, 0x0fff),
    (0x100, 0x5a04, false, 0x5a04),
    (0x096, 0x83c0, false, 0x03c0),
    (0x096, 0xfc0f, false, 0x07cf),
    (0x096, 0x0240, false, 0x058f),
    (0x09a, 0xffff, false, 0x0000),
    (0x02a, 0x8123, false, 0x8123),
    (0x088, 0xffff, false, 0xffff),
    (0x08a, 0x1235, false, 0x1235),
    (0x002, 0xffff, false, 0x0000),
];

/// Whether each write in turn keeps the word of its row.
fn keeps_words(regs: &mut Regs) -> bool {
    for (offset, word, busy, want) in &KEPT_WORDS {
        let _effect = regs.poke(Reg::masked(*offset), *word, *busy);
        if regs.word(Reg::masked(*offset)) != *want {
            return false;
        }
    }
    true
}

#[test]
fn kept_words(rt: HostRuntime) {
    let mut regs = Regs::reset();
    hold(
        &rt,
        keeps_words(&mut regs) && regs.word(Reg::masked(0x180)) == 0x0abc,
    );
}

/// A register's offset, and what it reads as while a blit runs and at rest.
static READS: [(u16, u16, u16); 10] = [
    (0x002, 0x6240, 0x0240),
    (0x004, 0x8001, 0x0000),
    (0x006, 0x2c05, 0xffe2),
    (0x00a, 0x0103, 0x0000),
    (0x00c, 0x0300, 0x0000),
    (0x00e, 0x0000, 0x0000),
    (0x01e, 0x0000, 0x0000),
    (0x096, 0x0000, 0x0000),
    (0x180, 0x0000, 0x0000),
    (0x1f0, 0x0000, 0x0000),
];

/// Whether each register reads as its row says.
fn is_read(regs: &Regs) -> bool {
    for (offset, in_a_blit, at_rest) in &READS {
        let reg = Reg::masked(*offset);
        let is_busy = regs.peek(reg, &live(300, 5, true, 0x0103, 0x0300)) == *in_a_blit;
        if !is_busy || regs.peek(reg, &live(255, 226, false, 0, 0)) != *at_rest {
            return false;
        }
    }
    true
}

#[test]
fn reads(rt: HostRuntime) {
    let regs = registers(&[(0x096, 0x8240), (0x180, 0x0fff), (0x09c, 0x8020)]);
    hold(&rt, is_read(&regs));
}

/// What a read sees at a place of the beam; `set` is LOF, the blitter's busy and BZERO.
fn live(v: u16, h: u16, set: bool, joy0: u16, joy1: u16) -> Live {
    Live {
        beam: Beam {
            frame: 0,
            v,
            h,
            lof: set,
        },
        busy: set,
        zero: set,
        joy0,
        joy1,
    }
}

#[test]
#[tactic(auto, using(reg_file::proofs::TableLaws::bits_law))]
fn pointers(rt: HostRuntime) {
    let mut regs = registers(&[
        (0x080, 0xfffd),
        (0x082, 0x1235),
        (0x050, 0x0001),
        (0x052, 0x8001),
    ]);
    let poked = [
        regs.pointer(Reg::masked(0x080)).raw(),
        regs.pointer(Reg::masked(0x050)).raw(),
    ];
    regs.set_pointer(Reg::masked(0x13c), Addr::at(0x6_fffe));
    let words = [regs.word(Reg::masked(0x13c)), regs.word(Reg::masked(0x13e))];
    let behind = [
        regs.pointer(Reg::masked(0x13c)).raw(),
        regs.pointer(Reg::masked(0x080)).raw(),
    ];
    let is_set = words == [0x0006, 0xfffe] && behind == [0x6_fffe, 0x5_1234];
    hold(&rt, poked == [0x5_1234, 0x1_8000] && is_set);
}

/// With 1 MiB of chip memory a pointer keeps four bits of its high word, and moves beyond 512 KiB.
#[test]
#[tactic(auto, using(reg_file::proofs::TableLaws::bits_law))]
fn pointers_of_1_mib(rt: HostRuntime) {
    let mut regs = Regs::reset_for(0x10_0000);
    for (offset, word) in &[(0x080, 0xfffd), (0x082, 0x1235)] {
        let _effect = regs.poke(Reg::masked(*offset), *word, false);
    }
    let poked = regs.pointer(Reg::masked(0x080)).raw();
    regs.set_pointer(Reg::masked(0x13c), Addr::wide(0xe_fffe));
    let word = regs.word(Reg::masked(0x13c));
    let behind = regs.pointer(Reg::masked(0x13c)).raw();
    hold(
        &rt,
        word == 0x000e && [poked, behind] == [0xd_1234, 0xe_fffe],
    );
}
