//! Memory that is kept and gone back to, of both sizes.

ghost use Rattle.std.specs.Prelude.{◌≡◌, ◌≤◌, max, true, IfOk, OnOk};
ghost use Rattle.ocs_base.specs.Sizes.{is_chip_size};
ghost use Rattle.mem_versions.specs.MemView.{Covers};

use crate::answers::{hold, is_so};
use mem_versions::{Chip, Kept, MemView};
use ocs_base::{Addr, Clock, OutOfMemory};
use std::alloc::Global;

/// A memory of so many bytes, with zeros, that was not yet written.
fn zeros(alloc: Global, bytes: u32) -> Result<Chip, OutOfMemory>
    requires size { is_chip_size bytes ≡ true }
    ensures newest { IfOk result (λ chip. chip.newest ≡ 0) }
    ensures last { IfOk result (λ chip. chip.last ≡ 0) }
{
    Chip::sized(alloc, &[0; 8], bytes)
}

/// One more write.
fn write(chip: &mut Chip, clock: u64, at: Addr, word: u16) -> Result<(), OutOfMemory>
    requires { chip.old.newest ≤ clock }
    ensures newest { OnOk result (chip.new.newest ≡ clock) }
    ensures last { OnOk result (chip.new.last ≡ chip.old.last) }
{
    chip.write(Clock(clock), at, word)?;
    Ok(())
}

/// A cut, whose view nobody looks at.
fn cut(chip: &mut Chip, clock: u64) -> Result<(), OutOfMemory>
    requires { chip.old.newest ≤ clock }
    ensures newest { OnOk result (chip.new.newest ≡ clock) }
    ensures last { OnOk result (chip.new.last ≡ clock) }
{
    let _view = chip.cut(Clock(clock))?;
    Ok(())
}

/// The memory that is made of what is kept of one.
fn gone_back(chip: &Chip) -> Result<Chip, OutOfMemory>
    ensures newest { IfOk result (λ back. back.newest ≡ max chip.now.last chip.now.newest) }
    ensures last { IfOk result (λ back. back.last ≡ max chip.now.last chip.now.newest) }
{
    let kept = chip.keep()?;
    Chip::back(&kept)
}

/// Whether the words at an address at clocks 7 and 8 are 6 and 9 in a memory that is written at clock 7 and
/// then cut: the first is the one before that write.
fn has_6_and_9(chip: &mut Chip, at: Addr) -> Result<bool, OutOfMemory>
    requires newest { chip.old.newest ≤ 7 }
    requires last { chip.old.last ≤ 7 }
{
    write(chip, 7, at, 9)?;
    let view = chip.cut(Clock(8))?;
    Ok(views_6_and_9(&view, at))
}

/// Whether they are so in the view.
fn views_6_and_9(view: &MemView, at: Addr) -> bool
    requires at_7 { Covers view.now 7 }
    requires at_8 { Covers view.now 8 }
{
    view.at(Clock(7), at) == 6 && view.at(Clock(8), at) == 9
}

/// Whether the word of a memory that was gone back to is still 1234, and is the first that was read of it,
/// once the other memory is written; and whether each has its own word, once both are.
fn differ(chip: &mut Chip, back: &mut Chip, at: Addr) -> Result<bool, OutOfMemory>
    requires chip { chip.old.newest ≤ 5 }
    requires back { back.old.newest ≤ 4 }
{
    write(chip, 5, at, 0x5678)?;
    let kept = (back.read(at), back.reads());
    write(back, 4, at, 0x9abc)?;
    Ok(kept == (0x1234, 1) && [back.read(at), chip.read(at)] == [0x9abc, 0x5678])
}

/// Whether it is so of a memory with the word 1234, which is gone back to.
fn stay(chip: &mut Chip, at: Addr) -> Result<bool, OutOfMemory>
    requires newest { chip.old.newest ≡ 0 }
    requires last { chip.old.last ≡ 0 }
{
    write(chip, 3, at, 0x1234)?;
    let mut back = gone_back(chip)?;
    differ(chip, &mut back, at)
}

/// Whether it is so of the smaller memory.
fn words_stay(alloc: Global) -> Result<bool, OutOfMemory> {
    let mut chip = zeros(alloc, 524_288)?;
    stay(&mut chip, Addr::at(0x400))
}

/// Kept words stay though the memory is written on; and the memory goes on though the other is written.
#[test]
fn kept_words_stay(rt: HostRuntime) {
    hold(&rt, is_so(words_stay(rt.alloc())));
}

/// Whether two memories that were gone back to from one have the word 1234.
fn both_have_it(kept: &Kept, at: Addr) -> Result<bool, OutOfMemory> {
    let mut first = Chip::back(kept)?;
    has_it_with(&mut first, kept, at)
}

/// Whether the first has it, and one more.
fn has_it_with(first: &mut Chip, kept: &Kept, at: Addr) -> Result<bool, OutOfMemory> {
    let mut second = Chip::back(kept)?;
    Ok([first.read(at), second.read(at)] == [0x1234; 2])
}

/// Whether they do where a memory with that word is kept.
fn comes_twice(chip: &mut Chip, at: Addr) -> Result<bool, OutOfMemory>
    requires { chip.old.newest ≡ 0 }
{
    write(chip, 3, at, 0x1234)?;
    let kept = chip.keep()?;
    both_have_it(&kept, at)
}

/// Whether they do of the smaller memory.
fn words_come_twice(alloc: Global) -> Result<bool, OutOfMemory> {
    let mut chip = zeros(alloc, 524_288)?;
    comes_twice(&mut chip, Addr::at(0x400))
}

/// One kept memory is gone back to twice.
#[test]
fn kept_words_are_gone_back_to_twice(rt: HostRuntime) {
    hold(&rt, is_so(words_come_twice(rt.alloc())));
}

/// Whether a memory that was gone back to has 2048 pages, the word 1234 in the upper half, which was written,
/// and 0 in the lower.
fn has_both_halves(chip: &mut Chip) -> Result<bool, OutOfMemory>
    requires { chip.old.newest ≡ 0 }
{
    let (high, low) = (Addr::wide(0x8_0400), Addr::wide(0x400));
    write(chip, 3, high, 0x1234)?;
    let mut back = gone_back(chip)?;
    Ok(back.pages() == 2048 && [back.read(high), back.read(low)] == [0x1234, 0])
}

/// Whether the greater memory has.
fn greater_memory_is_kept(alloc: Global) -> Result<bool, OutOfMemory> {
    let mut chip = zeros(alloc, 1_048_576)?;
    has_both_halves(&mut chip)
}

#[test]
fn one_mebibyte_is_kept(rt: HostRuntime) {
    hold(&rt, is_so(greater_memory_is_kept(rt.alloc())));
}

/// Whether the words at clocks 7 and 8 of a memory that was gone back to are 6 and 9.
fn goes_on(chip: &Chip, at: Addr) -> Result<bool, OutOfMemory>
    requires newest { chip.now.newest ≤ 7 }
    requires last { chip.now.last ≤ 7 }
{
    let mut back = gone_back(chip)?;
    has_6_and_9(&mut back, at)
}

/// Whether they are so after a write of 6 at clock 3 and a cut at 7.
fn goes_on_behind_a_cut(chip: &mut Chip) -> Result<bool, OutOfMemory>
    requires newest { chip.old.newest ≡ 0 }
    requires last { chip.old.last ≡ 0 }
{
    let at = Addr::at(2);
    write(chip, 3, at, 6)?;
    cut(chip, 7)?;
    goes_on(chip, at)
}

/// Whether they are so of the smaller memory.
fn cut_is_kept(alloc: Global) -> Result<bool, OutOfMemory> {
    let mut chip = zeros(alloc, 524_288)?;
    goes_on_behind_a_cut(&mut chip)
}

/// The kept clock is 7 then: a write may be of that clock, and a view begins with it.
#[test]
fn the_clock_of_a_cut_is_kept(rt: HostRuntime) {
    hold(&rt, is_so(cut_is_kept(rt.alloc())));
}

/// Whether they are so after a cut at 3 and a write of 6 at clock 7.
fn goes_on_behind_a_write(chip: &mut Chip) -> Result<bool, OutOfMemory>
    requires newest { chip.old.newest ≡ 0 }
    requires last { chip.old.last ≡ 0 }
{
    let at = Addr::at(2);
    cut(chip, 3)?;
    write(chip, 7, at, 6)?;
    goes_on(chip, at)
}

/// Whether they are so of the smaller memory.
fn write_is_kept(alloc: Global) -> Result<bool, OutOfMemory> {
    let mut chip = zeros(alloc, 524_288)?;
    goes_on_behind_a_write(&mut chip)
}

/// It is 7 too.
#[test]
fn the_clock_of_a_write_is_kept(rt: HostRuntime) {
    hold(&rt, is_so(write_is_kept(rt.alloc())));
}
