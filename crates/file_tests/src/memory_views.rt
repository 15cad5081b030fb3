//! Each public call once; the numbers are worked by hand.

ghost use Rattle.std.specs.Prelude.{◌≡◌, ◌+◌, ◌/◌, ◌%◌, ◌≤◌, true, [], length, IfOk, OnOk};
ghost use Rattle.ocs_base.specs.Sizes.{is_chip_size};
ghost use Rattle.mem_versions.specs.MemView.{Covers, word_then};

use crate::answers::{hold, is_so};
use mem_versions::{Chip, MemView, Steps};
use ocs_base::{Addr, Clock, OutOfMemory};
use std::alloc::Global;
use std::marker::Brand;
use std::sync::ledger::{Blank, Ledger};

/// A memory of so many bytes with an image, and what of it the tests need for their calls.
fn made(alloc: Global, image: &[u8], bytes: u32) -> Result<Chip, OutOfMemory>
    requires size { is_chip_size bytes ≡ true }
    requires even { length image.now % 2 ≡ 0 }
    requires least { 8 ≤ length image.now }
    requires most { length image.now ≤ bytes }
    ensures size { IfOk result (λ chip. length chip.words ≡ bytes / 2) }
    ensures newest { IfOk result (λ chip. chip.newest ≡ 0) }
    ensures last { IfOk result (λ chip. chip.last ≡ 0) }
    ensures writes { IfOk result (λ chip. chip.writes ≡ []) }
{
    let chip = Chip::sized(alloc, image, bytes)?;
    Ok(chip)
}

/// Whether a word is 1200 after a write of its high half, and 1234 after one of its low half; and whether two
/// words were read.
fn halves_are_written(chip: &mut Chip) -> Result<bool, OutOfMemory>
    requires { chip.old.newest ≡ 0 }
{
    let at = Addr::at(4);
    chip.write_half(Clock(0), at, true, 0x12)?;
    let high = chip.read(at);
    chip.write_half(Clock(3), at, false, 0x34)?;
    Ok([high, chip.read(at)] == [0x1200, 0x1234] && chip.reads() == 2)
}

/// Whether it is so of the smaller memory.
fn has_halves(alloc: Global) -> Result<bool, OutOfMemory> {
    let mut chip = made(alloc, &[0; 8], 524_288)?;
    halves_are_written(&mut chip)
}

#[test]
fn a_half_of_a_word(rt: HostRuntime) {
    hold(&rt, is_so(has_halves(rt.alloc())));
}

/// Whether, after a write to word 1 of page 1, the words at the edges of the image and of the memory are as they
/// should be, and that of the page; the length of the page; and how many words were read.
fn has_words_and_page(chip: &mut Chip) -> Result<bool, OutOfMemory>
    requires newest { chip.old.newest ≡ 0 }
    requires size { length chip.old.words ≡ 262144 }
{
    let pages = chip.pages();
    chip.write(Clock(9), Addr::at(0x202), 0xabcd)?;
    let first = chip.read(Addr::at(0));
    let second = chip.read(Addr::at(2));
    let fourth = chip.read(Addr::at(6));
    let last = chip.read(Addr::at(0x7_fffe));
    let page = chip.page(1);
    let (written, length) = (page[1], page.len());
    let words = [first, second, fourth, last, written];
    Ok(
        words == [0x1234, 0x5678, 0xfffe, 0, 0xabcd]
            && length == 256
            && chip.reads() == 260
            && pages == 1024,
    )
}

/// Whether it is so of an image of four words.
fn image_has_words_and_page(alloc: Global) -> Result<bool, OutOfMemory> {
    let image = [0x12, 0x34, 0x56, 0x78, 0, 0, 0xff, 0xfe];
    let mut chip = made(alloc, &image, 524_288)?;
    has_words_and_page(&mut chip)
}

#[test]
fn pages_and_words(rt: HostRuntime) {
    hold(&rt, is_so(image_has_words_and_page(rt.alloc())));
}

/// Whether of 2048 pages, after a write to an address of the upper half, its word is there, that 512 KiB lower
/// is 0, and its word is in its page.
fn has_words_of_both_halves(chip: &mut Chip) -> Result<bool, OutOfMemory>
    requires newest { chip.old.newest ≡ 0 }
    requires size { length chip.old.words ≡ 524288 }
{
    let pages = chip.pages();
    chip.write(Clock(5), Addr::wide(0x8_0010), 0x1234)?;
    let high = chip.read(Addr::wide(0x8_0010));
    let low = chip.read(Addr::wide(0x10));
    Ok([high, low, chip.page(1024)[8]] == [0x1234, 0, 0x1234] && pages == 2048)
}

/// Whether it is so of the greater memory.
fn greater_memory_has_both(alloc: Global) -> Result<bool, OutOfMemory> {
    let mut chip = made(alloc, &[0; 8], 1_048_576)?;
    has_words_of_both_halves(&mut chip)
}

/// The upper half of the greater memory has words of its own.
#[test]
fn one_mebibyte(rt: HostRuntime) {
    hold(&rt, is_so(greater_memory_has_both(rt.alloc())));
}

/// Whether a view, after a write at clock 5 to the upper half, has 0 there at clock 5, 56 at clock 6, and 0
/// 512 KiB lower.
fn views_both_halves(chip: &mut Chip) -> Result<bool, OutOfMemory>
    requires newest { chip.old.newest ≡ 0 }
    requires last { chip.old.last ≡ 0 }
{
    let (high, low) = (Addr::wide(0x8_0010), Addr::wide(0x10));
    chip.write_half(Clock(5), high, false, 0x56)?;
    let view = chip.cut(Clock(10))?;
    Ok(has_0_and_56(&view, high, low))
}

/// Whether it has.
fn has_0_and_56(view: &MemView, high: Addr, low: Addr) -> bool
    requires at_5 { Covers view.now 5 }
    requires at_6 { Covers view.now 6 }
{
    let words = [
        view.at(Clock(5), high),
        view.at(Clock(6), high),
        view.at(Clock(6), low),
    ];
    words == [0, 0x56, 0]
}

/// Whether it is so of the greater memory.
fn greater_memory_views_both(alloc: Global) -> Result<bool, OutOfMemory> {
    let mut chip = made(alloc, &[0; 8], 1_048_576)?;
    views_both_halves(&mut chip)
}

#[test]
fn a_view_of_one_mebibyte(rt: HostRuntime) {
    hold(&rt, is_so(greater_memory_views_both(rt.alloc())));
}

/// Whether, after a write above the smaller memory, its first word is as it was and the first above it is 0,
/// of the memory, of a view, and the latter once more; and whether three words were read.
fn ends(chip: &mut Chip) -> Result<bool, OutOfMemory>
    requires newest { chip.old.newest ≡ 0 }
    requires last { chip.old.last ≡ 0 }
{
    let (first, above) = (Addr::wide(0), Addr::wide(0x8_0000));
    chip.write(Clock(0), above, 0x5678)?;
    let present = [chip.read(first), chip.read(above)];
    let view = chip.cut(Clock(0))?;
    Ok(present == [0x1234, 0] && view_ends(chip, &view, first, above))
}

/// Whether the words of two addresses in a view are so, and the latter once more, and three words were read.
fn view_ends(chip: &mut Chip, view: &MemView, first: Addr, above: Addr) -> bool
    requires { Covers view.now 0 }
{
    let viewed = [view.at(Clock(0), first), view.at(Clock(0), above)];
    let resolved = chip.resolve(view, Clock(0), above);
    viewed == [0x1234, 0] && resolved == 0 && chip.reads() == 3
}

/// Whether it is so of an image that begins with 1234.
fn memory_ends(alloc: Global) -> Result<bool, OutOfMemory> {
    let mut chip = Chip::new(alloc, &[0x12, 0x34, 0, 0, 0, 0, 0, 0])?;
    ends(&mut chip)
}

/// Above 512 KiB the smaller memory is 0, whatever is written there, and not what stands 512 KiB lower.
#[test]
fn above_the_memory(rt: HostRuntime) {
    hold(&rt, is_so(memory_ends(rt.alloc())));
}

/// Writes of 7 at clock 5 and of 9 at clock 12, of which a view from a cut at clock 10 on sees the first: whether
/// its words at clocks 5 and 6 are right, that at clock 10 once the other is written, the present word, and the
/// view's at clock 5 once more; and whether two words were read.
fn view_stays(chip: &mut Chip) -> Result<bool, OutOfMemory>
    requires newest { chip.old.newest ≡ 0 }
    requires last { chip.old.last ≡ 0 }
{
    let at = Addr::at(2);
    chip.write(Clock(5), at, 7)?;
    let view = chip.cut(Clock(10))?;
    stays_while_written(chip, &view, at)
}

/// Whether they are, in the view.
fn stays_while_written(chip: &mut Chip, view: &MemView, at: Addr) -> Result<bool, OutOfMemory>
    requires newest { chip.old.newest ≤ 12 }
    requires from { view.now.from ≡ 0 }
    requires to { view.now.to ≡ 10 }
{
    let [before, behind] = [view.at(Clock(5), at), view.at(Clock(6), at)];
    chip.write(Clock(12), at, 9)?;
    let later = view.at(Clock(10), at);
    let present = chip.read(at);
    let resolved = chip.resolve(view, Clock(5), at);
    Ok([before, behind, later, present, resolved] == [0, 7, 7, 9, 0] && chip.reads() == 2)
}

/// Whether it is so of the smaller memory.
fn memory_has_a_view_that_stays(alloc: Global) -> Result<bool, OutOfMemory> {
    let mut chip = made(alloc, &[0; 8], 524_288)?;
    view_stays(&mut chip)
}

#[test]
fn a_view_stays_as_it_was(rt: HostRuntime) {
    hold(&rt, is_so(memory_has_a_view_that_stays(rt.alloc())));
}

/// Writes at clock 3 and, of 1 and then 2, at clock 8.
fn write_thrice(chip: &mut Chip, at: Addr, other: Addr) -> Result<(), OutOfMemory>
    requires { chip.old.newest ≡ 0 }
    ensures newest { OnOk result (chip.new.newest ≡ 8) }
    ensures last { OnOk result (chip.new.last ≡ chip.old.last) }
{
    chip.write(Clock(3), other, 6)?;
    chip.write(Clock(8), at, 1)?;
    chip.write(Clock(8), at, 2)
}

/// Whether, after these writes, each view of the cuts at the clocks 8 and 9 sees the right words.
fn is_cut_well(chip: &mut Chip) -> Result<bool, OutOfMemory>
    requires newest { chip.old.newest ≡ 0 }
    requires last { chip.old.last ≡ 0 }
{
    let (at, other) = (Addr::at(0x400), Addr::at(0x402));
    write_thrice(chip, at, other)?;
    let first = chip.cut(Clock(8))?;
    next_is_cut_well(chip, &first, at, other)
}

/// Whether the first of them sees them, and the second, which is cut now.
fn next_is_cut_well(
    chip: &mut Chip,
    first: &MemView,
    at: Addr,
    other: Addr,
) -> Result<bool, OutOfMemory>
    requires newest { chip.old.newest ≡ 8 }
    requires last { chip.old.last ≡ 8 }
    requires first { Covers first.now 8 }
{
    let second = chip.cut(Clock(9))?;
    Ok(are_right_views(first, &second, at, other))
}

/// Whether each view sees them.
fn are_right_views(first: &MemView, second: &MemView, at: Addr, other: Addr) -> bool
    requires first { Covers first.now 8 }
    requires second_at_8 { Covers second.now 8 }
    requires second_at_9 { Covers second.now 9 }
{
    let words = [
        first.at(Clock(8), at),
        first.at(Clock(8), other),
        second.at(Clock(8), at),
        second.at(Clock(9), at),
        second.at(Clock(8), other),
    ];
    words == [0, 6, 0, 2, 6]
}

/// Whether it is so of the smaller memory.
fn memory_is_cut_well(alloc: Global) -> Result<bool, OutOfMemory> {
    let mut chip = made(alloc, &[0; 8], 524_288)?;
    is_cut_well(&mut chip)
}

/// A write of the cut's own clock belongs to the next view.
#[test]
fn a_write_at_the_cut(rt: HostRuntime) {
    hold(&rt, is_so(memory_is_cut_well(rt.alloc())));
}

/// Whether it is so of the smaller memory.
fn memory_shares_a_view(alloc: Global) -> Result<bool, OutOfMemory> {
    let mut chip = made(alloc, &[0; 8], 524_288)?;
    view_is_shared(&mut chip)
}

/// Views may go to other threads.
#[test]
fn views_are_sent(rt: HostRuntime) {
    hold(&rt, is_so(memory_shares_a_view(rt.alloc())));
}

/// Whether its view is one that threads may share.
fn view_is_shared(chip: &mut Chip) -> Result<bool, OutOfMemory>
    requires { chip.old.newest ≡ 0 }
{
    let view = chip.cut(Clock(0))?;
    Ok(is_shared(&view))
}

fn is_shared<T: Send + Sync>(_value: &T) -> bool {
    true
}

/// Whether the view of a hundred writes has, at the clocks 50, 1 and 200, the last one before each.
fn last_writes_are_seen(alloc: Global) -> Result<bool, OutOfMemory> {
    let view = hundred_writes(alloc)?;
    Ok(has_last_writes(&view))
}

/// Whether it has.
fn has_last_writes(view: &MemView) -> bool
    requires from { view.now.from ≡ 0 }
    requires to { view.now.to ≡ 200 }
    requires few { length view.now.writes ≤ 100 }
{
    let found = [
        counted_word::<Brand>(view, Clock(50), Addr::at(2), Blank::new(1)),
        view.at(Clock(1), Addr::at(2)),
        view.at(Clock(200), Addr::at(2)),
    ];
    found == [49, 0, 100]
}

#[test]
fn the_last_of_a_hundred_writes(rt: HostRuntime) {
    hold(&rt, is_so(last_writes_are_seen(rt.alloc())));
}

/// A view of a write of k at clock k for k from 1 to 100, all to one address.
fn hundred_writes(alloc: Global) -> Result<MemView, OutOfMemory>
    ensures covers { IfOk result (λ view. (view.from ≡ 0) × (view.to ≡ 200)) }
    ensures few { IfOk result (λ view. length view.writes ≤ 100) }
{
    let mut chip = made(alloc, &[0; 8], 524_288)?;
    write_hundred(&mut chip)?;
    let view = chip.cut(Clock(200))?;
    Ok(view)
}

/// A write of k at clock k for k from 1 to 100, all to one address.
fn write_hundred(chip: &mut Chip) -> Result<(), OutOfMemory>
    requires newest { chip.old.newest ≡ 0 }
    requires last { chip.old.last ≡ 0 }
    requires writes { chip.old.writes ≡ [] }
    ensures newest { OnOk result (chip.new.newest ≤ 100) }
    ensures last { OnOk result (chip.new.last ≡ 0) }
    ensures writes { OnOk result (length chip.new.writes ≡ 100) }
{
    for k in 1..101 {
        chip.write(Clock(k as u64), Addr::at(2), k)?;
    }
    Ok(())
}

fn counted_word<L: Ledger>(view: &MemView, c: Clock, a: Addr, blank: Blank) -> u16
    requires covered { Covers view.now c.0 }
    requires few { length view.now.writes ≤ 100 }
    requires name { blank.name ≡ L.name }
    requires parts { blank.parts ≡ L.parts }
    requires some { blank.parts ≡ 1 }
    ensures { result ≡ word_then view.now c.0 a }
{
    word_in_seven_steps::<L>(view, c, a, &mut Steps::new(blank))
}

/// Of at most 100 writes, at most seven are looked at.
fn word_in_seven_steps<L: Ledger>(view: &MemView, c: Clock, a: Addr, steps: &mut Steps<L>) -> u16
    requires covered { Covers view.now c.0 }
    requires few { length view.now.writes ≤ 100 }
    ensures word { result ≡ word_then view.now c.0 a }
    ensures steps { steps.new ≤ steps.old + 7 }
{
    view.at_counted(c, a, steps)
}
