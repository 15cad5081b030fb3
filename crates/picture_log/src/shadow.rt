//! The shadow of the picture state: what touches it, and the opening of a line that is made of it.

ghost use Rattle.std.specs.Prelude.{◌≡◌, ◌<◌, ◌/◌, ◌%◌, ◌^◌, ℕ, List, length, count_by, map, false, if◌then◌else◌, Some};
ghost use Rattle.mem_versions.specs.MemoryAt.{memory_at};
ghost use Rattle.mem_versions.specs.Chip.{after_reads};
ghost use Rattle.mem_versions.specs.MemView.{word_then};
ghost use Rattle.serial_model.specs.declared.picture.Touch.TheVariants as T;
ghost use Rattle.serial_bands.specs.Run.{RunValue};
ghost use Rattle.serial_bands.specs.declared.shadow.Filling.{Filling as FillingValue};
ghost use Rattle.serial_bands.specs.declared.shadow.Filling.TheVariants as F;
ghost use Rattle.serial_bands.specs.RightJob.{clock_of};
ghost use Rattle.serial_bands.specs.Shadows.{IsInRange, IsOfRange, AreOfRange, filling_word, set_shadow, set_shadow_sprite, fetch_shadow_sprite};
ghost use Rattle.serial_bands.specs.Shadows.{touch_shadow, shadow_of as shadow_of_picture, found_filling, found_shadow, line_opening};
ghost use Rattle.serial_bands.specs.Fetches.{is_fetched_filling, fetches_in, IsInRangeOf};

use mem_versions::{Chip, MemReplay};
use ocs_base::{Addr, Clock, Colour};
use planes::Loads;
use serial_bands::{Filling, Shadow};
use serial_model::{Denise, Touch};
use sprites::Runs;

/// A touch at a clock: a write, or a fetch of which the place is kept.
#[inline(always)]
pub fn touch(shadow: &mut Shadow, t: u64, touch: &Touch)
    requires { IsInRange (Some touch.now) }
    ensures { shadow.new ≡ touch_shadow t touch.now shadow.old }
{
    match touch {
        Touch::Set { reg, word } => set(shadow, reg.offset, *word),
        Touch::Plane { plane, at } => fetch_plane(shadow, t, *plane, *at),
        Touch::Sprite { sprite, second, at } => {
            let filling = Filling::Fetched {
                at: Clock(t),
                addr: *at,
            };
            fetch_sprite(shadow, *sprite, *second, filling);
        }
    }
}

/// A fetch of the word of a plane, 1 to 6, at a clock.
#[inline(always)]
pub fn fetch_plane(shadow: &mut Shadow, t: u64, plane: u8, at: Addr)
    requires { IsInRange (Some (T.Plane plane at)) }
    ensures { shadow.new ≡ touch_shadow t (T.Plane plane at) shadow.old }
{
    shadow.latches[plane as usize - 1] = Filling::Fetched {
        at: Clock(t),
        addr: at,
    };
}

/// A fetch of the first or the second word of a sprite, 0 to 7.
fn fetch_sprite(shadow: &mut Shadow, sprite: u8, second: bool, filling: Filling)
    requires { sprite < 8 }
    ensures { shadow.new ≡ fetch_shadow_sprite sprite second filling shadow.old }
{
    if second {
        shadow.words_b[sprite as usize] = filling;
    } else {
        shadow.words_a[sprite as usize] = filling;
        shadow.armed |= 1 << sprite;
    }
}

/// A write of a word to the register at an offset.
#[tactic(auto, unfolding(serial_bands::specs::Shadows::set_shadow))]
fn set(shadow: &mut Shadow, offset: u16, word: u16)
    ensures { shadow.new ≡ set_shadow offset word shadow.old }
{
    match offset {
        0x08e => shadow.diwstrt = word,
        0x090 => shadow.diwstop = word,
        0x098 => shadow.clxcon = word,
        0x100 => shadow.con0 = word,
        0x102 => shadow.con1 = word,
        0x104 => shadow.con2 = word,
        0x110 => shadow.latches[0] = Filling::Word { word },
        0x112..=0x11a => shadow.latches[(offset - 0x110) as usize / 2] = Filling::Word { word },
        0x140..=0x17e => set_sprite(shadow, offset - 0x140, word),
        0x180..=0x1be => shadow.palette[(offset - 0x180) as usize / 2] = word % 0x1000,
        _ => {}
    }
}

/// A write to a sprite's register, which lies so far behind SPR0POS.
fn set_sprite(shadow: &mut Shadow, from: u16, word: u16)
    requires { from < 64 }
    ensures { shadow.new ≡ set_shadow_sprite (from / 8) (from % 8) word shadow.old }
{
    let sprite = from as usize / 8;
    match from % 8 {
        0 => shadow.pos[sprite] = word,
        2 => {
            shadow.ctl[sprite] = word;
            shadow.armed &= !(1 << sprite);
        }
        4 => {
            shadow.words_a[sprite] = Filling::Word { word };
            shadow.armed |= 1 << sprite;
        }
        _ => shadow.words_b[sprite] = Filling::Word { word },
    }
}

/// The shadow of a picture state whose words are at hand.
pub fn shadow_of(picture: &Denise) -> Shadow
    ensures shadow { result ≡ shadow_of_picture picture.now }
    ensures planes { length result.latches ≡ 6 }
    ensures first { length result.words_a ≡ 8 }
    ensures second { length result.words_b ≡ 8 }
{
    let mut latches = [Filling::Word { word: 0 }; 6];
    let mut words_a = [Filling::Word { word: 0 }; 8];
    let mut words_b = words_a;
    fill(&mut latches, &picture.latches);
    fill(&mut words_a, &picture.words_a);
    fill(&mut words_b, &picture.words_b);
    Shadow {
        palette: picture.palette,
        con0: picture.con0,
        con1: picture.con1,
        con2: picture.con2,
        diwstrt: picture.diwstrt,
        diwstop: picture.diwstop,
        clxcon: picture.clxcon,
        latches,
        pos: picture.pos,
        ctl: picture.ctl,
        words_a,
        words_b,
        armed: picture.armed,
    }
}

/// Fills registers with words.
fn fill(fillings: &mut [Filling], words: &[u16])
    requires { length fillings.old ≡ length words.now }
    ensures { fillings.new ≡ map (λ word. F.Word word) words.now }
{
    for i in 0..fillings.len() {
        fillings[i] = Filling::Word { word: words[i] };
    }
}

/// Looks up, in a view that covers them, the words of the fetches that are left: each is a read of
/// the chip memory.
pub fn find_words(shadow: &mut Shadow, view: &MemReplay, chip: &mut Chip)
    requires range { IsInRangeOf view.now.from view.now.to shadow.old }
    requires behind { chip.old.base ≡ memory_at view.now.to view.now.base view.now.writes }
    ensures words { shadow.new ≡ found_shadow (word_then view.now) shadow.old }
    ensures reads { chip.new ≡ after_reads chip.old (fetches_in shadow.old) }
{
    find_all(&mut shadow.latches, view, chip);
    find_all(&mut shadow.words_a, view, chip);
    find_all(&mut shadow.words_b, view, chip);
}

/// The same for some of its words.
fn find_all(fillings: &mut [Filling], view: &MemReplay, chip: &mut Chip)
    requires range { AreOfRange view.now.from view.now.to fillings.old }
    requires behind { chip.old.base ≡ memory_at view.now.to view.now.base view.now.writes }
    ensures words { fillings.new ≡ map (found_filling (word_then view.now)) fillings.old }
    ensures reads { chip.new ≡ after_reads chip.old (count_by is_fetched_filling fillings.old) }
{
    let _reads = chip.reads();
    for i in 0..fillings.len() {
        fillings[i] = find(fillings[i], view, chip);
    }
}

/// A filling with its word looked up.
fn find(filling: Filling, view: &MemReplay, chip: &mut Chip) -> Filling
    requires range { IsOfRange view.now.from view.now.to filling }
    requires behind { chip.old.base ≡ memory_at view.now.to view.now.base view.now.writes }
    ensures word { result ≡ found_filling (word_then view.now) filling }
    ensures reads { chip.new
        ≡ after_reads chip.old (if is_fetched_filling filling then 1 else 0) }
{
    let _reads = chip.reads();
    match filling {
        Filling::Word { word } => Filling::Word { word },
        Filling::Fetched { at, addr } => Filling::Word {
            word: chip.resolve_replay(view, at, addr),
        },
    }
}

/// The opening of a line, of a shadow without fetches.
pub fn opening(shadow: &Shadow) -> Denise
    requires { fetches_in shadow.now ≡ 0 }
    ensures { (run : RunValue) → result ≡ line_opening run shadow.now }
{
    let mut latches = [0; 6];
    let mut words_a = [0; 8];
    let mut words_b = [0; 8];
    take_words(&mut latches, &shadow.latches);
    take_words(&mut words_a, &shadow.words_a);
    take_words(&mut words_b, &shadow.words_b);
    Denise {
        palette: shadow.palette,
        con0: shadow.con0,
        con1: shadow.con1,
        con2: shadow.con2,
        diwstrt: shadow.diwstrt,
        diwstop: shadow.diwstop,
        clxcon: shadow.clxcon,
        latches,
        loads: Loads::new(),
        runs: Runs::new(),
        pos: shadow.pos,
        ctl: shadow.ctl,
        words_a,
        words_b,
        armed: shadow.armed,
        held: Colour(shadow.palette[0]),
    }
}

/// The words of fillings, of which none is a fetch.
fn take_words(words: &mut [u16], fillings: &[Filling])
    requires length { length words.old ≡ length fillings.now }
    requires found { count_by is_fetched_filling fillings.now ≡ 0 }
    ensures { (run : RunValue) → words.new ≡ map (filling_word run) fillings.now }
{
    for i in 0..words.len() {
        words[i] = word_of(fillings[i]);
    }
}

/// The word of a filling; of a fetch, which is not looked up, it is 0.
fn word_of(filling: Filling) -> u16
    ensures { (run : RunValue) → is_fetched_filling filling ≡ false
        → result ≡ filling_word run filling }
{
    match filling {
        Filling::Word { word } => word,
        Filling::Fetched { .. } => 0,
    }
}
