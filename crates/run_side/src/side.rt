//! The sides of the program, as one type.

ghost use Rattle.std.specs.Prelude.{◌≡◌, ◌≤◌, ◌+◌};
ghost use Rattle.disk_dma.specs.Disk.{disk_side};
ghost use Rattle.paula_audio.specs.Paula.{paula_side};
ghost use Rattle.serial_model.specs.Side.{shown_by_side, IsInTime, poke_side, tick_side, bits_of_side, ask_of_side, give_side};
ghost use Rattle.serial_model.specs.Side.{later_side, IsQuietSide};
ghost use Rattle.run_side.specs.Side.{side_of, bytes_of_pair};

use disk_dma::Disk;
use ocs_base::{Beam, Reg};
use paula_audio::Paula;
use serial_model::{Side, SideAsk};

/// What stands beside the chips of a run: nothing, the audio channels, or a disk that is read. It is one
/// type, since all runs of a program are of one.
#[derive(Drop)]
pub enum RunSide {
    Nothing,
    Sound(Paula),
    Reading(Disk),
}

impl RunSide {
    /// What sounds, left and right, each a byte in two's complement; None where nothing can sound.
    pub fn pair(&self) -> Option<(u8, u8)>
        ensures { bytes_of_pair result ≡ shown_by_side (side_of self.now) }
    {
        match self {
            RunSide::Nothing => None,
            RunSide::Sound(paula) => Some(paula.pair()),
            RunSide::Reading(_) => None,
        }
    }
}

impl Side for RunSide {
    ghost use Rattle.run_side.specs.Side.{side_of};

    ghost seen = { side_of };

    #[inline(always)]
    fn poke(&mut self, reg: Reg, word: u16) {
        match self {
            RunSide::Nothing => {}
            RunSide::Sound(paula) => poke_sound(paula, reg, word),
            RunSide::Reading(disk) => poke_disk(disk, reg, word),
        }
    }

    #[inline(always)]
    fn tick(&mut self, beam: &Beam, dmacon: u16) -> u16 {
        match self {
            RunSide::Nothing => 0,
            RunSide::Sound(paula) => tick_sound(paula, beam, dmacon),
            RunSide::Reading(disk) => tick_disk(disk, beam, dmacon),
        }
    }

    #[inline(always)]
    fn ask(&self, beam: &Beam, dmacon: u16) -> SideAsk {
        match self {
            RunSide::Nothing => SideAsk::Nothing,
            RunSide::Sound(paula) => ask_of_sound(paula, beam, dmacon),
            RunSide::Reading(disk) => ask_of_disk(disk, beam, dmacon),
        }
    }

    #[inline(always)]
    fn give(&mut self, word: u16) {
        match self {
            RunSide::Nothing => {}
            RunSide::Sound(paula) => give_sound(paula, word),
            RunSide::Reading(disk) => give_disk(disk, word),
        }
    }

    #[inline(always)]
    fn is_nothing(&self) -> bool {
        matches!(self, RunSide::Nothing)
    }

    #[inline(always)]
    fn quiet(&self, beam: &Beam, dmacon: u16, most: u16) -> u16 {
        match self {
            RunSide::Nothing => most,
            RunSide::Sound(paula) => quiet_of_sound(paula, beam, dmacon, most),
            RunSide::Reading(disk) => quiet_of_disk(disk, beam, dmacon, most),
        }
    }

    #[inline(always)]
    fn skip(&mut self, beam: &Beam, dmacon: u16, clocks: u16) {
        match self {
            RunSide::Nothing => {}
            RunSide::Sound(paula) => skip_sound(paula, beam, dmacon, clocks),
            RunSide::Reading(disk) => skip_disk(disk, beam, dmacon, clocks),
        }
    }
}

// The calls of sound and disk stand apart, so that the clocks of a run without them have nothing of theirs
// but a test.

#[cold]
#[inline(never)]
fn poke_sound(paula: &mut Paula, reg: Reg, word: u16)
    ensures { paula_side paula.new ≡ poke_side reg word (paula_side paula.old) }
{
    paula.poke(reg, word);
}

#[cold]
#[inline(never)]
fn poke_disk(disk: &mut Disk, reg: Reg, word: u16)
    ensures { disk_side disk.new ≡ poke_side reg word (disk_side disk.old) }
{
    disk.poke(reg, word);
}

#[cold]
#[inline(never)]
fn tick_sound(paula: &mut Paula, beam: &Beam, dmacon: u16) -> u16
    ensures state { paula_side paula.new ≡ tick_side beam.now dmacon (paula_side paula.old) }
    ensures bits { result ≡ bits_of_side beam.now dmacon (paula_side paula.old) }
{
    paula.tick(beam, dmacon)
}

#[cold]
#[inline(never)]
fn tick_disk(disk: &mut Disk, beam: &Beam, dmacon: u16) -> u16
    ensures state { disk_side disk.new ≡ tick_side beam.now dmacon (disk_side disk.old) }
    ensures bits { result ≡ bits_of_side beam.now dmacon (disk_side disk.old) }
{
    disk.tick(beam, dmacon)
}

#[cold]
#[inline(never)]
fn ask_of_sound(paula: &Paula, beam: &Beam, dmacon: u16) -> SideAsk
    ensures ask { result ≡ ask_of_side beam.now dmacon (paula_side paula.now) }
    ensures time { IsInTime beam.now result }
{
    paula.ask(beam, dmacon)
}

#[cold]
#[inline(never)]
fn ask_of_disk(disk: &Disk, beam: &Beam, dmacon: u16) -> SideAsk
    ensures ask { result ≡ ask_of_side beam.now dmacon (disk_side disk.now) }
    ensures time { IsInTime beam.now result }
{
    disk.ask(beam, dmacon)
}

#[cold]
#[inline(never)]
fn give_sound(paula: &mut Paula, word: u16)
    ensures { paula_side paula.new ≡ give_side word (paula_side paula.old) }
{
    paula.give(word);
}

#[cold]
#[inline(never)]
fn give_disk(disk: &mut Disk, word: u16)
    ensures { disk_side disk.new ≡ give_side word (disk_side disk.old) }
{
    disk.give(word);
}

#[cold]
#[inline(never)]
fn quiet_of_sound(paula: &Paula, beam: &Beam, dmacon: u16, most: u16) -> u16
    ensures most { result ≤ most }
    ensures quiet { IsQuietSide beam.now dmacon result (paula_side paula.now) }
{
    paula.quiet(beam, dmacon, most)
}

#[cold]
#[inline(never)]
fn quiet_of_disk(disk: &Disk, beam: &Beam, dmacon: u16, most: u16) -> u16
    ensures most { result ≤ most }
    ensures quiet { IsQuietSide beam.now dmacon result (disk_side disk.now) }
{
    disk.quiet(beam, dmacon, most)
}

#[cold]
#[inline(never)]
fn skip_sound(paula: &mut Paula, beam: &Beam, dmacon: u16, clocks: u16)
    requires { beam.now.h + clocks ≤ 226 }
    ensures { paula_side paula.new ≡ later_side clocks beam.now dmacon (paula_side paula.old) }
{
    paula.skip(beam, dmacon, clocks);
}

#[cold]
#[inline(never)]
fn skip_disk(disk: &mut Disk, beam: &Beam, dmacon: u16, clocks: u16)
    requires { beam.now.h + clocks ≤ 226 }
    ensures { disk_side disk.new ≡ later_side clocks beam.now dmacon (disk_side disk.old) }
{
    disk.skip(beam, dmacon, clocks);
}
