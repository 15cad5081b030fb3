//! A run over a side: a disk's word, a sample's word, interrupts and writes of registers. The
//! expected words are worked by hand.

ghost use Rattle.std.specs.Prelude.{◌≡◌, ◌≤◌, ℕ, [], None, false, IfOk};
ghost use Rattle.std.specs.Arc.{arc_value};
ghost use Rattle.foreground.specs.Fore.{over, IsUnderway};
ghost use Rattle.ocs_io.specs.Shelf.{IsHeld};

use crate::answers::hold;
use crate::runs::{run_clocks, script_of};
use band_draw::Direct;
use band_log::{Raster, Run};
use foreground::Fore;
use ocs_base::{Addr, Beam, Reg};
use ocs_io::Shelf;
use out_files::{OutFiles, WriteFault};
use serial_model::{Side, SideAsk};
use small_runs::out_files;
use std::alloc::Global;
use std::sync::Arc;
use std::test::Fail;

/// A side that keeps the word that was last written to a register, and the one that it was last
/// given. At clock 7 of each line it stores the one, as a disk, and at clock 13 reads that place,
/// as audio; at clock 20 it requests the other's bits.
#[derive(Drop)]
struct Recorder {
    written: u16,
    given: u16,
}

/// Where it stores and reads.
const PLACE: u32 = 64;

impl Side for Recorder {
    ghost use Rattle.foreground_tests.specs.Recorder.{recorder};

    ghost seen = { λ side. recorder side.written side.given };

    fn poke(&mut self, _reg: Reg, word: u16) {
        self.written = word;
    }

    fn tick(&mut self, beam: &Beam, _dmacon: u16) -> u16 {
        if beam.h == 20 { self.given } else { 0 }
    }

    fn ask(&self, beam: &Beam, _dmacon: u16) -> SideAsk {
        if beam.h == 7 {
            return SideAsk::Disk {
                at: Addr::at(PLACE),
                word: self.written,
            };
        }
        if beam.h == 13 {
            return SideAsk::Audio {
                channel: 0,
                at: Addr::at(PLACE),
            };
        }
        SideAsk::Nothing
    }

    fn give(&mut self, word: u16) {
        self.given = word;
    }
}

fn fresh_side() -> Recorder
    ensures written { result.written ≡ 0 }
    ensures given { result.given ≡ 0 }
{
    Recorder {
        written: 0,
        given: 0,
    }
}

/// A run over a side as it is at reset.
fn run_over_a_side(alloc: Global) -> Result<Arc<Run<Recorder>>, Fail>
    ensures written { IfOk result (λ run. (arc_value run).side.written ≡ 0) }
    ensures given { IfOk result (λ run. (arc_value run).side.given ≡ 0) }
{
    let script = script_of(
        alloc,
        "at 0 0 0 poke 180 0102\nat 0 0 19 peek 01e\nat 0 0 21 peek 01e\n",
    )?;
    let image = Vec::from_slice(alloc, &[0; 8])?;
    Ok(Arc::new(alloc, Run::over(image, script, 100, fresh_side()))?)
}

/// That run, whole, over a raster that took no band yet.
fn run_whole_over_a_side<Q: Raster<Recorder>>(
    alloc: Global,
    raster: &mut Q,
    out: &mut OutFiles,
) -> Result<Fore<Recorder>, Fail>
    requires empty { (Q.seen raster.old).outstanding ≡ [] }
    requires first { (Q.seen raster.old).next ≡ 0 }
    requires unbound { (Q.seen raster.old).bound ≡ None }
{
    let run = run_over_a_side(alloc)?;
    let mut fore = Fore::with_side(alloc, run, fresh_side())?;
    run_clocks(&mut fore, raster, out)?;
    Ok(fore)
}

/// Writes the memory of a run.
fn write_memory(
    fore: Fore<Recorder>,
    out: &mut OutFiles,
    shelf: &mut Shelf,
) -> Result<(), WriteFault>
    requires { IsHeld shelf.old.files out.old.names.memory }
{
    let mut chip = fore.finish();
    out.memory(&mut chip, shelf)
}

/// Writes what is written of a run: the trace and the memory.
fn write_all(
    fore: Fore<Recorder>,
    out: &mut OutFiles,
    shelf: &mut Shelf,
) -> Result<(), WriteFault> {
    out.create(shelf)?;
    out.flush(shelf)?;
    write_memory(fore, out, shelf)
}

/// Whether the side was told and given 0102, and each line read one word.
fn is_played(fore: &Fore<Recorder>) -> bool {
    fore.side().written == 0x0102 && fore.side().given == 0x0102 && fore.reads() == 313
}

/// Whether the trace and the memory of a run are those of the side.
fn has_its_words(shelf: &Shelf) -> bool {
    let trace: &[u8] = b"0 0 0 W 180 0102 S\n0 0 19 R 01e 0020 S\n0 0 21 R 01e 0122 S\n";
    let memory = shelf.file("memory").unwrap_or(&[]);
    shelf.file("trace") == Some(trace) && memory.get(64..67) == Some([1, 2, 0].as_slice())
}

/// Whether a run is played, and its files are those of the side.
fn is_right(fore: Fore<Recorder>, out: &mut OutFiles, shelf: &mut Shelf) -> bool {
    let is_played = is_played(&fore);
    write_all(fore, out, shelf).is_ok() && is_played && has_its_words(shelf)
}

/// Whether that run is, over a raster of its own.
fn plays_over_a_side(alloc: Global, out: &mut OutFiles) -> Result<bool, Fail> {
    let mut raster = Direct::<Recorder>::new(alloc)?;
    let fore = run_whole_over_a_side(alloc, &mut raster, out)?;
    Ok(is_right(fore, out, &mut Shelf::new(alloc)))
}

/// The same with files of its own.
fn plays(alloc: Global) -> Result<bool, Fail> {
    let mut out = out_files(alloc)?;
    plays_over_a_side(alloc, &mut out)
}

/// In line 0 the word 0102 is written to a register before clock 7, at which it is stored; at clock
/// 13 it is read and given to the side; at clock 20 its bits are requested, beside that of vertical
/// blanking. Each of the 313 lines reads one word, which counts.
#[test]
fn a_side_takes_part_in_the_run(rt: HostRuntime) -> Result<(), Fail> {
    let is_right = plays(rt.alloc())?;
    hold(&rt, is_right);
    Ok(())
}
