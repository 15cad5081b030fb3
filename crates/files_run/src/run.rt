//! A run: the clocks from reset to the last of the script's frames, and the files.

ghost use Rattle.std.specs.Prelude.{◌≡◌, ◌≤◌, ◌<◌, ◌%◌, ◌+◌, ◌^◌, [], true, false, is_some, option_map, OnOk, OnErr, IfOk, IfErr};
ghost use Rattle.std.specs.Arc.{arc_value};
ghost use Rattle.out_files.specs.declared.fault.WriteFault.TheVariants as WriteFault;
ghost use Rattle.out_files.specs.Answers.{AreGrowable};
ghost use Rattle.out_files.specs.OutFiles.{all_given};
ghost use Rattle.out_files.specs.Together.{Begins, Completes, LeavesParts, StayTogether};
ghost use Rattle.serial_model.specs.MemoryText.{memory_text};
ghost use Rattle.crew.specs.Crew.{crew_seen};
ghost use Rattle.foreground.specs.Fore.{is_done, IsNew};
ghost use Rattle.clock_loop.specs.RunTo.{RunsOn};
ghost use Rattle.crew.specs.Crew.{side_seen};
ghost use Rattle.files_run.specs.Audio.{is_sampled, with_audio, IsAudioGrowable};
ghost use Rattle.ocs_words.specs.Order.{IsFourthName};
ghost use Rattle.out_files.specs.Places.{LeavesPlace, WritesFiles};
ghost use Rattle.files_run.specs.Place.{WritesRun};
ghost use Rattle.files_run.specs.Prefix.{LeavesFiles};
ghost use Rattle.files_run.specs.Run.{HasAllFiles};
ghost use Rattle.files_run.specs.code.Rest.{MayHaveCreated, WritesRest, WritesPart};
ghost use Rattle.files_run.specs.Underway.{AreUnsampled, fore_of, run_of, CanRun, Runs, IsStopped, IsFresh, Ends, IsCut, EndsFromStart, IsCutFromStart, IsHeard, IsOfSameRun};

use crate::audio::{Recording, clocks_to_sample, create_audio, listen, write_audio};
use band_log::{Raster, Run};
use clock_loop::run_to;
use crew::{Crew, CrewSide, Gate, with_crew};
use foreground::Fore;
use ocs_base::{Beam, OutOfMemory, Script};
use ocs_io::Place;
use ocs_words::Fault;
use out_files::{OutFiles, WriteFault};
use std::alloc::Global;
use std::sync::{Arc, Wait};
use std::thread::Threads;

/// Who draws: so many workers, at most 32, and the gate that is called before each band is drawn.
#[derive(Drop)]
pub struct Drawing<G> {
    pub workers: u8,
    pub gate: G,
}

/// What a run begins with.
#[derive(Drop)]
pub struct Setup {
    /// The image, the script, the height of a band, and the side as it is at reset.
    pub run: Run<CrewSide>,
    /// The side of the foreground, which does what the run's own does.
    pub side: CrewSide,
    /// The three files, to which nothing was given yet.
    pub out: OutFiles,
}

/// What a run that is under way changes with each clock.
#[derive(Drop)]
struct Underway {
    /// The machine up to the present clock.
    fore: Fore<CrewSide>,
    /// The three files, and what is pending for them.
    out: OutFiles,
    /// What the run sounded up to the present clock, where it is taken.
    heard: Recording,
}

/// A run that has begun: itself, which its jobs share, and what changes with each clock.
#[derive(Drop)]
struct Begun {
    run: Arc<Run<CrewSide>>,
    underway: Underway,
}

/// Runs the script over the image, in bands of `height` lines that so many workers draw, and writes
/// the three files, and the audio file where a name is given for it. They are created once the machine
/// is made, the audio file last. Without a fault they are the texts of the run, whole; after one each of
/// them is as before or has a part of its text. The gate is called before each band is drawn. It may wait.
pub fn run_files<
    R: Threads + Wait + Clone + Drop + Send + Sync + 'static,
    P: Place,
    G: Gate + Drop + Send + Sync + 'static,
>(
    rt: &R,
    alloc: Global,
    drawing: Drawing<G>,
    setup: Setup,
    audio: Option<&str>,
    place: &mut P,
) -> Result<(), Fault>
    requires workers { drawing.workers ≤ 32 }
    requires fresh { IsFresh setup.run.script.system setup.out }
    requires side { side_seen setup.side ≡ side_seen setup.run.side }
    requires apart { IsFourthName setup.out.names (option_map (λ n. n.now) audio) }
    ensures done { OnOk result (HasAllFiles (option_map (λ n. n.now) audio.entry)
        (side_seen setup.run.side) setup.run.image setup.run.script setup.out.names
        (P.outside place.old).files (P.outside place.new).files) }
    ensures stopped { OnErr result (LeavesFiles (option_map (λ n. n.now) audio.entry)
        (side_seen setup.run.side) setup.run.image setup.run.script setup.out.names
        (P.outside place.old).files (P.outside place.new).files) }
    ensures place { WritesRun (option_map (λ n. n.now) audio.entry) result (P.outside place.old)
        (P.outside place.new) }
{
    let _good = setup.run.script();
    let begun = begin(alloc, setup, drawing.workers, audio.is_some())?;
    run_begun(rt, alloc, drawing, begun, audio, place)
}

/// The foreground of a run at reset, and nothing sounded yet. No file is created.
fn begin(alloc: Global, setup: Setup, workers: u8, on: bool) -> Result<Begun, WriteFault>
    requires side { side_seen setup.side ≡ side_seen setup.run.side }
    ensures run { IfOk result (λ begun. arc_value begun.run ≡ setup.run) }
    ensures out { IfOk result (λ begun. begun.underway.out ≡ setup.out) }
    ensures new { IfOk result (λ begun. IsNew (run_of setup.run) (fore_of begun.underway.fore)) }
    ensures silent { IfOk result (λ begun. begun.underway.heard.bytes.items ≡ []) }
    ensures on { IfOk result (λ begun. begun.underway.heard.on ≡ on) }
    ensures memory { IfErr result (λ fault. fault ≡ WriteFault.OutOfMemory) }
{
    let Setup { run, side, out } = setup;
    let run = share(alloc, run)?;
    let fore = fore_for(alloc, &run, side, workers)?;
    let heard = Recording {
        on,
        bytes: Vec::new(alloc),
    };
    let underway = Underway { fore, out, heard };
    Ok(Begun { run, underway })
}

/// Creates the files of a run that has begun, runs all its clocks, and writes what is left.
fn run_begun<
    R: Threads + Wait + Clone + Drop + Send + Sync + 'static,
    P: Place,
    G: Gate + Drop + Send + Sync + 'static,
>(
    rt: &R,
    alloc: Global,
    drawing: Drawing<G>,
    begun: Begun,
    audio: Option<&str>,
    place: &mut P,
) -> Result<(), Fault>
    requires workers { drawing.workers ≤ 32 }
    requires some { 1 ≤ (arc_value begun.run).script.frames }
    requires fresh { IsFresh (arc_value begun.run).script.system begun.underway.out }
    requires new { IsNew (run_of (arc_value begun.run)) (fore_of begun.underway.fore) }
    requires silent { begun.underway.heard.bytes.items ≡ [] }
    requires on { begun.underway.heard.on ≡ is_some audio }
    requires apart { IsFourthName begun.underway.out.names (option_map (λ n. n.now) audio) }
    ensures done { OnOk result (HasAllFiles (option_map (λ n. n.now) audio.entry)
        (side_seen (arc_value begun.run).side) (arc_value begun.run).image
        (arc_value begun.run).script begun.underway.out.names
        (P.outside place.old).files (P.outside place.new).files) }
    ensures stopped { OnErr result (LeavesFiles (option_map (λ n. n.now) audio.entry)
        (side_seen (arc_value begun.run).side) (arc_value begun.run).image
        (arc_value begun.run).script begun.underway.out.names
        (P.outside place.old).files (P.outside place.new).files) }
    ensures place { WritesRun (option_map (λ n. n.now) audio.entry) result (P.outside place.old)
        (P.outside place.new) }
{
    let Begun { run, mut underway } = begun;
    create_files(&mut underway.out, audio, place)?;
    draw_with_crew(rt, alloc, drawing, run, &mut underway, place)?;
    write_rest(underway, audio, place)
}

/// Creates the three files and then the audio file, where a run has one, all empty.
fn create_files<P: Place>(
    out: &mut OutFiles,
    audio: Option<&str>,
    place: &mut P,
) -> Result<(), Fault>
    requires apart { IsFourthName out.old.names (option_map (λ n. n.now) audio) }
    ensures same { out.new ≡ out.old }
    ensures begins { OnOk result (Begins out.new
        (with_audio (option_map (λ n. n.now) audio.entry) (P.outside place.old).files [])
        (P.outside place.new).files) }
    ensures growable { OnOk result (AreGrowable (P.growable place.new) out.old.names) }
    ensures audio { OnOk result
        (IsAudioGrowable (P.growable place.new) (option_map (λ n. n.now) audio.entry)) }
    ensures stopped { OnErr result (MayHaveCreated (option_map (λ n. n.now) audio.entry)
        out.old.names (P.outside place.old).files (P.outside place.new).files) }
    ensures place { WritesRun (option_map (λ n. n.now) audio.entry) result (P.outside place.old)
        (P.outside place.new) }
{
    out.create(place)?;
    create_audio(audio, place)?;
    Ok(())
}

/// Appends the words of chip memory to the memory file, and what was sounded to the audio file.
fn write_rest<P: Place>(underway: Underway, audio: Option<&str>, place: &mut P) -> Result<(), Fault>
    requires growable { AreGrowable (P.growable place.old) underway.out.names }
    requires audio { IsAudioGrowable (P.growable place.old) (option_map (λ n. n.now) audio) }
    ensures done { OnOk result (WritesRest (option_map (λ n. n.now) audio.entry) underway.out
        (memory_text underway.fore.machine.chip.words) underway.heard.bytes.items
        (P.outside place.old).files (P.outside place.new).files) }
    ensures stopped { OnErr result (WritesPart (option_map (λ n. n.now) audio.entry) underway.out
        (memory_text underway.fore.machine.chip.words) underway.heard.bytes.items
        (P.outside place.old).files (P.outside place.new).files) }
    ensures place { WritesRun (option_map (λ n. n.now) audio.entry) result (P.outside place.old)
        (P.outside place.new) }
{
    let Underway {
        fore,
        mut out,
        heard,
    } = underway;
    write_memory(fore, &mut out, place)?;
    write_audio(audio, &heard, place)
}

/// Runs all clocks of a foreground at reset, whose bands a crew draws.
fn draw_with_crew<
    R: Threads + Wait + Clone + Drop + Send + Sync + 'static,
    P: Place,
    G: Gate + Drop + Send + Sync + 'static,
>(
    rt: &R,
    alloc: Global,
    drawing: Drawing<G>,
    run: Arc<Run<CrewSide>>,
    underway: &mut Underway,
    place: &mut P,
) -> Result<(), WriteFault>
    requires workers { drawing.workers ≤ 32 }
    requires growable { AreGrowable (P.growable place.old) underway.old.out.names }
    requires new { IsNew (run_of (arc_value run)) (fore_of underway.old.fore) }
    requires silent { underway.old.heard.bytes.items ≡ [] }
    ensures done { OnOk result (EndsFromStart (run_of (arc_value run)) (fore_of underway.old.fore)
        (fore_of underway.new.fore) underway.old.out underway.new.out
        (P.outside place.old).files (P.outside place.new).files) }
    ensures stopped { OnErr result (IsCutFromStart (run_of (arc_value run))
        (fore_of underway.old.fore) underway.old.out
        (P.outside place.old).files (P.outside place.new).files) }
    ensures same { OnOk result (IsOfSameRun (fore_of underway.old.fore)
        (fore_of underway.new.fore) underway.old.out underway.new.out underway.new.heard) }
    ensures place { LeavesPlace (WritesFiles result) P.outside P.readable P.growable place.old
        place.new }
    ensures on { OnOk result (underway.new.heard.on ≡ underway.old.heard.on) }
{
    let Drawing { workers, gate } = drawing;
    let Underway { fore, out, heard } = underway;
    let mut body = |crew: &mut Crew<R, G>| -> Result<(), WriteFault>
        requires growable { AreGrowable (P.growable place.now) out.now.names }
        requires able { CanRun (fore_of fore.now) (crew_seen crew.old) }
        requires heard { IsHeard heard.now (fore_of fore.now) }
        ensures done { OnOk result (Ends (fore_of fore.entry.now) (fore_of fore.exit.now)
            (crew_seen crew.old)
            out.entry.now out.exit.now (P.outside place.entry.now).files
            (P.outside place.exit.now).files) }
        ensures stopped { OnErr result (IsCut (fore_of fore.entry.now) (crew_seen crew.old)
            out.entry.now
            (P.outside place.entry.now).files (P.outside place.exit.now).files) }
        ensures same { OnOk result (IsOfSameRun (fore_of fore.entry.now) (fore_of fore.exit.now)
            out.entry.now out.exit.now heard.exit.now) }
        ensures mark { (crew_seen crew.new).mark ≡ (crew_seen crew.old).mark }
        ensures place { LeavesPlace (WritesFiles result) P.outside P.readable P.growable
            place.entry.now place.exit.now }
        ensures on { OnOk result (heard.exit.now.on ≡ heard.entry.now.on) }
    { run_whole(fore, crew, out, heard, place) };
    let (answer, _totals) = with_crew(rt, alloc, run, workers, gate, &mut body)?;
    answer
}

/// The foreground of a run at reset. Where there are workers, it lets bands wait for them.
fn fore_for(
    alloc: Global,
    run: &Arc<Run<CrewSide>>,
    side: CrewSide,
    workers: u8,
) -> Result<Fore<CrewSide>, WriteFault>
    requires { side_seen side ≡ side_seen (arc_value run.now).side }
    ensures fore { IfOk result (λ fore. IsNew (run_of (arc_value run.now)) (fore_of fore)) }
    ensures memory { IfErr result (λ fault. fault ≡ WriteFault.OutOfMemory) }
{
    let mut fore = Fore::with_side(alloc, shared(run)?, side)?;
    if workers > 0 {
        fore.gather_late();
    }
    Ok(fore)
}

/// The run in an `Arc`, which its jobs share.
fn share(alloc: Global, run: Run<CrewSide>) -> Result<Arc<Run<CrewSide>>, WriteFault>
    ensures run { IfOk result (λ shared. arc_value shared ≡ run) }
    ensures memory { IfErr result (λ fault. fault ≡ WriteFault.OutOfMemory) }
{
    match Arc::new(alloc, run) {
        Ok(shared) => Ok(shared),
        Err(_) => Err(WriteFault::OutOfMemory),
    }
}

/// One share more of the run.
fn shared(run: &Arc<Run<CrewSide>>) -> Result<Arc<Run<CrewSide>>, WriteFault>
    ensures run { IfOk result (λ shared. arc_value shared ≡ arc_value run.now) }
    ensures memory { IfErr result (λ fault. fault ≡ WriteFault.OutOfMemory) }
{
    match Arc::try_clone(run) {
        Ok(shared) => Ok(shared),
        Err(_) => Err(WriteFault::OutOfMemory),
    }
}

/// Runs all clocks of a foreground over a raster, and appends what is pending.
fn run_whole<P: Place, Q: Raster<CrewSide>>(
    fore: &mut Fore<CrewSide>,
    raster: &mut Q,
    out: &mut OutFiles,
    audio: &mut Recording,
    place: &mut P,
) -> Result<(), WriteFault>
    requires growable { AreGrowable (P.growable place.old) out.old.names }
    requires able { CanRun (fore_of fore.old) (Q.seen raster.old) }
    requires heard { IsHeard audio.old (fore_of fore.old) }
    ensures done { OnOk result (Ends (fore_of fore.old) (fore_of fore.new) (Q.seen raster.old)
        out.old out.new
        (P.outside place.old).files (P.outside place.new).files) }
    ensures stopped { OnErr result (IsCut (fore_of fore.old) (Q.seen raster.old) out.old
        (P.outside place.old).files (P.outside place.new).files) }
    ensures same { OnOk result (IsOfSameRun (fore_of fore.old) (fore_of fore.new) out.old out.new
        audio.new) }
    ensures mark { (Q.seen raster.new).mark ≡ (Q.seen raster.old).mark }
    ensures place { LeavesPlace (WritesFiles result) P.outside P.readable P.growable place.old
        place.new }
    ensures on { audio.new.on ≡ audio.old.on }
{
    run_clocks(fore, raster, out, audio, place)?;
    fore.settle(raster, out)?;
    out.flush(place)?;
    Ok(())
}

/// Runs the clocks up to the first state whose frame is the script's number of frames.
fn run_clocks<P: Place, Q: Raster<CrewSide>>(
    fore: &mut Fore<CrewSide>,
    raster: &mut Q,
    out: &mut OutFiles,
    audio: &mut Recording,
    place: &mut P,
) -> Result<(), WriteFault>
    requires growable { AreGrowable (P.growable place.old) out.old.names }
    requires able { CanRun (fore_of fore.old) (Q.seen raster.old) }
    requires heard { IsHeard audio.old (fore_of fore.old) }
    ensures runs { OnOk result (Runs (fore_of fore.old) (fore_of fore.new) (Q.seen raster.old)
        (Q.seen raster.new)
        out.old out.new (P.outside place.old).files (P.outside place.new).files) }
    ensures able { OnOk result (CanRun (fore_of fore.new) (Q.seen raster.new)) }
    ensures ended { OnOk result (is_done (fore_of fore.new) ≡ true) }
    ensures same { OnOk result (IsOfSameRun (fore_of fore.old) (fore_of fore.new) out.old out.new
        audio.new) }
    ensures mark { (Q.seen raster.new).mark ≡ (Q.seen raster.old).mark }
    ensures stopped { OnErr result (IsStopped (fore_of fore.old) (Q.seen raster.old) out.old
        (P.outside place.old).files (P.outside place.new).files) }
    ensures place { LeavesPlace (WritesFiles result) P.outside P.readable P.growable place.old
        place.new }
    ensures on { audio.new.on ≡ audio.old.on }
{
    while !fore.done() {
        run_some(fore, raster, out, audio)?;
        flush_lines(&fore.beam(), out, place)?;
    }
    Ok(())
}

/// The clock up to which a run goes on in one turn: the first of the next line or, where it is taken what
/// the run sounds, one up to which no more than the present clock is sampled.
fn next_limit(fore: &Fore<CrewSide>, on: bool) -> u64
    requires room { fore.now.machine.t + 228 < 2 ^ 64 }
    ensures later { fore.now.machine.t < result }
    ensures sampled { on ≡ true → is_sampled fore.now.machine.beam ≡ true
        → result ≡ fore.now.machine.t + 1 }
    ensures between { on ≡ true → is_sampled fore.now.machine.beam ≡ false
        → AreUnsampled result (fore_of fore.now) }
{
    if on {
        fore.clocks() + clocks_to_sample(&fore.beam()) as u64
    } else {
        fore.next_line()
    }
}

/// Runs the clocks up to the next line or, where it is taken what the run sounds, the next sampled clock.
fn run_some<Q: Raster<CrewSide>>(
    fore: &mut Fore<CrewSide>,
    raster: &mut Q,
    out: &mut OutFiles,
    audio: &mut Recording,
) -> Result<(), OutOfMemory>
    requires able { CanRun (fore_of fore.old) (Q.seen raster.old) }
    requires running { is_done (fore_of fore.old) ≡ false }
    requires heard { IsHeard audio.old (fore_of fore.old) }
    ensures clocks { OnOk result (RunsOn (fore_of fore.old) (fore_of fore.new)
        (Q.seen raster.old) (Q.seen raster.new) out.old out.new) }
    ensures later { OnOk result (fore.old.machine.t < fore.new.machine.t) }
    ensures run { (fore_of fore.new).run ≡ (fore_of fore.old).run }
    ensures fresh { OnOk result (fore.new.spent ≡ false) }
    ensures mark { (Q.seen raster.new).mark ≡ (Q.seen raster.old).mark }
    ensures heard { OnOk result (IsHeard audio.new (fore_of fore.new)) }
    ensures on { audio.new.on ≡ audio.old.on }
{
    let beam = fore.beam();
    let limit = next_limit(fore, audio.on);
    run_to(fore, limit, raster, out)?;
    listen(&beam, fore.side(), audio)
}

/// Appends what is pending at the first clock of every 64th line.
fn flush_lines<P: Place>(beam: &Beam, out: &mut OutFiles, place: &mut P) -> Result<(), WriteFault>
    requires { AreGrowable (P.growable place.old) out.old.names }
    ensures together { OnOk result (StayTogether out.old out.new (P.outside place.old).files
        (P.outside place.new).files) }
    ensures out { OnOk result (out.new.names ≡ out.old.names) }
    ensures parts { OnErr result
        (LeavesParts out.old (P.outside place.old).files (P.outside place.new).files []) }
    ensures place { LeavesPlace (WritesFiles result) P.outside P.readable P.growable place.old
        place.new }
    ensures empty { OnOk result (beam.now.h ≡ 0 → beam.now.v % 64 ≡ 0 → out.new ≡ all_given
        out.old) }
{
    if beam.h == 0 && beam.v % 64 == 0 {
        return out.flush(place);
    }
    Ok(())
}

/// Appends the words of chip memory to the memory file.
fn write_memory<P: Place>(
    fore: Fore<CrewSide>,
    out: &mut OutFiles,
    place: &mut P,
) -> Result<(), WriteFault>
    requires { AreGrowable (P.growable place.old) out.old.names }
    ensures whole { OnOk result (Completes out.old (P.outside place.old).files
        (P.outside place.new).files (memory_text fore.machine.chip.words)) }
    ensures parts { OnErr result (LeavesParts out.old (P.outside place.old).files
        (P.outside place.new).files (memory_text fore.machine.chip.words)) }
    ensures place { LeavesPlace (WritesFiles result) P.outside P.readable P.growable place.old
        place.new }
{
    let mut chip = fore.finish();
    out.memory(&mut chip, place)
}
