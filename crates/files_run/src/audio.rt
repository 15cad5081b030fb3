//! What a run sounds: what the side shows at the end of two clocks of each line, and the file of it.

ghost use Rattle.std.specs.Prelude.{◌≡◌, ◌≤◌, ◌<◌, ◌+◌, ◌-◌, max, ℕ, ◌++◌, [], true, false, option_map, OnOk, OnErr};
ghost use Rattle.crew.specs.Crew.{side_seen};
ghost use Rattle.files_run.specs.Audio.{is_sampled as is_sample_place, sampled, with_audio, grown_audio, IsAudioGrowable, MayHaveMade, MayHaveGrown};
ghost use Rattle.out_files.specs.Places.{LeavesPlace};
ghost use Rattle.files_run.specs.Place.{WritesRun};

use crew::CrewSide;
use ocs_base::{Beam, OutOfMemory};
use ocs_io::{Place, WriteRefusal};
use ocs_words::{Fault, Output};

/// What was taken of a run's clocks so far, `bytes`, where it is taken, `on`.
#[derive(Drop)]
pub struct Recording {
    pub on: bool,
    pub bytes: Vec<u8>,
}

/// Takes what the side shows as a clock has ended, where it is taken and the beam was at clock 0 or 114
/// of a line: the left and the right byte.
pub(crate) fn listen(beam: &Beam, side: &CrewSide, audio: &mut Recording) -> Result<(), OutOfMemory>
    ensures taken { OnOk result (audio.old.on ≡ true → audio.new.bytes.items
        ≡ audio.old.bytes.items ++ sampled beam.now (side_seen side.now)) }
    ensures on { audio.new.on ≡ audio.old.on }
{
    if !audio.on || !is_sampled(beam) {
        return Ok(());
    }
    let Some((left, right)) = side.pair() else {
        return Ok(());
    };
    audio.bytes.push(left)?;
    audio.bytes.push(right)?;
    Ok(())
}

/// Whether it is taken what a side shows at the end of a clock with the beam there.
fn is_sampled(beam: &Beam) -> bool
    ensures { result ≡ is_sample_place beam.now }
{
    beam.h == 0 || beam.h == 114
}

/// How many clocks of a line there are from this one on, at least one, before the next that is sampled or
/// behind the line's clock 226: one where this one is sampled.
pub(crate) fn clocks_to_sample(beam: &Beam) -> u16
    ensures some { 1 ≤ result }
    ensures sampled { is_sample_place beam.now ≡ true → result ≡ 1 }
    ensures line { result ≤ max 1 (227 - beam.now.h) }
    ensures none { is_sample_place beam.now ≡ false → (k : ℕ) → k < result
        → is_sample_place (record beam.now { h = beam.now.h + k }) ≡ false }
{
    if is_sampled(beam) {
        return 1;
    }
    let next: u16 = if beam.h < 114 { 114 } else { 227 };
    next.saturating_sub(beam.h).max(1)
}

/// Creates the audio file, empty, where a run has one. After a refusal it is as before or empty.
pub(crate) fn create_audio<P: Place>(name: Option<&str>, place: &mut P) -> Result<(), Fault>
    ensures done { OnOk result ((P.outside place.new).files
        ≡ with_audio (option_map (λ n. n.now) name.entry) (P.outside place.old).files []) }
    ensures growable { OnOk result
        (IsAudioGrowable (P.growable place.new) (option_map (λ n. n.now) name.entry)) }
    ensures stopped { OnErr result (MayHaveMade (option_map (λ n. n.now) name.entry)
        (P.outside place.old).files (P.outside place.new).files) }
    ensures place { LeavesPlace (WritesRun (option_map (λ n. n.now) name.entry) result) P.outside
        P.readable P.growable place.old place.new }
{
    let Some(name) = name else {
        return Ok(());
    };
    match place.create(name) {
        Ok(()) => Ok(()),
        Err(WriteRefusal::Failed) => Err(Fault::Unwritten {
            output: Output::Audio,
        }),
        Err(WriteRefusal::OutOfMemory) => Err(Fault::OutOfMemory),
    }
}

/// Appends what was taken to the audio file, where a run has one. After a refusal it has a part of it.
pub(crate) fn write_audio<P: Place>(
    name: Option<&str>,
    heard: &Recording,
    place: &mut P,
) -> Result<(), Fault>
    requires { IsAudioGrowable (P.growable place.old) (option_map (λ n. n.now) name) }
    ensures done { OnOk result ((P.outside place.new).files
        ≡ grown_audio (option_map (λ n. n.now) name.entry) (P.outside place.old).files
        heard.now.bytes.items) }
    ensures stopped { OnErr result (MayHaveGrown (option_map (λ n. n.now) name.entry)
        heard.now.bytes.items
        (P.outside place.old).files (P.outside place.new).files) }
    ensures place { WritesRun (option_map (λ n. n.now) name.entry) result (P.outside place.old)
        (P.outside place.new) }
{
    let Some(name) = name else {
        return Ok(());
    };
    match place.append(name, &heard.bytes) {
        Ok(()) => Ok(()),
        Err(WriteRefusal::Failed) => Err(Fault::Unwritten {
            output: Output::Audio,
        }),
        Err(WriteRefusal::OutOfMemory) => Err(Fault::OutOfMemory),
    }
}
