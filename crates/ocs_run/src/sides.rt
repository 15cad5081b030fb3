//! What stands beside the chips as a run begins: nothing, the four channels of sound, or a disk.

ghost use Rattle.std.specs.Prelude.{◌≡◌, true, IfOk, IfErr};
ghost use Rattle.crew.specs.Crew.{side_seen};
ghost use Rattle.disk_dma.specs.Disk.{disk_side, new_disk};
ghost use Rattle.disk_dma.specs.Track.{is_track as good_track};
ghost use Rattle.ocs_base.specs.Sizes.{bytes_of};
ghost use Rattle.ocs_io.specs.Place.{OnlyReads};
ghost use Rattle.ocs_words.specs.Asked.{extra_value};
ghost use Rattle.ocs_words.specs.Order.{TrackFile};
ghost use Rattle.ocs_run.specs.Sides.{ReadableTrack, IsSideOf, IsSideFault, IsTrackOf, IsTrackFault};
ghost use Rattle.out_files.specs.Places.{LeavesPlace};
ghost use Rattle.serial_model.specs.Side.{FitsSide};

use crew::CrewSide;
use disk_dma::Disk;
use ocs_base::{ChipSize, OutOfMemory};
use ocs_io::{Place, ReadRefusal};
use ocs_words::{Extra, Fault};
use paula_audio::Paula;
use std::alloc::Global;

/// The most bytes of a track.
const TRACK_BYTES: usize = 32_768;

/// One side twice: a run keeps the first, and the second is its foreground's.
#[derive(Drop)]
pub struct Sides {
    pub first: CrewSide,
    pub second: CrewSide,
}

/// Makes the side of a run with chip memory of this size. The track of one that has a disk is read.
pub fn read_sides<P: Place>(
    alloc: Global,
    extra: Extra<'_>,
    chip: ChipSize,
    place: &mut P,
) -> Result<Sides, Fault>
    requires track { ReadableTrack (P.readable place.old) (extra_value extra) }
    ensures side { IfOk result (λ sides. IsSideOf (P.outside place.old) chip
        (extra_value extra.entry) (side_seen sides.first)) }
    ensures same { IfOk result (λ sides. side_seen sides.second ≡ side_seen sides.first) }
    ensures fits { IfOk result (λ sides. FitsSide (bytes_of chip) (side_seen sides.first)) }
    ensures fault { IfErr result (IsSideFault (P.outside place.old) (P.outside place.new)
        (extra_value extra.entry)) }
    ensures place { LeavesPlace OnlyReads P.outside P.readable P.growable place.old place.new }
{
    match extra {
        Extra::None => Ok(Sides {
            first: CrewSide::Nothing,
            second: CrewSide::Nothing,
        }),
        Extra::Audio(_) => Ok(Sides {
            first: CrewSide::Sound(Paula::reset(chip.bytes())),
            second: CrewSide::Sound(Paula::reset(chip.bytes())),
        }),
        Extra::Track(name) => read_disks(alloc, name, chip, place),
    }
}

/// Reads the track of a disk, and makes that disk twice.
fn read_disks<P: Place>(
    alloc: Global,
    name: &str,
    chip: ChipSize,
    place: &mut P,
) -> Result<Sides, Fault>
    requires { P.readable place.old name.now }
    ensures side { IfOk result (λ sides. IsSideOf (P.outside place.old) chip (TrackFile name.now)
        (side_seen sides.first)) }
    ensures same { IfOk result (λ sides. side_seen sides.second ≡ side_seen sides.first) }
    ensures fits { IfOk result (λ sides. FitsSide (bytes_of chip) (side_seen sides.first)) }
    ensures fault { IfErr result (IsTrackFault (P.outside place.old) (P.outside place.new)
        name.now) }
    ensures place { LeavesPlace OnlyReads P.outside P.readable P.growable place.old place.new }
{
    let track = read_track(alloc, name, place)?;
    let sides = make_disks(alloc, &track, chip)?;
    Ok(sides)
}

/// A disk with this track, twice.
fn make_disks(alloc: Global, track: &[u8], chip: ChipSize) -> Result<Sides, OutOfMemory>
    requires { good_track track.now ≡ true }
    ensures side { IfOk result (λ sides. side_seen sides.first
        ≡ disk_side (new_disk track.now chip)) }
    ensures same { IfOk result (λ sides. side_seen sides.second ≡ side_seen sides.first) }
    ensures fits { IfOk result (λ sides. FitsSide (bytes_of chip) (side_seen sides.first)) }
{
    let first = Disk::new(alloc, track, chip.bytes())?;
    let second = Disk::new(alloc, track, chip.bytes())?;
    Ok(Sides {
        first: CrewSide::Reading(first),
        second: CrewSide::Reading(second),
    })
}

/// Reads the track: an even number of 2 to 32,768 bytes.
fn read_track<P: Place>(alloc: Global, name: &str, place: &mut P) -> Result<Vec<u8>, Fault>
    requires { P.readable place.old name.now }
    ensures good { IfOk result (λ track. IsTrackOf (P.outside place.old) name.now track.items) }
    ensures fault { IfErr result (IsTrackFault (P.outside place.old)
        (P.outside place.new) name.now) }
    ensures place { LeavesPlace OnlyReads P.outside P.readable P.growable place.old place.new }
{
    let mut track = Vec::new(alloc);
    match place.read(name, TRACK_BYTES, &mut track) {
        Ok(()) if is_track(&track) => Ok(track),
        Ok(()) | Err(ReadRefusal::TooLong) => Err(Fault::BadTrack),
        Err(ReadRefusal::Failed) => Err(Fault::UnreadTrack),
        Err(ReadRefusal::OutOfMemory) => Err(Fault::OutOfMemory),
    }
}

/// Whether bytes have the form of a track.
fn is_track(track: &[u8]) -> bool
    ensures { result ≡ good_track track.now }
{
    track.len() % 2 == 0 && 2 <= track.len() && track.len() <= TRACK_BYTES
}
