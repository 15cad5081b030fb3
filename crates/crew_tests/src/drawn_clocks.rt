//! Single clocks worked by hand, and rasters without bands.

ghost use Rattle.std.specs.Prelude.{◌≡◌, true};

use band_draw::{BandPainter, Direct, bus_count, show_clock};
use band_log::{Denise, Event, Raster};
use ocs_base::{Beam, Clock, OutOfMemory, Reg, System};
use serial_model::NoSide;
use small_runs::Steady;

/// A write of f00 to COLOR00 at clock 100 of line 100: the clock before is black, and from that one on the
/// picture is red.
#[test]
fn a_colour_shows_from_its_clock_on(rt: HostRuntime) {
    let mut room = [7; 30];
    let mut clx = 0;
    let here = place(100, 99);
    let mut before = fresh(&here);
    let first = show_clock(&mut before, System::Pal, &here, &mut room, 0, &mut clx);
    let here = place(100, 100);
    let mut after = fresh(&here);
    after.set(100, 0x180, 0x0f00);
    let second = show_clock(&mut after, System::Pal, &here, &mut room, 12, &mut clx);
    let want = [
        0, 0, 0, 0, 0, 0, 0, 0, 0, 0, 0, 0, 255, 0, 0, 255, 0, 0, 255, 0, 0, 255, 0, 0, 7, 7, 7, 7,
        7, 7,
    ];
    let is_closed = after.close().palette[0] == 0x0f00;
    assert!(rt; [first, second] == [12, 24] && is_closed && room == want);
}

/// A fetch belongs to its own clock, and a write to the access where the script's follow behind it.
#[test]
fn the_event_of_an_access(rt: HostRuntime) {
    let write = Event::Set {
        at: Clock(6),
        reg: Reg::masked(0x180),
        word: 1,
    };
    let found = [
        bus_count(5, 0, &[write]),
        bus_count(5, 1, &[write]),
        bus_count(5, 1, &[write, write]),
        bus_count(6, 0, &[write]),
        bus_count(5, 0, &[]),
    ];
    assert!(rt; found == [1, 0, 1, 0, 0]);
}

#[test]
fn a_raster_without_bands(rt: HostRuntime) -> Result<(), OutOfMemory> {
    let raster = Direct::<NoSide>::new(rt.alloc())?;
    assert!(rt; raster.outstanding() == 0);
    Ok(())
}

#[test]
fn a_raster_over_a_side_without_bands(rt: HostRuntime) -> Result<(), OutOfMemory> {
    let raster = Direct::<Steady>::new(rt.alloc())?;
    assert!(rt; raster.outstanding() == 0);
    Ok(())
}

fn fresh(beam: &Beam) -> BandPainter
    ensures { result.keeps ≡ true }
{
    BandPainter::open(&Denise::reset(), beam)
}

fn place(v: u16, h: u16) -> Beam
    ensures { result.h ≡ h }
{
    Beam {
        frame: 0,
        v,
        h,
        lof: true,
    }
}
