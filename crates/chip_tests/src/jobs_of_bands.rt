//! Each public call once, with ample memory.

ghost use Rattle.std.specs.Prelude.{◌≡◌, length};

use crate::answers::hold;
use band_log::{Denise, Drawn, Event, Events, Job, Picture, Room, Run};
use mem_versions::{Chip, MemReplay};
use ocs_base::{Addr, Beam, Clock, OutOfMemory, Script};
use planes::plane_bits;
use serial_model::{NoSide, Side};
use small_runs::{Steady, small_run};
use std::alloc::Global;
use std::sync::Arc;

/// Whether a run is of eight bytes 7, so many frames, with or without a processor, and bands of this height.
fn is_made_of<S: Side>(run: &Run<S>, frames: u32, cpu: bool, height: u16) -> bool {
    let script = run.script();
    run.image() == [7; 8].as_slice()
        && script.frames() == frames
        && script.cpu() == cpu
        && run.height() == height
}

#[test]
fn a_run_has_what_it_is_made_of(rt: HostRuntime) -> Result<(), OutOfMemory> {
    let alloc = rt.alloc();
    let image = Vec::from_slice(alloc, &[7; 8])?;
    let run = Run::new(image, Script::new(alloc, true, 2), 20);
    is_shared(&run);
    hold(&rt, is_made_of(&run, 2, true, 20));
    Ok(())
}

#[test]
fn a_run_over_a_side_has_what_it_is_made_of(rt: HostRuntime) -> Result<(), OutOfMemory> {
    let alloc = rt.alloc();
    let image = Vec::from_slice(alloc, &[7; 8])?;
    let run = Run::over(
        image,
        Script::new(alloc, false, 3),
        313,
        Steady { bits: 0x0080 },
    );
    is_shared(&run);
    hold(&rt, is_made_of(&run, 3, false, 313));
    Ok(())
}

/// Pushes three fetches, at clocks 3 to 5.
fn push_fetches(events: &mut Events) -> Result<(), OutOfMemory> {
    for at in 3..6 {
        events.push(fetch(at))?;
    }
    Ok(())
}

/// The clock of an event of a list that fetches plane 6; nothing for any other.
fn clock_of(list: &[Event], place: usize) -> Option<u64> {
    match list.get(place) {
        Some(Event::Plane { at, plane: 6, .. }) => Some(at.0),
        _ => None,
    }
}

#[test]
fn events_keep_their_order(rt: HostRuntime) -> Result<(), OutOfMemory> {
    let mut events = Events::new(rt.alloc());
    let before = events.list().len();
    push_fetches(&mut events)?;
    let list = events.list();
    let clocks = [clock_of(list, 0), clock_of(list, 2)];
    hold(
        &rt,
        [before, list.len()] == [0, 3] && clocks == [Some(3), Some(5)],
    );
    Ok(())
}

/// Whether six bytes are 0 at first, and then those that are written.
fn keeps_bytes(room: &mut Room) -> bool {
    let is_empty = room.pixels() == [0; 6].as_slice();
    if room.pixels().len() != 6 {
        return false;
    }
    fill(room, &[17, 34, 51, 68, 85, 102]);
    is_empty && room.pixels() == [17, 34, 51, 68, 85, 102].as_slice()
}

#[test]
fn a_room_has_what_is_written(rt: HostRuntime) -> Result<(), OutOfMemory> {
    let mut room = Room::new(rt.alloc(), 6)?;
    hold(&rt, keeps_bytes(&mut room));
    Ok(())
}

#[test]
fn the_picture_state_at_reset(rt: HostRuntime) {
    let denise = Denise::reset();
    let bits = plane_bits(&denise.loads, 0, 6);
    hold(
        &rt,
        denise.palette == [0; 32] && denise.armed == 0 && bits == 0,
    );
}

/// Whether what is drawn is of a run with bands of 20 lines, one event, and a room of 12 bytes.
fn is_small(drawn: &Drawn<NoSide>) -> bool {
    let job = &drawn.job;
    is_shared(job);
    is_shared(drawn);
    job.run.height() == 20 && job.events.list().len() == 1 && job.room.pixels().len() == 12
}

#[test]
fn a_job_and_what_is_drawn_of_it(rt: HostRuntime) -> Result<(), OutOfMemory> {
    let job = small_job(rt.alloc())?;
    hold(&rt, is_small(&Drawn { job, clx: 1 }));
    Ok(())
}

/// The job of a band of one picture step.
fn small_job(alloc: Global) -> Result<Job<NoSide>, OutOfMemory> {
    let run = Arc::new(alloc, small_run(alloc, NoSide)?)?;
    let mut events = Events::new(alloc);
    events.push(fetch(0))?;
    Ok(Job {
        run,
        number: 0,
        from: Clock(0),
        to: Clock(1),
        beam: Beam {
            frame: 0,
            v: 0,
            h: 0,
            lof: true,
        },
        picture: Picture::new(alloc, Denise::reset())?,
        events,
        view: small_view(alloc)?,
        room: Room::new(alloc, 12)?,
    })
}

/// A view of the first clock.
fn small_view(alloc: Global) -> Result<MemReplay, OutOfMemory> {
    let mut chip = Chip::new(alloc, &[7; 8])?;
    chip.cut_replay(Clock(1))
}

fn fetch(at: u64) -> Event {
    Event::Plane {
        at: Clock(at),
        plane: 6,
        addr: Addr::at(2),
    }
}

/// Writes all bytes of a room.
fn fill(room: &mut Room, bytes: &[u8])
    requires { length bytes.now ≡ length room.old }
    ensures { room.new ≡ bytes.now }
{
    room.pixels_mut().copy_from_slice(bytes);
}

fn is_shared<T: Send + Sync>(_value: &T) {}
