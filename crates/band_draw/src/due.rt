//! The script's events of a clock, by a cursor into the script.

ghost use Rattle.std.specs.Prelude.{◌≡◌, ◌≤◌, ◌<◌, ◌+◌, ◌^◌, ℕ, length, drop, nat_lt, slice_get, true};
ghost use Rattle.serial_model.specs.Beam.{IsOnScreen, place_of};
ghost use Rattle.serial_model.specs.Events.{due_events, touches_of, is_due as due_at};
ghost use Rattle.ocs_base.specs.Limits.{time_of, order_of};
ghost use Rattle.band_draw.specs.code.Due.{IsLeft, IsLeftEarlier, is_set as sets, before_if, due_if, sets_if};

use band_log::Cursor;
use ocs_base::{Act, At, Beam, time_order};
use serial_model::Denise;

/// The place of the first event of a script that is not before the beam's place, found by halving.
pub fn first_from(script: &[At], beam: &Beam) -> Cursor
    requires { IsLeft 0 script.now script.now }
    ensures left { IsLeft (place_of beam.now) script.now (drop result.next script.now) }
    ensures within { result.next ≤ length script.now }
{
    let place = order(beam.frame, beam.v, beam.h);
    let next = script.partition_point(|event| is_before(event, place));
    Cursor { next }
}

/// Whether an event is before a place in the order of time.
fn is_before(event: &At, place: u64) -> bool
    ensures { result ≡ nat_lt (time_of event.now) place }
{
    order(event.frame, event.v, event.h) < place
}

/// A place in the order of time, as one number.
fn order(frame: u32, v: u16, h: u16) -> u64
    ensures { result ≡ order_of frame v h }
{
    time_order(frame, v, h)
}

/// What of a script is due at a place.
#[derive(Clone, Copy)]
pub struct Due {
    /// How many events write to one of Denise's registers.
    pub sets: usize,
    /// The place behind what is due.
    pub behind: Cursor,
}

/// What of a script is due at the beam's place, where the events before the cursor are before it, and
/// perhaps others.
pub fn find_due(script: &[At], from: Cursor, beam: &Beam) -> Due
    requires screen { IsOnScreen beam.now }
    requires all { IsLeft 0 script.now script.now }
    requires left { IsLeftEarlier (place_of beam.now) script.now (drop from.next script.now) }
    requires within { from.next ≤ length script.now }
    ensures sets { result.sets ≡ length (touches_of (due_events beam.now script.now)) }
    ensures left { IsLeft (place_of beam.now + 1) script.now
        (drop result.behind.next script.now) }
    ensures within { result.behind.next ≤ length script.now }
{
    let first = first_after(script, from, beam);
    due_from(script, first, beam)
}

/// The place of the first event that is not before the beam's place, where those before the cursor
/// are: mostly that of the cursor, and else found by halving.
fn first_after(script: &[At], from: Cursor, beam: &Beam) -> Cursor
    requires all { IsLeft 0 script.now script.now }
    requires left { IsLeftEarlier (place_of beam.now) script.now (drop from.next script.now) }
    requires within { from.next ≤ length script.now }
    ensures left { IsLeft (place_of beam.now) script.now (drop result.next script.now) }
    ensures within { result.next ≤ length script.now }
{
    if is_next_before(script, from.next, beam) {
        return first_from(script, beam);
    }
    from
}

/// Whether there is an event at this place of a script that is before the beam's place.
fn is_next_before(script: &[At], at: usize, beam: &Beam) -> bool
    ensures { result ≡ before_if (place_of beam.now) (slice_get script.now at) }
{
    match script.get(at) {
        Some(event) => is_before(event, order(beam.frame, beam.v, beam.h)),
        None => false,
    }
}

/// What is due at the beam's place of a script, of which the events before the cursor are before it.
pub fn due_from(script: &[At], from: Cursor, beam: &Beam) -> Due
    requires screen { IsOnScreen beam.now }
    requires left { IsLeft (place_of beam.now) script.now (drop from.next script.now) }
    requires within { from.next ≤ length script.now }
    ensures sets { result.sets ≡ length (touches_of (due_events beam.now script.now)) }
    ensures left { IsLeft (place_of beam.now + 1) script.now
        (drop result.behind.next script.now) }
    ensures within { result.behind.next ≤ length script.now }
{
    let mut sets = 0;
    let mut next = from.next;
    while is_next_due(script, next, beam) {
        sets += set_count(script, next);
        next += 1;
    }
    let behind = Cursor { next };
    Due { sets, behind }
}

/// Whether there is an event at this place of a script that is due.
fn is_next_due(script: &[At], at: usize, beam: &Beam) -> bool
    ensures due { result ≡ due_if beam.now (slice_get script.now at) }
    ensures there { result ≡ true → at < length script.now }
{
    match script.get(at) {
        Some(event) => is_due(beam, event),
        None => false,
    }
}

/// How many writes to Denise's registers, one or none, are at this place of a script.
fn set_count(script: &[At], at: usize) -> usize
    ensures count { result ≡ sets_if (slice_get script.now at) }
    ensures few { result ≤ 1 }
{
    match script.get(at) {
        Some(event) => is_set(&event.act) as usize,
        None => 0,
    }
}

/// Whether an event is at this place of the beam.
fn is_due(beam: &Beam, event: &At) -> bool
    ensures { result ≡ due_at beam.now event.now }
{
    event.frame == beam.frame && event.v == beam.v && event.h == beam.h
}

/// Whether an act writes to one of Denise's registers.
fn is_set(act: &Act) -> bool
    ensures { result ≡ sets act.now }
{
    match act {
        Act::Poke { reg, .. } => Denise::has_register(*reg),
        _ => false,
    }
}
