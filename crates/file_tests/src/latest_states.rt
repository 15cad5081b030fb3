//! A ring of the latest states; the expected entries are worked by hand.

ghost use Rattle.std.specs.Prelude.{◌≡◌, ◌∷◌, [], IfOk};

use crate::answers::{hold, is_so};
use ocs_base::{Clock, OutOfMemory};
use ocs_rewind::Ring;
use std::alloc::Global;

/// A ring of two after pushes at clocks 1, 2 and 3.
fn after_three_pushes(alloc: Global) -> Result<Ring<u32>, OutOfMemory>
    ensures { IfOk result (λ ring. ring ≡ record {
      entries =
          record { at = record { 0 = 2 }; state = 20 }
          ∷ record { at = record { 0 = 3 }; state = 30 } ∷ [];
      keep = 2;
    }) }
{
    let mut ring = Ring::new(alloc, 2)?;
    ring.push(Clock(1), 10);
    ring.push(Clock(2), 20);
    ring.push(Clock(3), 30);
    Ok(ring)
}

/// The clock and the state of the best entry, 0 and 0 where there is none.
fn best_of(ring: &Ring<u32>, clock: u64) -> (u64, u32) {
    match ring.best(Clock(clock)) {
        Some((at, state)) => (at.0, *state),
        None => (0, 0),
    }
}

/// Whether the ring has the best entries for clocks from before its first to behind its last.
fn has_best(ring: &Ring<u32>) -> bool {
    let found = [
        best_of(ring, 1),
        best_of(ring, 2),
        best_of(ring, 3),
        best_of(ring, 9),
    ];
    found == [(0, 0), (2, 20), (3, 30), (3, 30)]
}

/// Whether it has after three pushes.
fn pushed_ring_has_best(alloc: Global) -> Result<bool, OutOfMemory> {
    let ring = after_three_pushes(alloc)?;
    Ok(has_best(&ring))
}

/// The oldest entry of a full ring went.
#[test]
fn the_best_for_a_clock(rt: HostRuntime) {
    hold(&rt, is_so(pushed_ring_has_best(rt.alloc())));
}

/// Whether a ring is as it should be where it is cut behind clock 2, then pushed to at clock 7, and then cut
/// behind clock 0.
fn ring_is_cut_well(alloc: Global) -> Result<bool, OutOfMemory> {
    let mut ring = after_three_pushes(alloc)?;
    ring.cut_after(Clock(2));
    let cut = best_of(&ring, 9);
    ring.push(Clock(7), 70);
    let pushed = [best_of(&ring, 6), best_of(&ring, 9)];
    ring.cut_after(Clock(0));
    let emptied = best_of(&ring, 9);
    Ok([cut, pushed[0], pushed[1], emptied] == [(2, 20), (2, 20), (7, 70), (0, 0)])
}

#[test]
fn a_ring_is_cut(rt: HostRuntime) {
    hold(&rt, is_so(ring_is_cut_well(rt.alloc())));
}
