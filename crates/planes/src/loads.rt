//! The loads that a line may still show.

ghost use Rattle.std.specs.Prelude.{◌≡◌, ◌≤◌, ◌<◌, ◌+◌, ◌*◌, ◌^◌, ◌∷◌, ◌++◌, [], ℕ, length, slice_index};
ghost use Rattle.arrayvec.specs.ArrayVec.{array_vec_len};
ghost use Rattle.planes.specs.PlaneBit.{ShowsLoadsOf, all_bits};

use crate::load::Load;
use crate::shown::bits_of_planes;
use arrayvec::ArrayVec;
use std::marker::Model;

/// How many loads can matter at once. The planes of one parity wait for at most 36 starts, as many
/// as the positions that a load can wait, and so do those of the other; one more load is the newest.
const CAPACITY: usize = 73;

/// The loads of a line that its present and coming positions can show, in the order of loading.
///
/// A load is kept until later ones hide it from every plane.
#[derive(Drop)]
pub struct Loads {
    kept: ArrayVec<Load, CAPACITY>,
}

impl Model for Loads {
    ghost use Rattle.std.specs.Prelude.{List};
    ghost use Rattle.planes.specs.declared.load.Load.{Load};

    ghost Value = { List Load };

    ghost view = { λ l. l.kept.items };
}

impl Loads {
    ghost use Rattle.planes.specs.PlaneBit.{load_of, ShowsSame};

    /// No load, as at a line's start.
    pub fn new() -> Loads
        ensures { result ≡ [] }
    {
        Loads {
            kept: ArrayVec::new(),
        }
    }

    /// Forgets every load, as a line's start does.
    pub fn clear(&mut self)
        ensures { self.new ≡ [] }
    {
        self.kept.clear();
    }

    /// The same loads once more. It takes no memory.
    pub fn copied(&self) -> Loads
        ensures { result ≡ self.now }
    {
        let mut kept = ArrayVec::new();
        let _room = kept.try_extend_from_slice(self.kept.as_slice());
        Loads { kept }
    }

    /// Takes in the load of a write to BPL1DAT at clock `h` of the line, with the latches and
    /// BPLCON1 as they are then. Any order of clocks is safe; a line's loads come in that order.
    ///
    /// From position 4h on the planes show what they showed of the loads before, with the new one.
    pub fn load(&mut self, h: u16, latches: &[u16; 6], con1: u16, hires: bool)
        ensures same { ShowsSame (4 * h) self.new
            (self.old ++ load_of h latches.now con1 hires ∷ []) }
    {
        let load = Load::at(h, latches, con1, hires);
        drop_hidden(&mut self.kept, 4 * h as u32, &load);
        self.kept.push(load);
    }
}

/// Drops the loads that neither odd nor even planes show from position `from` on, once `load`
/// follows.
fn drop_hidden(kept: &mut ArrayVec<Load, CAPACITY>, from: u32, load: &Load)
    requires odd { load.now.odd ≤ from + 36 }
    requires even { load.now.even ≤ from + 36 }
    ensures same { ShowsLoadsOf from (kept.new.items ++ load.now ∷ [])
        (kept.old.items ++ load.now ∷ []) }
    ensures room { array_vec_len kept.new < CAPACITY }
{
    let mut odd = load.odd;
    let mut even = load.even;
    let mut at = kept.len();
    while at > 0 {
        at -= 1;
        let earlier = kept.as_slice()[at];
        if odd <= from.max(earlier.odd) && even <= from.max(earlier.even) {
            kept.remove(at);
        } else {
            odd = odd.min(earlier.odd);
            even = even.min(earlier.even);
        }
    }
}

/// The bits that the planes show at position `x`, in high-resolution pixels from the line's begin:
/// plane p is bit p - 1, and planes above `count` show 0.
///
/// These are the bits by all loads of the line at every position from 4h of the last load on.
pub fn plane_bits(l: &Loads, x: u16, count: u8) -> u8
    ensures value { result ≡ all_bits x count l.now }
    ensures few { result < 2 ^ count }
{
    bits_of_planes(l.kept.as_slice(), x as u32, count)
}

/// The bits that the planes show at a span of positions, one after another from `x` on, as
/// `plane_bits` gives each of them.
pub fn plane_span(l: &Loads, x: u16, count: u8, into: &mut [u8])
    requires { x + length into.old ≤ 65535 }
    ensures bits { (i : ℕ) → i < length into.old
        → slice_index into.new i ≡ all_bits (x + i) count l.now }
    ensures size { length into.new ≡ length into.old }
{
    for i in 0..into.len() {
        into[i] = plane_bits(l, x + i as u16, count);
    }
}
