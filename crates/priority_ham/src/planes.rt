//! The number of planes.

ghost use Rattle.std.specs.Prelude.{◌≡◌, ◌≤◌};
ghost use Rattle.priority_ham.specs.PlaneCount.{planes_of};

/// How many planes BPLCON0 gives: BPU, at most 6 in low and at most 4 in high resolution (profile
/// for greater values).
pub fn plane_count(con0: u16) -> u8
    ensures value { result ≡ planes_of con0 }
    ensures few { result ≤ 6 }
{
    let most = if con0 >> 15 & 1 == 1 { 4 } else { 6 };
    let planes = (con0 >> 12 & 7) as u8;
    planes.min(most)
}
