//! The collisions of a pixel, from what its playfields alone meet and the pairs that are present.

ghost use Rattle.std.specs.Prelude.{◌≡◌, ◌≤◌, ◌<◌, ◌∷◌, [], ℕ, List, replicate};
ghost use Rattle.collisions.specs.Collision.{collision_bits, number_of};
ghost use Rattle.sprite_rows.specs.PairCollision.{
  is_byte_present,
  present_pairs,
  worth_of_playfields,
  among_pairs,
  most_collisions,
};

use collisions::clx;

/// What the pairs that are present, pair p as bit p, meet among one another, in the places of
/// CLXDAT.
const AMONG: [u16; 16] = [
    0x0000, 0x0000, 0x0000, 0x0200, 0x0000, 0x0400, 0x1000, 0x1600, 0x0000, 0x0800, 0x2000, 0x2a00,
    0x4000, 0x4c00, 0x7000, 0x7e00,
];

/// The collision bits of a pixel inside the display window, in the places of CLXDAT (Hardware
/// Reference Manual, collision detection).
///
/// `quiet` are the collision bits of its playfields without any sprite, 0 or 1, and `worth` what a
/// pair that is present adds by meeting them, as `playfield_worth` gives it. Bit p of `present`, p
/// from 0 to 3, says that pair p is present.
pub fn collisions(quiet: u16, worth: u16, present: u8) -> u16
    requires quiet { quiet ≤ 1 }
    requires worth { worth ≤ 34 }
    requires present { present < 16 }
    ensures { (con bits : ℕ) → (values : List ℕ) →
        quiet ≡ collision_bits con bits (replicate 8 0) → worth ≡ worth_of_playfields con bits →
        present ≡ present_pairs con values → result ≡ collision_bits con bits values }
{
    quiet + worth * present as u16 + AMONG[present as usize]
}

/// What pair 0 adds to the collision bits of a pixel by meeting its playfields: 2 where playfield 1
/// matches and 32 where playfield 2 does. Pair p adds 2^p times as much.
///
/// `clxcon` is CLXCON, and `bits` has plane p as its bit p - 1.
pub fn playfield_worth(clxcon: u16, bits: u8) -> u16
    ensures value { result ≡ worth_of_playfields clxcon bits }
    ensures few { result ≤ 34 }
{
    clx(clxcon, bits, &[1, 0, 0, 0, 0, 0, 0, 0]) - clx(clxcon, bits, &[0; 8])
}

/// Which pairs are present, pair p as bit p, from the four pairs' bytes.
pub fn present_in(a: u8, b: u8, c: u8, d: u8, clxcon: u16) -> u8
    ensures { result ≡ number_of (is_byte_present clxcon 0 a ∷ is_byte_present clxcon 1 b
        ∷ is_byte_present clxcon 2 c ∷ is_byte_present clxcon 3 d ∷ []) }
{
    is_present(clxcon, 0, a) as u8
        + 2 * is_present(clxcon, 1, b) as u8
        + 4 * is_present(clxcon, 2, c) as u8
        + 8 * is_present(clxcon, 3, d) as u8
}

/// Whether a pair is present: by its even sprite, or by its odd one where CLXCON counts it (ENSP1,
/// ENSP3, ENSP5 and ENSP7, bits 12 to 15).
fn is_present(clxcon: u16, pair: u16, byte: u8) -> bool
    requires { pair ≤ 3 }
    ensures { result ≡ is_byte_present clxcon pair byte }
{
    let counts = (clxcon >> (pair + 12)) & 1 == 1;
    let seen = if counts { byte } else { byte % 4 };
    seen != 0
}

/// What a pixel whose playfields both match collides where these pairs are present, pair p as bit p.
const REACH: [u16; 16] = [
    0x0001, 0x0023, 0x0045, 0x0267, 0x0089, 0x04ab, 0x10cd, 0x16ef, 0x0111, 0x0933, 0x2155, 0x2b77,
    0x4199, 0x4dbb, 0x71dd, 0x7fff,
];

/// The collision bits that a pixel has at most where the four pairs have these bytes, in the places of
/// CLXDAT: its playfields both match, and each pair is present that shows.
#[inline(always)]
pub fn reach_of(a: u8, b: u8, c: u8, d: u8) -> u16
    ensures { result ≡ most_collisions a b c d }
{
    let there = (a != 0) as usize
        + 2 * (b != 0) as usize
        + 4 * (c != 0) as usize
        + 8 * (d != 0) as usize;
    REACH[there]
}
