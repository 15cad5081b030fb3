//! Collisions of one pixel: which playfields and pairs of sprites meet there; and the read of those that were gathered.
#![tactic(auto)]

ghost use Rattle.std.specs.Prelude.{◌≡◌, ◌<◌, ◌∷◌, [], ◌&&◌};
ghost use Rattle.collisions.specs.Collision.{collision_bits, playfield_matches, is_present, number_of};

/// The collision bits of a pixel inside the display window, in the places of CLXDAT (Hardware
/// Reference Manual, collision detection; bit 15 is 0, profile).
///
/// `con` is CLXCON, `bits` has plane p as its bit p - 1, and `values` are the sprites' values, of
/// which 0 is transparent.
pub fn clx(con: u16, bits: u8, values: &[u8; 8]) -> u16
    ensures { result ≡ collision_bits con bits values.now }
{
    let (one, two) = playfields(con, bits);
    let a = is_pair_there(con, values, 0);
    let b = is_pair_there(con, values, 1);
    let c = is_pair_there(con, values, 2);
    let d = is_pair_there(con, values, 3);
    let playfields = (one & two) as u16;
    playfields
        + 2 * with_pairs(one, a, b, c, d)
        + 32 * with_pairs(two, a, b, c, d)
        + 512 * among_pairs(a, b, c, d)
}

/// Whether the playfields of a pixel inside the display window collide with one another: both
/// match. That is bit 0 of its collision bits, and the only one that can be set where no sprite
/// shows (Hardware Reference Manual, collision detection).
///
/// `con` is CLXCON, and `bits` has plane p as its bit p - 1.
pub fn do_playfields_meet(con: u16, bits: u8) -> bool
    ensures { result ≡ (playfield_matches con bits 1 && playfield_matches con bits 2) }
{
    let (one, two) = playfields(con, bits);
    one & two
}

/// Whether each of the two playfields of a pixel matches, playfield 1 of planes 1, 3 and 5 and
/// playfield 2 of planes 2, 4 and 6: its planes that CLXCON enables show the wanted bits (Hardware
/// Reference Manual, collision detection).
///
/// `con` is CLXCON, and `bits` has plane p as its bit p - 1.
pub fn playfields(con: u16, bits: u8) -> (bool, bool)
    ensures one { result.0 ≡ playfield_matches con bits 1 }
    ensures two { result.1 ≡ playfield_matches con bits 2 }
{
    let against = (con >> 6) & (con ^ bits as u16);
    let any = against | against >> 2 | against >> 4;
    (any & 1 == 0, any & 2 == 0)
}

/// The word of a read of CLXDAT: the collision bits that were gathered since the last one, which it
/// clears (Hardware Reference Manual, collision detection).
pub fn read_clxdat(gathered: &mut u16) -> u16
    ensures bits { result ≡ gathered.old }
    ensures cleared { gathered.new ≡ 0 }
{
    let bits = *gathered;
    *gathered = 0;
    bits
}

/// Whether a pair of sprites is present.
fn is_pair_there(con: u16, values: &[u8; 8], pair: usize) -> bool
    requires { pair < 4 }
    ensures { result ≡ is_present con values.now pair }
{
    let odd = values[2 * pair + 1] != 0;
    let counts = (con >> (pair + 12)) & 1 == 1;
    (values[2 * pair] != 0) | (odd & counts)
}

/// The collisions of a playfield with the four pairs.
fn with_pairs(playfield: bool, a: bool, b: bool, c: bool, d: bool) -> u16
    ensures { result ≡ number_of ((playfield && a) ∷ (playfield && b)
        ∷ (playfield && c) ∷ (playfield && d) ∷ []) }
{
    (playfield & a) as u16
        + 2 * (playfield & b) as u16
        + 4 * (playfield & c) as u16
        + 8 * (playfield & d) as u16
}

/// The collisions of the pairs with one another.
fn among_pairs(a: bool, b: bool, c: bool, d: bool) -> u16
    ensures { result ≡ number_of ((a && b) ∷ (a && c) ∷ (a && d)
        ∷ (b && c) ∷ (b && d) ∷ (c && d) ∷ []) }
{
    (a & b) as u16
        + 2 * (a & c) as u16
        + 4 * (a & d) as u16
        + 8 * (b & c) as u16
        + 16 * (b & d) as u16
        + 32 * (c & d) as u16
}
