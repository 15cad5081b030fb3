//! Bytes of pixels, put one after another.

ghost use Rattle.std.specs.Prelude.{◌≡◌, ◌≤◌, ◌+◌, ◌*◌, ◌++◌, ℕ, flat_map, length, replicate, take};
ghost use Rattle.serial_model.specs.Picture.{colour_bytes};
ghost use Rattle.painter.specs.Inks.{two_pixels};
ghost use Rattle.painter.specs.SpanParts.{bytes_of_clocks};

/// Puts the bytes of four pixels into a room from a place on.
#[inline(always)]
pub fn put(room: &mut [u8], at: usize, pixels: &[[u8; 3]; 4])
    requires { at + 12 ≤ length room.old }
    ensures bytes { take (at + 12) room.new ≡ take at room.old ++ flat_map (λ x. x) pixels.now }
    ensures size { length room.new ≡ length room.old }
{
    room[at..at + 12].copy_from_slice(pixels.as_flattened());
}

/// Puts eight bytes into a room from a place on, of which the first three or six are pixels' and those
/// behind them are to be put over.
#[inline(always)]
pub fn put_eight(room: &mut [u8], at: usize, bytes: &[u8; 8])
    requires { at + 8 ≤ length room.old }
    ensures three { take (at + 3) room.new ≡ take at room.old ++ take 3 bytes.now }
    ensures six { take (at + 6) room.new ≡ take at room.old ++ take 6 bytes.now }
    ensures size { length room.new ≡ length room.old }
{
    let [a, b, c, d, e, f, g, h] = *bytes;
    room[at] = a;
    room[at + 1] = b;
    room[at + 2] = c;
    room[at + 3] = d;
    room[at + 4] = e;
    room[at + 5] = f;
    room[at + 6] = g;
    room[at + 7] = h;
}

/// Puts the first six of eight bytes into a room from a place on.
#[inline(always)]
fn put_six(room: &mut [u8], at: usize, bytes: &[u8; 8])
    requires { at + 6 ≤ length room.old }
    ensures bytes { take (at + 6) room.new ≡ take at room.old ++ take 6 bytes.now }
    ensures size { length room.new ≡ length room.old }
{
    let [a, b, c, d, e, f, _, _] = *bytes;
    room[at] = a;
    room[at + 1] = b;
    room[at + 2] = c;
    room[at + 3] = d;
    room[at + 4] = e;
    room[at + 5] = f;
}

/// Puts four pixels of a colour into a room, by the bytes of two of them. The two bytes behind them are
/// to be put over.
#[inline(always)]
fn put_twice(room: &mut [u8], at: usize, two: &[u8; 8])
    requires { at + 14 ≤ length room.old }
    ensures bytes { (colour : ℕ) → two.now ≡ two_pixels (colour_bytes colour)
        → take (at + 12) room.new
        ≡ take at room.old ++ flat_map (λ x. x) (replicate 4 (colour_bytes colour)) }
    ensures size { length room.new ≡ length room.old }
{
    put_eight(room, at, two);
    put_eight(room, at + 6, two);
}

/// The same, and nothing behind them.
#[inline(always)]
fn put_last(room: &mut [u8], at: usize, two: &[u8; 8])
    requires { at + 12 ≤ length room.old }
    ensures bytes { (colour : ℕ) → two.now ≡ two_pixels (colour_bytes colour)
        → take (at + 12) room.new
        ≡ take at room.old ++ flat_map (λ x. x) (replicate 4 (colour_bytes colour)) }
    ensures size { length room.new ≡ length room.old }
{
    put_eight(room, at, two);
    put_six(room, at + 6, two);
}

/// Puts the pixels of four clocks that all show one colour into a room, by the bytes of two of them.
#[inline(always)]
pub fn put_block(room: &mut [u8], at: usize, two: &[u8; 8])
    requires { at + 48 ≤ length room.old }
    ensures bytes { (colour : ℕ) → two.now ≡ two_pixels (colour_bytes colour)
        → take (at + 48) room.new
        ≡ take at room.old ++ bytes_of_clocks (λ _. replicate 4 (colour_bytes colour)) 4 }
    ensures size { length room.new ≡ length room.old }
{
    put_twice(room, at, two);
    put_twice(room, at + 12, two);
    put_twice(room, at + 24, two);
    put_last(room, at + 36, two);
}

/// Puts the bytes of four pixels so many times, one behind the other: four at once, and those that are
/// left.
pub fn fill(room: &mut [u8], at: usize, count: u16, pixels: &[[u8; 3]; 4])
    requires { at + 12 * count ≤ length room.old }
    ensures bytes { take (at + 12 * count) room.new
        ≡ take at room.old ++ bytes_of_clocks (λ _. pixels.now) count }
    ensures size { length room.new ≡ length room.old }
{
    let blocks = count / 4;
    fill_blocks(room, at, blocks, pixels);
    fill_each(room, at + 48 * blocks as usize, count % 4, pixels);
}

/// The same four times for each of so many blocks. Where there is none, nothing is made ready.
fn fill_blocks(room: &mut [u8], at: usize, blocks: u16, pixels: &[[u8; 3]; 4])
    requires { at + 48 * blocks ≤ length room.old }
    ensures bytes { take (at + 48 * blocks) room.new
        ≡ take at room.old ++ bytes_of_clocks (λ _. pixels.now) (4 * blocks) }
    ensures size { length room.new ≡ length room.old }
{
    if blocks == 0 {
        return;
    }
    let four = [*pixels; 4];
    for block in 0..blocks {
        put_four(room, at + 48 * block as usize, &four);
    }
}

/// The same once for each of so many clocks.
fn fill_each(room: &mut [u8], at: usize, count: u16, pixels: &[[u8; 3]; 4])
    requires { at + 12 * count ≤ length room.old }
    ensures bytes { take (at + 12 * count) room.new
        ≡ take at room.old ++ bytes_of_clocks (λ _. pixels.now) count }
    ensures size { length room.new ≡ length room.old }
{
    for clock in 0..count {
        put(room, at + 12 * clock as usize, pixels);
    }
}

/// Puts the bytes of four times four pixels into a room from a place on.
#[inline(always)]
fn put_four(room: &mut [u8], at: usize, four: &[[[u8; 3]; 4]; 4])
    requires { at + 48 ≤ length room.old }
    ensures bytes { take (at + 48) room.new
        ≡ take at room.old ++ flat_map (λ x. x) (flat_map (λ x. x) four.now) }
    ensures size { length room.new ≡ length room.old }
{
    room[at..at + 48].copy_from_slice(four.as_flattened().as_flattened());
}
