//! What the planes of one parity show along a line.

ghost use Rattle.std.specs.Prelude.{◌≡◌, ◌≤◌, ◌+◌, ◌*◌, ◌%◌, ℕ, true, nat_le, length, slice_index};
ghost use Rattle.plane_rows.specs.Row.{laid, cut_off, IsPaired};

/// How many high-resolution positions a row has: a line has 908, or 912 with NTSC, and a load may
/// begin 36 after.
const PLACES: usize = 1024;

/// How many positions a load may show.
const WIDTH: usize = 32;

/// A byte for each high-resolution position of a line: the bits of planes 1, 3 and 5, or of planes
/// 2, 4 and 6, are its bits 0, 2 and 4.
#[derive(Drop)]
pub struct Row {
    pub shown: [u8; 1024],
    /// From here on nothing is shown.
    pub end: usize,
    /// Whether only low-resolution loads were laid, so that the two positions of each low-resolution
    /// column show the same. Only speed hangs on where that is not known.
    pub paired: bool,
    pub ghost few: { (x : ℕ) → slice_index shown x ≤ 21 },
    pub ghost within: { end ≤ 1024 },
    pub ghost blank: { (x : ℕ) → end ≤ x → slice_index shown x ≡ 0 },
    pub ghost pairs: { paired ≡ true → IsPaired shown },
}

impl Row {
    /// A row that shows nothing.
    pub fn new() -> Row
        ensures shown { (x : ℕ) → slice_index result.shown x ≡ 0 }
        ensures end { result.end ≡ 0 }
    {
        Row {
            shown: [0; PLACES],
            end: 0,
            paired: true,
        }
    }

    /// Shows nothing any more, as at a line's start.
    pub fn clear(&mut self)
        ensures shown { (x : ℕ) → slice_index self.new.shown x ≡ 0 }
        ensures end { self.new.end ≡ 0 }
    {
        wipe(&mut self.shown, 0, self.end);
        self.end = 0;
        self.paired = true;
    }

    /// Shows these bytes from a position on, and nothing after them. Those of a low-resolution load
    /// come in pairs.
    #[inline(always)]
    pub fn lay(&mut self, start: usize, bytes: &[u8], paired: bool)
        requires room { start ≤ 992 }
        requires even { start % 2 ≡ 0 }
        requires size { length bytes.now ≡ 32 }
        requires few { (x : ℕ) → slice_index bytes.now x ≤ 21 }
        requires pairs { paired ≡ true → IsPaired bytes.now }
        ensures shown { (x : ℕ) →
            slice_index self.new.shown x ≡ laid self.old.shown start bytes.now x }
        ensures end { self.new.end ≡ start + 32 }
    {
        wipe(&mut self.shown, start + WIDTH, self.end);
        self.shown[start..start + WIDTH].copy_from_slice(bytes);
        self.end = start + WIDTH;
        self.paired = self.paired & paired;
    }

    /// Whether no bytes were laid at a position or behind it, and so nothing is shown there.
    #[inline(always)]
    pub fn is_blank_from(&self, x: usize) -> bool
        ensures known { result ≡ nat_le self.now.end x }
        ensures blank { result ≡ true → (y : ℕ) → x ≤ y → slice_index self.now.shown y ≡ 0 }
    {
        self.end <= x
    }

    /// What is shown at a position.
    pub fn at(&self, x: usize) -> u8
        requires { x ≤ 1023 }
        ensures value { result ≡ slice_index self.now.shown x }
        ensures few { result ≤ 21 }
    {
        self.shown[x]
    }

    /// What is shown at four positions from one on, each as a byte, the first of them the lowest.
    #[inline(always)]
    pub fn four_at(&self, x: usize) -> u32
        requires { x ≤ 1020 }
        ensures value { result ≡ slice_index self.now.shown x
            + 256 * slice_index self.now.shown (x + 1)
            + 65536 * slice_index self.now.shown (x + 2)
            + 16777216 * slice_index self.now.shown (x + 3) }
        ensures few { result ≤ 353703189 }
    {
        let shown = &self.shown;
        u32::from_le_bytes([shown[x], shown[x + 1], shown[x + 2], shown[x + 3]])
    }
}

/// Blanks the positions from one to another, where there are any.
fn wipe(shown: &mut [u8; PLACES], from: usize, end: usize)
    requires { end ≤ 1024 }
    ensures wiped { (x : ℕ) → slice_index shown.new x ≡ cut_off shown.old from end x }
    ensures long { length shown.new ≡ 1024 }
{
    for x in from..end {
        shown[x] = 0;
    }
}
