//! What the bitplanes show along a line.

ghost use Rattle.std.specs.Prelude.{◌≡◌, ◌≤◌, ◌<◌, ◌+◌, ◌-◌, ◌*◌, max, ◌∷◌, ◌++◌, [], ◌/◌, ◌%◌, ℕ, ◌&&◌, true, false, nat_le, List, slice_index};
ghost use Rattle.planes.specs.declared.load.Load.{Load};
ghost use Rattle.planes.specs.PlaneBit.{load_of, delay};

use crate::row::Row;
use crate::words::spread;

/// The rows of odd and of even planes.
#[derive(Drop)]
pub struct Line {
    /// Planes 1, 3 and 5.
    pub odd: Row,
    /// Planes 2, 4 and 6.
    pub even: Row,
}

impl Line {
    ghost use Rattle.plane_rows.specs.Line.{IsLineOf, ArePaired, row_bits};

    /// A line with no load.
    pub fn new() -> Line
        ensures { IsLineOf result [] }
    {
        Line {
            odd: Row::new(),
            even: Row::new(),
        }
    }

    /// Forgets every load, as a line's start does.
    pub fn clear(&mut self)
        ensures { IsLineOf self.new [] }
    {
        self.odd.clear();
        self.even.clear();
    }

    /// Shows the load of a write to BPL1DAT at clock `h`, with the latches and BPLCON1 as they are
    /// then.
    #[inline(always)]
    pub fn load(&mut self, h: u16, latches: &[u16; 6], con1: u16, hires: bool)
        requires { h ≤ 227 }
        ensures { (loads : List Load) → IsLineOf self.old loads
            → IsLineOf self.new (loads ++ load_of h latches.now con1 hires ∷ []) }
    {
        if hires {
            self.load_high(h, latches, con1);
        } else {
            self.load_low(h, latches, con1);
        }
    }

    /// The same in high resolution. Mostly nothing is laid behind what it shows.
    #[inline(never)]
    fn load_high(&mut self, h: u16, latches: &[u16; 6], con1: u16)
        requires { h ≤ 227 }
        ensures { (loads : List Load) → IsLineOf self.old loads
            → IsLineOf self.new (loads ++ load_of h latches.now con1 true ∷ []) }
    {
        let odd = start_at(h, con1, true);
        let even = start_at(h, con1 / 16, true);
        if self.ends_with(odd, even) {
            self.lay_load(odd, even, latches, true);
        } else {
            self.lay_over(odd, even, latches, true);
        }
    }

    /// The same in low resolution.
    #[inline(never)]
    fn load_low(&mut self, h: u16, latches: &[u16; 6], con1: u16)
        requires { h ≤ 227 }
        ensures { (loads : List Load) → IsLineOf self.old loads
            → IsLineOf self.new (loads ++ load_of h latches.now con1 false ∷ []) }
    {
        let odd = start_at(h, con1, false);
        let even = start_at(h, con1 / 16, false);
        if self.ends_with(odd, even) {
            self.lay_load(odd, even, latches, false);
        } else {
            self.lay_over(odd, even, latches, false);
        }
    }

    /// Whether nothing is laid behind what a load shows from these positions on. Only speed hangs on it.
    #[inline(always)]
    fn ends_with(&self, odd: usize, even: usize) -> bool
        requires odd { odd ≤ 992 }
        requires even { even ≤ 992 }
        ensures odd { result ≡ true → self.now.odd.end ≤ odd + 32 }
        ensures even { result ≡ true → self.now.even.end ≤ even + 32 }
    {
        self.odd.end <= odd + 32 && self.even.end <= even + 32
    }

    /// The same load where more may be laid.
    #[inline(never)]
    fn lay_over(&mut self, odd: usize, even: usize, latches: &[u16; 6], hires: bool)
        requires odd { odd ≤ 992 }
        requires even { even ≤ 992 }
        requires pairs { odd % 2 ≡ 0 }
        requires even_pairs { even % 2 ≡ 0 }
        ensures { (loads : List Load) (h con1 : ℕ) → odd ≡ 4 * h + 6 + 2 * delay hires (con1 % 16)
            → even ≡ 4 * h + 6 + 2 * delay hires (con1 / 16 % 16) → IsLineOf self.old loads
            → IsLineOf self.new (loads ++ load_of h latches.now con1 hires ∷ []) }
    {
        self.lay_load(odd, even, latches, hires);
    }

    /// Lays a load's bytes over both rows, from these positions on.
    #[inline(always)]
    fn lay_load(&mut self, odd: usize, even: usize, latches: &[u16; 6], hires: bool)
        requires odd { odd ≤ 992 }
        requires even { even ≤ 992 }
        requires pairs { odd % 2 ≡ 0 }
        requires even_pairs { even % 2 ≡ 0 }
        ensures { (loads : List Load) (h con1 : ℕ) → odd ≡ 4 * h + 6 + 2 * delay hires (con1 % 16)
            → even ≡ 4 * h + 6 + 2 * delay hires (con1 / 16 % 16) → IsLineOf self.old loads
            → IsLineOf self.new (loads ++ load_of h latches.now con1 hires ∷ []) }
    {
        let [one, two, three, four, five, six] = *latches;
        let odd_bytes = spread(hires, one, three, five);
        let even_bytes = spread(hires, two, four, six);
        self.odd.lay(odd, odd_bytes.as_flattened(), !hires);
        self.even.lay(even, even_bytes.as_flattened(), !hires);
    }

    /// Whether no load was laid at a high-resolution position or behind it, and so none shows a bit
    /// there.
    #[inline(always)]
    pub fn is_blank_from(&self, x: usize) -> bool
        ensures known { result ≡ (nat_le self.now.odd.end x && nat_le self.now.even.end x) }
        ensures blank { result ≡ true → (y : ℕ) → x ≤ y → row_bits self.now y ≡ 0 }
    {
        self.odd.is_blank_from(x) && self.even.is_blank_from(x)
    }

    /// How many clocks there are from `h` on up to the end of what is laid.
    pub fn clocks_before_end(&self, h: u16) -> u16
        requires { h ≤ 228 }
        ensures { result ≡ (max self.now.odd.end self.now.even.end + 3) / 4 - h }
    {
        let end = self.odd.end.max(self.even.end);
        ((end + 3) / 4).saturating_sub(h as usize) as u16
    }

    /// Whether from a high-resolution position on each two positions are known to show the same: those
    /// of the low-resolution columns, where no load was in high resolution.
    pub fn is_paired_from(&self, x: usize) -> bool
        ensures { result ≡ true → ArePaired self.now x }
    {
        (x % 2 == 0) & self.odd.paired & self.even.paired
    }

    /// The bits of all six planes at a high-resolution position, plane p as bit p - 1.
    pub fn bits(&self, x: usize) -> usize
        requires { x ≤ 1023 }
        ensures value { result ≡ row_bits self.now x }
        ensures few { result < 64 }
    {
        self.odd.at(x) as usize + 2 * self.even.at(x) as usize
    }

    /// The same at four positions from one on.
    #[inline(always)]
    pub fn four_bits(&self, x: usize) -> [u8; 4]
        requires { x ≤ 1020 }
        ensures first { slice_index result 0 ≡ row_bits self.now x }
        ensures second { slice_index result 1 ≡ row_bits self.now (x + 1) }
        ensures third { slice_index result 2 ≡ row_bits self.now (x + 2) }
        ensures fourth { slice_index result 3 ≡ row_bits self.now (x + 3) }
    {
        let bits = self.odd.four_at(x) + 2 * self.even.four_at(x);
        bits.to_le_bytes()
    }
}

/// The position from which the planes of one parity show a load of clock `h`, by their scroll in
/// bits 3 to 0 of a word: PF1H or PF2H of BPLCON1.
fn start_at(h: u16, scroll: u16, hires: bool) -> usize
    requires { h ≤ 227 }
    ensures value { result ≡ 4 * h + 6 + 2 * delay hires (scroll % 16) }
    ensures room { result ≤ 992 }
    ensures even { result % 2 ≡ 0 }
{
    let delay = if hires { scroll % 8 } else { scroll % 16 };
    4 * h as usize + 6 + 2 * delay as usize
}
