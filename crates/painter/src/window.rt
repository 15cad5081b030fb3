//! The display window.

ghost use Rattle.std.specs.Prelude.{◌≡◌, ◌≤◌, ◌<◌, ◌+◌, ◌*◌, ◌&&◌, ◌||◌, not, true, false, ℕ};
ghost use Rattle.serial_model.specs.Window.{is_inside};

use std::marker::Model;

/// The display window (Hardware Reference Manual): the registers DIWSTRT and DIWSTOP, with the
/// bounds that they say. Columns are low-resolution positions.
#[derive(Drop)]
pub struct Window {
    diwstrt: u16,
    diwstop: u16,
    top: u16,
    bottom: u16,
    left: u16,
    right: u16,
}

impl Model for Window {
    ghost use Rattle.painter.specs.code.Window.{WindowRegisters, HasBounds};

    ghost Value = { WindowRegisters };

    ghost view = { λ s. record { diwstrt = s.diwstrt; diwstop = s.diwstop } };

    ghost invariant = { λ s. HasBounds s.diwstrt s.diwstop s.top s.bottom s.left s.right };
}

impl Window {
    ghost use Rattle.painter.specs.code.Window.{no_window};

    /// The registers at reset: both are 0.
    pub fn reset() -> Window
        ensures { result ≡ no_window }
    {
        Window {
            diwstrt: 0,
            diwstop: 0,
            top: 0,
            bottom: 256,
            left: 0,
            right: 256,
        }
    }

    /// A write to DIWSTRT: the first line and the first column.
    pub fn set_start(&mut self, word: u16)
        ensures { self.new ≡ record self.old { diwstrt = word } }
    {
        self.diwstrt = word;
        self.top = word / 256;
        self.left = word % 256;
    }

    /// A write to DIWSTOP: the line and the column behind the last. Its line has a bit 8 that is
    /// the opposite of bit 7, and its column one that is set.
    pub fn set_stop(&mut self, word: u16)
        ensures { self.new ≡ record self.old { diwstop = word } }
    {
        self.diwstop = word;
        self.bottom = if word < 0x8000 {
            word / 256 + 256
        } else {
            word / 256
        };
        self.right = word % 256 + 256;
    }

    /// DIWSTRT.
    pub fn start(&self) -> u16
        ensures { result ≡ self.now.diwstrt }
    {
        self.diwstrt
    }

    /// DIWSTOP.
    pub fn stop(&self) -> u16
        ensures { result ≡ self.now.diwstop }
    {
        self.diwstop
    }

    /// Whether a column of a line is in the window.
    #[inline(always)]
    pub fn has(&self, v: u16, column: u16) -> bool
        ensures { result ≡ is_inside v column self.now.diwstrt self.now.diwstop }
    {
        self.top <= v && v < self.bottom && self.left <= column && column < self.right
    }

    /// Whether both columns of a clock are in the window.
    #[inline(always)]
    pub fn contains_clock(&self, v: u16, h: u16) -> bool
        requires { h ≤ 227 }
        ensures both { result ≡ (is_inside v (2 * h) self.now.diwstrt self.now.diwstop
            && is_inside v (2 * h + 1) self.now.diwstrt self.now.diwstop) }
        ensures first { result ≡ true
            → is_inside v (2 * h) self.now.diwstrt self.now.diwstop ≡ true }
        ensures second { result ≡ true
            → is_inside v (2 * h + 1) self.now.diwstrt self.now.diwstop ≡ true }
    {
        self.top <= v && v < self.bottom && self.left <= 2 * h && 2 * h + 1 < self.right
    }

    /// Whether neither column of a clock is in the window.
    #[inline(always)]
    pub fn excludes_clock(&self, v: u16, h: u16) -> bool
        requires { h ≤ 227 }
        ensures neither { result ≡ not (is_inside v (2 * h) self.now.diwstrt self.now.diwstop
            || is_inside v (2 * h + 1) self.now.diwstrt self.now.diwstop) }
        ensures first { result ≡ true
            → is_inside v (2 * h) self.now.diwstrt self.now.diwstop ≡ false }
        ensures second { result ≡ true
            → is_inside v (2 * h + 1) self.now.diwstrt self.now.diwstop ≡ false }
    {
        v < self.top || self.bottom <= v || 2 * h + 1 < self.left || self.right <= 2 * h
    }

    /// How many clocks from `h` on, at most so many, are known to have no column in the window.
    pub fn clocks_outside(&self, v: u16, h: u16, count: u16) -> u16
        requires { h + count ≤ 228 }
        ensures most { result ≤ count }
        ensures first { (k : ℕ) → k < result
            → is_inside v (2 * (h + k)) self.now.diwstrt self.now.diwstop ≡ false }
        ensures second { (k : ℕ) → k < result
            → is_inside v (2 * (h + k) + 1) self.now.diwstrt self.now.diwstop ≡ false }
    {
        if v < self.top || self.bottom <= v || self.right <= 2 * h {
            return count;
        }
        (self.left / 2).saturating_sub(h).min(count)
    }

    /// How many clocks from `h` on, at most so many, are known to have both their columns in the
    /// window.
    pub fn clocks_inside(&self, v: u16, h: u16, count: u16) -> u16
        requires { h + count ≤ 228 }
        ensures most { result ≤ count }
        ensures first { (k : ℕ) → k < result
            → is_inside v (2 * (h + k)) self.now.diwstrt self.now.diwstop ≡ true }
        ensures second { (k : ℕ) → k < result
            → is_inside v (2 * (h + k) + 1) self.now.diwstrt self.now.diwstop ≡ true }
    {
        if v < self.top || self.bottom <= v || 2 * h < self.left {
            return 0;
        }
        (self.right / 2).saturating_sub(h).min(count)
    }
}
