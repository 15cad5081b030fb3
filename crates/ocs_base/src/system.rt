//! Whose beam a machine has, and what follows from it: lines, clocks and the part that is shown.

ghost use Rattle.std.specs.Prelude.{◌≡◌};
ghost use Rattle.ocs_base.specs.Systems.{lines, last_clock, top_line, shown_lines, is_shown_line, is_visible, frame_bytes};

/// A television standard. A PAL machine has lines of 227 colour clocks, fields of 313 and 312 lines and
/// pictures of 720 by 286 pixels; an NTSC machine has lines of 227 and 228 colour clocks by turns, fields of
/// 263 and 262 lines and pictures of 720 by 242 (Hardware Reference Manual, interlaced display; that the odd
/// lines are the long ones, and what a picture shows, is this project's profile).
#[derive(Clone, Copy, PartialEq, Eq)]
pub enum System {
    Pal,
    Ntsc,
}

impl System {
    /// The number of lines of a field, long or short.
    pub fn lines(self, lof: bool) -> u16
        ensures { result ≡ lines self lof }
    {
        match self {
            System::Pal => { if lof { 313 } else { 312 } }
            System::Ntsc => { if lof { 263 } else { 262 } }
        }
    }

    /// The last clock of line `v`.
    #[inline(always)]
    pub fn last_clock(self, v: u16) -> u16
        ensures { result ≡ last_clock self v }
    {
        match self {
            System::Pal => 226,
            System::Ntsc => { if v % 2 == 1 { 227 } else { 226 } }
        }
    }

    /// The first line that a frame's picture shows.
    #[inline(always)]
    pub fn top_line(self) -> u16
        ensures { result ≡ top_line self }
    {
        match self {
            System::Pal => 26,
            System::Ntsc => 20,
        }
    }

    /// The number of lines that a frame's picture shows.
    #[inline(always)]
    pub fn shown_lines(self) -> u16
        ensures { result ≡ shown_lines self }
    {
        match self {
            System::Pal => 286,
            System::Ntsc => 242,
        }
    }

    /// Whether a frame's picture shows line `v`.
    #[inline(always)]
    pub fn shows_line(self, v: u16) -> bool
        ensures { result ≡ is_shown_line self v }
    {
        let top = self.top_line();
        top <= v && v < top + self.shown_lines()
    }

    /// Whether a frame's picture shows clock `h` of line `v`.
    #[inline(always)]
    pub fn shows(self, v: u16, h: u16) -> bool
        ensures { result ≡ is_visible self v h }
    {
        self.shows_line(v) && 47 <= h && h <= 226
    }

    /// The number of pixel bytes of a frame: three a pixel, 720 pixels a line.
    pub fn frame_bytes(self) -> u32
        ensures { result ≡ frame_bytes self }
    {
        2160 * self.shown_lines() as u32
    }
}
