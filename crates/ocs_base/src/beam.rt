//! Times and colours: plain numbers with a name.

ghost use Rattle.std.specs.Prelude.{◌≡◌};
ghost use Rattle.ocs_base.specs.Limits.{order_of};

/// A number of colour clocks since reset, from 0. One colour clock is two low-resolution pixels.
#[derive(Clone, Copy, PartialEq, Eq, PartialOrd, Ord)]
pub struct Clock(pub u64);

/// A colour of twelve bits, 000 to FFF: four bits each of red, green and blue, red the highest.
#[derive(Clone, Copy, PartialEq, Eq)]
pub struct Colour(pub u16);

/// A place of the beam. `v` is the line of the field from 0, `h` the colour clock of the line, 0 to
/// 226 or, in an odd line of NTSC, 227, and `lof` says that the field is a long one (VPOSR bit 15).
#[derive(Clone, Copy, PartialEq, Eq)]
pub struct Beam {
    pub frame: u32,
    pub v: u16,
    pub h: u16,
    pub lof: bool,
}

/// The clock `h` of line `v` of a frame in the order of time, as one number.
pub fn time_order(frame: u32, v: u16, h: u16) -> u64
    ensures { result ≡ order_of frame v h }
{
    (frame as u64 * 313 + v as u64) * 228 + h as u64
}
