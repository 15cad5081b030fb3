//! The held colour.

/// The colour of the pixel before, as bytes: a component c is the byte 17c.
#[derive(Clone, Copy)]
pub struct Held {
    pub red: u8,
    pub green: u8,
    pub blue: u8,
}
