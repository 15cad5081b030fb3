//! A gate before each band that is drawn.

/// Something that is told of each band before it is drawn, by whoever draws it, on whichever
/// thread.
pub trait Gate {
    /// The band of this number is about to be drawn. Nothing is said of when the call returns: a
    /// gate may hold the band back.
    fn before(&self, number: u64);
}

/// The gate that does nothing.
#[derive(Clone, Copy)]
pub struct NoGate;

impl Gate for NoGate {
    fn before(&self, _number: u64) {}
}
