//! When drawn bands are gathered. What a run gives does not hang on it, but how fast it is.

ghost use Rattle.std.specs.Prelude.{◌≡◌, ◌≤◌};
ghost use Rattle.band_gather.specs.Gathering.{places_of};

/// How many bands may be outstanding when one more is submitted.
#[derive(Clone, Copy)]
pub enum Gathering {
    /// One, for a raster that draws on the foreground's own thread: a band is drawn soon after its last clock
    /// then, while what it is drawn from is in the processor's cache, and its memory is soon used again.
    Soon,
    /// Sixteen, as many as a raster has places: for one whose bands are drawn on other threads.
    Late,
}

impl Gathering {
    /// So many bands.
    pub(crate) fn places(self) -> usize
        ensures places { result ≡ places_of self }
        ensures least { 1 ≤ result }
        ensures most { result ≤ 16 }
    {
        match self {
            Gathering::Soon => 1,
            Gathering::Late => 16,
        }
    }
}
