//! Where a run has come to in its script.

/// A place in a script, which goes on with the beam: the events before it have happened.
#[derive(Clone, Copy)]
pub struct Cursor {
    /// How many events those are.
    pub next: usize,
}
