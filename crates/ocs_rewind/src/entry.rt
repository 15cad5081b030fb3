//! An entry of a ring.

use ocs_base::Clock;

/// A state with the clock at which it stood, in colour clocks since reset.
#[derive(Drop)]
pub struct Entry<T> {
    pub at: Clock,
    pub state: T,
}
