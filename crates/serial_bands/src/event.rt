//! What is noted of a run for the picture that is drawn later.

use ocs_base::{Addr, Clock, Reg};

/// What changes the picture state besides the picture steps: a write to one of Denise's registers, or a
/// word of memory that fills the latch of a bitplane, 1 to 6, or SPRxDATA or, `second`, SPRxDATB of a
/// sprite, 0 to 7. Of that word it names the address alone. The clock of a write is that of the first
/// picture step that sees it, and the clock of a fetch that of its access.
#[derive(Clone, Copy)]
pub enum Event {
    Set {
        at: Clock,
        reg: Reg,
        word: u16,
    },
    Plane {
        at: Clock,
        plane: u8,
        addr: Addr,
    },
    Sprite {
        at: Clock,
        sprite: u8,
        second: bool,
        addr: Addr,
    },
}
