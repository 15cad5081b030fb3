//! What is left of bands that were gathered, for those that are cut later.

ghost use Rattle.std.specs.Prelude.{◌≡◌, ◌⊎◌, ◌∷◌, ◌++◌, ◌-◌, [], length, take, IfOk};

use crate::events::Events;
use crate::room::Room;
use ocs_base::OutOfMemory;
use std::alloc::Global;

/// The rooms and the events of bands that were gathered: a band that is cut later takes their memory in
/// the place of new. Nothing hangs on it but how fast a run is: memory that is given back with each band is
/// taken from the system again, which clears it.
#[derive(Drop)]
pub struct Spare {
    alloc: Global,
    kept: Vec<(Room, Events)>,
}

impl Spare {
    /// Nothing is left of a band.
    pub fn new(alloc: Global) -> Spare
        ensures { result.kept.items ≡ [] }
    {
        Spare {
            alloc,
            kept: Vec::new(alloc),
        }
    }

    /// Where new memory is taken from.
    pub fn alloc(&self) -> Global
        ensures { result ≡ self.now.alloc }
    {
        self.alloc
    }

    /// A band that was gathered needs these no longer. All are given back where memory is wanted to keep
    /// them.
    pub fn keep(&mut self, room: Room, events: Events)
        ensures { (self.new.kept.items ≡ self.old.kept.items ++ (room, events) ∷ [])
            ⊎ (self.new.kept.items ≡ []) }
    {
        if self.kept.push((room, events)).is_err() {
            self.kept.clear();
        }
    }

    /// Room of so many bytes, whatever they are, and no events, with room for so many. They are refused
    /// for want of memory alone.
    pub fn take(&mut self, bytes: usize, count: usize) -> Result<(Room, Events), OutOfMemory>
        ensures size { IfOk result (λ taken. length taken.0 ≡ bytes) }
        ensures none { IfOk result (λ taken. taken.1 ≡ []) }
        ensures kept { self.new.kept.items ≡
            take (length self.old.kept.items - 1) self.old.kept.items }
    {
        match self.kept.pop() {
            Some((mut room, mut events)) => {
                room.resize(bytes)?;
                events.clear(count)?;
                Ok((room, events))
            }
            None => Ok((
                Room::new(self.alloc, bytes)?,
                Events::with_room(self.alloc, count)?,
            )),
        }
    }
}
