//! The events of a band.

ghost use Rattle.std.specs.Prelude.{◌≡◌, ◌++◌, ◌∷◌, [], IfOk, OnOk, OnErr};

use ocs_base::OutOfMemory;
use serial_bands::Event;
use std::alloc::Global;
use std::marker::Model;

/// The events of a band, in the order in which they were pushed.
#[derive(Drop)]
pub struct Events {
    list: Vec<Event>,
}

impl Model for Events {
    ghost use Rattle.std.specs.Prelude.{List};
    ghost use Rattle.serial_bands.specs.declared.event.Event.{Event};

    ghost Value = { List Event };

    ghost view = { λ e. e.list.items };
}

impl Events {
    /// No events.
    pub fn new(alloc: Global) -> Events
        ensures { result ≡ [] }
    {
        Events {
            list: Vec::new(alloc),
        }
    }

    /// No events, with room for so many. It is refused for want of memory alone.
    pub fn with_room(alloc: Global, count: usize) -> Result<Events, OutOfMemory>
        ensures { IfOk result (λ events. events ≡ []) }
    {
        Ok(Events {
            list: Vec::with_capacity(alloc, count)?,
        })
    }

    /// All are forgotten, and there is room for so many. It is refused for want of memory alone.
    pub(crate) fn clear(&mut self, count: usize) -> Result<(), OutOfMemory>
        ensures { OnOk result (self.new ≡ []) }
    {
        self.list.clear();
        self.list.reserve(count)?;
        Ok(())
    }

    /// Appends an event. After a refusal, for want of memory, all is as before.
    pub fn push(&mut self, e: Event) -> Result<(), OutOfMemory>
        ensures ok { OnOk result (self.new ≡ self.old ++ e ∷ []) }
        ensures refused { OnErr result (self.new ≡ self.old) }
    {
        self.list.push(e)?;
        Ok(())
    }

    /// The events in order.
    pub fn list(&self) -> &[Event]
        ensures { result.now ≡ self.now }
    {
        self.list.as_slice()
    }
}
