//! The items of an order.

ghost use Rattle.std.specs.Prelude.{◌≡◌};
ghost use Rattle.st_order.specs.Items.{event_of, item_place};

use st_core::{Event, Pid, Streams};

/// An event or a hidden send, by its place in the streams: a process, and an index in its stream,
/// counted from 0 (own profile).
#[derive(Clone, Copy, Debug, PartialEq, Eq, PartialOrd, Ord, Hash)]
pub enum Item {
    /// The event at this place.
    Reported(Pid, u64),
    /// The unreported send of the receive at this place.
    Hidden(Pid, u64),
}

impl Item {
    /// Returns the item's place: a hidden send is at the place of its receive.
    pub fn place(self) -> (Pid, u64)
        ensures { result ≡ item_place self }
    {
        match self {
            Item::Reported(pid, index) | Item::Hidden(pid, index) => (pid, index),
        }
    }

    /// Returns the event that the item is about, which for a hidden send is its receive. None if
    /// no event is at the item's place.
    pub fn event(self, streams: &Streams) -> Option<Event>
        ensures { result ≡ event_of streams.now self }
    {
        let (pid, index) = self.place();
        streams.event(pid, index)
    }
}
