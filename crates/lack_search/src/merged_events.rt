//! Merges the events of a process with those that were added so far.

ghost use Rattle.std.specs.Prelude.{◌≡◌, ◌+◌, ◌<◌, [], ◌++◌, IfNone, IfSome, OnSome};
ghost use Rattle.lack_search.specs.MergedEvents.{events_left, is_told, told_in};

use crate::asks::Ask;
use crate::hidden_sends::HiddenSend;
use st_core::{Event, Kind, Streams};

/// The origin of an event of a candidate.
#[derive(Clone, Copy)]
pub(crate) enum Origin {
    Reported,
    /// The event is a hidden send.
    Hidden,
    /// The event is the receive that a stamp got.
    Fed,
    /// The event is the send of an invented message.
    Invented,
}

impl Origin {
    pub(crate) fn is_told(self) -> bool
        ensures { result ≡ is_told self }
    {
        match self {
            Origin::Reported => true,
            Origin::Hidden | Origin::Fed | Origin::Invented => false,
        }
    }
}

#[derive(Clone, Copy)]
pub(crate) struct MergedEvent {
    pub event: Event,
    pub origin: Origin,
}

/// The events of a process in order: the reported ones, its hidden sends at their places, and the
/// receives that stamps got, each right before its stamp.
#[derive(Drop)]
pub(crate) struct MergedEvents<'a> {
    streams: &'a Streams,
    reported: &'a [Event],
    hidden: &'a [HiddenSend],
    /// The stamps that ask and are still to come.
    asks: &'a [Ask],
    /// The index of the next reported event.
    place: u32,
    /// The index of the next event among the reported ones and the hidden sends.
    index: u32,
}

impl<'a> MergedEvents<'a> {
    pub(crate) fn new(
        streams: &'a Streams,
        reported: &'a [Event],
        hidden: &'a [HiddenSend],
        asks: &'a [Ask],
    ) -> MergedEvents<'a>
        ensures { result.reported.now ≡ reported.entry.now }
    {
        MergedEvents {
            streams,
            reported,
            hidden,
            asks,
            place: 0,
            index: 0,
        }
    }

    /// Takes the next event: a receive that a stamp got, else a hidden send at its place, else a
    /// reported event; `None` if no event is left.
    pub(crate) fn take_next(&mut self) -> Option<MergedEvent>
        ensures some { IfSome result (λ next.
            self.old.reported.now ≡ told_in next ++ self.new.reported.now) }
        ensures none { IfNone result (self.old.reported.now ≡ []) }
        ensures fewer { OnSome result (events_left self.new < events_left self.old) }
    {
        if let Some((ask, others)) = self.asks.split_first() {
            if ask.index == self.index {
                self.asks = others;
                if let Some(sent) = ask.sent(self.streams) {
                    return Some(MergedEvent {
                        event: Event {
                            kind: Kind::Receive,
                            ..sent
                        },
                        origin: Origin::Fed,
                    });
                }
            }
        }
        if let Some((send, others)) = self.hidden.split_first() {
            if send.place <= self.place {
                self.hidden = others;
                self.index = self.index.saturating_add(1);
                return Some(MergedEvent {
                    event: send.event,
                    origin: Origin::Hidden,
                });
            }
        }
        let (event, others) = self.reported.split_first()?;
        self.reported = others;
        self.place = self.place.saturating_add(1);
        self.index = self.index.saturating_add(1);
        Some(MergedEvent {
            event: *event,
            origin: Origin::Reported,
        })
    }
}
