//! The origin of a stamp's token, and the origins that events allow.

ghost use Rattle.std.specs.Prelude.{◌≡◌};
ghost use Rattle.node_origins.specs.Summary.{either_origins};

/// The origin of a stamp's token.
#[derive(Clone, Copy, Debug, PartialEq, Eq)]
pub enum StampOrigin {
    /// The process made the token, or set its label.
    Home,
    /// The token came with the message of its process's receive at this index.
    Follows(usize),
}

/// The origins of an event's token that the events of its process allow.
#[derive(Clone, Copy, Debug, PartialEq, Eq)]
pub enum EventOrigins {
    /// None was asked for: the event is a receive.
    Receive,
    /// None: the process had no token that gives the stamp with its label.
    Unknown,
    /// Exactly one.
    One(StampOrigin),
    /// At least two: the two named here differ, and there may be more.
    Several(StampOrigin, StampOrigin),
}

impl EventOrigins {
    /// Returns the origins of both.
    pub(crate) fn or(self, other: EventOrigins) -> EventOrigins
        ensures { result ≡ either_origins self other }
    {
        match (self, other) {
            (EventOrigins::Receive | EventOrigins::Unknown, _) => other,
            (_, EventOrigins::Receive | EventOrigins::Unknown) => self,
            (EventOrigins::One(a), EventOrigins::One(b)) if a != b => EventOrigins::Several(a, b),
            (EventOrigins::One(_), _) => other,
            (EventOrigins::Several(_, _), _) => self,
        }
    }
}
