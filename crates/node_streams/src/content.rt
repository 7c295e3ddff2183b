//! The content of a message.

ghost use Rattle.std.specs.Prelude.{◌≡◌};
ghost use Rattle.node_streams.specs.Messages.{content_of};

use st_core::{Event, Pid};

/// All that a send or a receive says of its message. Messages with equal contents are alike.
#[derive(Clone, Copy, Debug, PartialEq, Eq, PartialOrd, Ord, Hash)]
pub struct MessageContent {
    /// The sender.
    pub from: Pid,
    /// The receiver.
    pub to: Option<Pid>,
    /// The label of the message's token.
    pub label: u32,
    /// The first number of the token's serial.
    pub prev: u64,
    /// The second number of the token's serial.
    pub this: u64,
    /// The value that was sent.
    pub value: u64,
}

impl MessageContent {
    /// Returns the content of an event's message.
    pub fn of(event: &Event) -> MessageContent
        ensures { result ≡ content_of event.now }
    {
        MessageContent {
            from: event.from,
            to: event.to,
            label: event.label.0,
            prev: event.serial.prev,
            this: event.serial.this,
            value: event.value,
        }
    }
}
