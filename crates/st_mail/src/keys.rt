//! The keys by which an index finds messages.

ghost use Rattle.std.specs.Prelude.{◌≡◌};
ghost use Rattle.st_mail.specs.Keys.{has, with_key};

/// What a search asks of a message.
#[derive(Clone, Copy, Debug, PartialEq, Eq)]
pub enum SearchKey {
    /// The message's value.
    Value,
    /// The message's sender.
    Sender,
    /// The message's sender and value.
    Both,
    /// The stamp of the message's token: its from and its own count.
    Stamp,
}

/// The keys by which an index finds messages; none by default.
#[derive(Clone, Copy, Debug, Default, PartialEq, Eq)]
pub struct Keys {
    /// By value.
    pub value: bool,
    /// By sender.
    pub sender: bool,
    /// By sender and value.
    pub both: bool,
    /// By stamp.
    pub stamp: bool,
}

impl Keys {
    /// Returns whether the key is one of these keys.
    pub fn has(self, key: SearchKey) -> bool
        ensures { result ≡ has self key }
    {
        match key {
            SearchKey::Value => self.value,
            SearchKey::Sender => self.sender,
            SearchKey::Both => self.both,
            SearchKey::Stamp => self.stamp,
        }
    }

    /// Returns these keys and `key`.
    pub fn with(self, key: SearchKey) -> Keys
        ensures { result ≡ with_key key self }
    {
        match key {
            SearchKey::Value => Keys {
                value: true,
                ..self
            },
            SearchKey::Sender => Keys {
                sender: true,
                ..self
            },
            SearchKey::Both => Keys { both: true, ..self },
            SearchKey::Stamp => Keys {
                stamp: true,
                ..self
            },
        }
    }
}
