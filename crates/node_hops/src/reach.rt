//! How far a way or a tree goes.

/// How far to go from an event.
#[derive(Clone, Copy, Debug, PartialEq, Eq)]
pub struct Reach {
    /// The most places on a way, or levels of a tree, with the first one.
    pub most: u64,
    /// Whether to go on to a receive with another label.
    pub across: bool,
}

impl Reach {
    /// As far as one label goes.
    pub const LABEL: Reach = Reach {
        most: u64::MAX,
        across: false,
    };
}
