//! An event on the way back from another, or in the tree of what follows it.

use st_core::Pid;

/// An event, and how far it is from the first one.
#[derive(Clone, Copy, Debug, PartialEq, Eq)]
pub struct Node {
    /// The number of hops from the first event.
    pub depth: u64,
    /// The event's process, and its index there.
    pub place: (Pid, u64),
}
