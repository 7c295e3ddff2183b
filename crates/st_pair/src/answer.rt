//! Why pairing refuses streams, and where the message of a receive came from.

use st_core::Pid;
use thiserror::Error;

/// Why streams aren't paired. A place is a process and an index in its stream, counted from 0. The
/// reasons are tried in the order below, each over all places, and the fault names the least
/// place, by pid and then index (own profile).
///
/// `PrevNotBefore` is final: no acts show the streams. The three reasons after it are final for
/// acts without a reset: a reset sets the counts of a node's processes back to 0.
#[derive(Clone, Copy, Debug, PartialEq, Eq, Error)]
pub enum PairFault {
    /// Memory ran out. It can come in place of any other result.
    #[error("no memory")]
    Memory,
    /// The serial of the event doesn't rise: its prev isn't less than its this.
    #[error("a serial doesn't rise")]
    PrevNotBefore(Pid, u64),
    /// The count of the send or print at the first index isn't above that of the last send or
    /// print before it, which is at the second index.
    #[error("the sends and prints of a process don't rise")]
    NotRising(Pid, u64, u64),
    /// The receive at the first place has the sender and the count of the earlier receive at the
    /// second place.
    #[error("a message is received twice")]
    Repeated(Pid, u64, Pid, u64),
    /// The send or print at the second place has the sender and the count of the receive at the
    /// first place, but isn't the send of its message.
    #[error("a receive differs from its send")]
    Mismatch(Pid, u64, Pid, u64),
}

/// Where the message of a reported receive came from.
#[derive(Clone, Copy, Debug, PartialEq, Eq)]
pub enum Source {
    /// The send at this place.
    Event(Pid, u64),
    /// A send that nobody reported.
    Hidden,
}
