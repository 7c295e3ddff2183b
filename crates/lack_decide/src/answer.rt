//! The results of `complete` and of `certificate`.

use lack_needs::Completion;
use st_core::{Act, Pid, Sequence};
use thiserror::Error;

/// The reason why no acts without a reset show streams, whatever other processes there are. It
/// holds of the event that `Answer` names: `complete` tries the reasons in this order, each at all
/// places before the next, and names the least place of the first one that holds.
#[derive(Clone, Copy, Debug, PartialEq, Eq)]
pub enum Never {
    /// The serial of the event doesn't rise: its prev isn't below its count.
    PrevNotBefore,
    /// The count of the send or print isn't above that of the last send or print of its process
    /// before it, which has this index.
    NotRising(u64),
    /// The receive has the sender and the count of the receive at this earlier place.
    Repeated(Pid, u64),
    /// The send or print at this place has the sender and the count of the receive, and isn't its
    /// send.
    Mismatch(Pid, u64),
    /// The count of the send or print isn't above that of a receive of its process before it, the
    /// last of which has this index. A clock is at least as high as each count that its process
    /// received.
    Late(u64),
    /// The event has prev 0, which no message has as its count. It is a send or print, and its
    /// process received a token before, or stamped a lower count with another prev. Or it is the
    /// receive of a send that nobody reported, and its sender stamped a lower count with another
    /// prev.
    Unfounded,
    /// No clock goes up to the count of the event.
    TooHigh,
}

/// The result of `complete`.
#[derive(Debug, Drop)]
pub enum Answer {
    /// A completion: acts without a reset show the streams with its unlisted processes.
    Whole(Completion),
    /// No acts without a reset show the streams, whatever processes report nothing: the process
    /// and the index of an event, and the reason.
    Never(Pid, u64, Never),
}

/// The reason why `complete` fails.
#[derive(Clone, Copy, Debug, PartialEq, Eq, Error)]
pub enum CompleteFault {
    /// Memory ran out. The same call may succeed later.
    #[error("no memory")]
    Memory,
    /// No reason holds of the streams, but the judge refused the completion that was built. No
    /// test has seen it.
    #[error("no completion")]
    Uncompleted,
}

/// Acts that show streams with the unlisted processes of a completion, as the checker says.
#[derive(Debug, Drop)]
pub struct Certificate {
    /// The acts; none of them is a reset.
    pub acts: Sequence<Act>,
    /// For each reported receive, by rising number, the numbers of its act and of the act of its
    /// send.
    pub pairs: Sequence<(u64, u64)>,
}

/// The reason why `certificate` fails.
#[derive(Clone, Copy, Debug, PartialEq, Eq, Error)]
pub enum CertificateFault {
    /// Memory ran out. The same call may succeed later.
    #[error("no memory")]
    Memory,
    /// The acts that were tried are too many or don't serve, and the caller takes fewer than
    /// surely suffice: six for each event, one for each count that a process passes unreported,
    /// and one for each process. Fewer may suffice.
    #[error("too many acts")]
    TooManyActs,
    /// The acts that were tried are too many or don't serve, though the caller takes as many as
    /// surely suffice. No test has seen it.
    #[error("no certificate")]
    Uncertified,
}
