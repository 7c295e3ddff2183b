//! The results of the auditor.

use st_check::Verdict;
use st_core::{Act, Pid, Sequence};
use thiserror::Error;

/// Why no certificate was found. The reason is about the event at the place that the finding
/// names. The reasons are tried in the order below: first the four of pairing, each over all
/// events, and then the others, item by item (own profile).
#[derive(Debug, Drop)]
pub enum Reason {
    /// The serial of the event doesn't rise: its prev isn't less than its this.
    PrevNotBefore,
    /// The count of the send or print isn't above that of its process's send or print at this
    /// index.
    NotRising(u64),
    /// The receive has the sender and the count of the receive at this earlier place.
    Repeated(Pid, u64),
    /// The send or print at this place has the sender and the count of the receive, but isn't its
    /// send.
    Mismatch(Pid, u64),
    /// The prev is below the clock that the process has by then, and isn't its last count: it
    /// names a message that the process took before another one, or one that it never took.
    Uncaused,
    /// More counts are missing before the event than the auditor fills in: 1,000 before one item,
    /// or 1,000,000 in all.
    TooWide,
    /// The verdict on the acts that the auditor tried, which isn't yes.
    NotReplayed(Sequence<Act>, Verdict),
}

/// The finding of the auditor.
#[derive(Debug, Drop)]
pub enum Finding {
    /// A certificate that the checker accepts: its acts, and for each reported receive the numbers
    /// of its act and of its send's.
    Fits(Sequence<Act>, Sequence<(u64, u64)>),
    /// No certificate: the process and the index of an event, and the reason that holds there.
    Unfit(Pid, u64, Reason),
}

/// Why the auditor returns no finding.
#[derive(Clone, Copy, Debug, PartialEq, Eq, Error)]
pub enum AuditFault {
    /// Memory ran out.
    #[error("no memory")]
    Memory,
}
