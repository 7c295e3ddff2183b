//! The next step of the reader after a line.

use crate::fault::ReadFault;

/// The next step of the reader after a line.
#[derive(Clone, Copy, Debug, PartialEq, Eq)]
pub(crate) enum Step {
    /// The line is good.
    Goes,
    /// The line has this fault.
    Stops(ReadFault),
    /// Memory ran out.
    Halts,
}
