//! Why the reader refuses a text.

use thiserror::Error;

/// Why bytes aren't the text of a bundle within the limits, or couldn't be read. Lines are counted
/// from 1. If several faults hold, `read_within` says which one is returned.
#[derive(Clone, Copy, Debug, PartialEq, Eq, Error)]
pub enum ReadFault {
    /// Memory ran out while a line or a part of one was kept. It can hide a bundle or another
    /// fault.
    #[error("no memory")]
    Memory,
    /// The source failed before its end, and before it gave a byte too many.
    #[error("the device failed")]
    Device,
    /// There are more bytes than the limits allow.
    #[error("the text is too large")]
    TooLarge,
    /// The line isn't one of the grammar, or may not come where it is. On line 1 it can also be a
    /// needless `seqtrace 2`, which is judged after all lines.
    #[error("line {0} is no line of a bundle that may stand there")]
    Line(u64),
    /// The pid of the process line isn't greater than that of the process line before.
    #[error("the process of line {0} is out of order")]
    Order(u64),
    /// The event isn't one that the process of the last process line reports.
    #[error("the event of line {0} is another process's")]
    Foreign(u64),
    /// The line names a pid that has to be listed and isn't.
    #[error("line {0} names an unlisted process")]
    Unknown(u64),
    /// The line's process, event or act is one more than the limits allow.
    #[error("line {0} is one too many of its kind")]
    TooMany(u64),
    /// Bytes follow the last newline, or there are no bytes at all.
    #[error("the last line isn't ended")]
    Truncated,
}
