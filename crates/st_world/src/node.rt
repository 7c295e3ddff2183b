//! One node. The numbers of its processes are neighbours, since pids rise by node.

/// A range of process numbers, which are those of one node, and what the node keeps of them.
#[derive(Clone, Copy)]
pub(crate) struct Node {
    /// The number of the first process.
    pub start: usize,

    /// The number after that of the last process.
    pub end: usize,

    /// The slot after the last one that lists a process. The list begins at `start`. At `end` it
    /// is full, and any process of the node may have been touched.
    pub listed: usize,

    /// Whether a system tracer is set.
    pub traced: bool,
}
