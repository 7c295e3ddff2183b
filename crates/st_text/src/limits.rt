//! How much of a text the reader takes.

/// The most bytes, processes, events and acts that a text may have. The limits on lines are `u32`,
/// so that the count of lines can't overflow.
#[derive(Clone, Copy, Debug, PartialEq, Eq)]
pub struct Limits {
    pub bytes: u64,
    pub processes: u32,
    pub events: u32,
    pub acts: u32,
}

impl Limits {
    /// The limits of `read`: enough for a trace that people look at, in a few hundred megabytes of
    /// memory.
    pub const STANDARD: Limits = Limits {
        bytes: 67_108_864,
        processes: 1_024,
        events: 1_000_000,
        acts: 4_000_000,
    };

    /// The limits of `seqtool`: enough for a service that starts a process for each request, and
    /// for the certificate that an audit of its trace makes. The acts of 16,000,000 events are at
    /// most 98,065,536: six for each event, 1,000,000 prints, and one for each process and each of
    /// 65,536 nodes. The bytes suffice even if every line is as long as the longest.
    pub const GREATER: Limits = Limits {
        bytes: 17_179_869_184,
        processes: 1_000_000,
        events: 16_000_000,
        acts: 100_000_000,
    };
}
