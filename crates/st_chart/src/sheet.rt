//! The sheet of a chart. It has a file of its own, since the definition of its drawing is in terms
//! of it.

use st_chain::Chains;
use st_core::{Label, Pid, Streams};

/// The streams, chains and lanes from which a chart is drawn.
#[derive(Drop)]
pub(crate) struct Sheet<'a> {
    pub(crate) streams: &'a Streams,
    /// The chains of these streams.
    pub(crate) chains: &'a Chains<'a>,
    /// The pids of the lanes, which rise.
    pub(crate) lanes: &'a [Pid],
    pub(crate) label: Label,
}
