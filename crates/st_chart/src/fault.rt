//! Why a chart isn't written.

use thiserror::Error;

/// Why a chart wasn't written, or only a part of it.
#[derive(Clone, Copy, Debug, PartialEq, Eq, Error)]
pub enum ChartFault {
    /// Memory ran out. Nothing was written.
    #[error("no memory")]
    Memory,
    /// The writer failed. A prefix of the chart was written.
    #[error("the device failed")]
    Device,
    /// No item has the label. Comes before `Memory`; nothing was written.
    #[error("no item has the label")]
    NoLabel,
}
