//! The hop back from an event.

ghost use Rattle.std.specs.Prelude.{◌≡◌};
ghost use Rattle.node_hops.specs.Hops.{node_premises_of};

use st_core::{Label, Pid};

/// The origin of an event, as far as the events tell it.
#[derive(Clone, Copy, Debug, PartialEq, Eq)]
pub enum NodeHop {
    /// A receive follows the send at this place.
    Sent(Pid, u64),
    /// A receive follows an unreported send: fewer alike messages were reported sent than
    /// received.
    Unsent,
    /// A send or print follows its process's receive at this index, whose count is its prev, and
    /// which has its label.
    After(u64),
    /// A send or print has another label than its process's receive at this index, whose count is
    /// its prev; the receive has this label.
    OtherLabel(u64, Label),
    /// A send or print has prev 0, and only sends and prints with prev 0 came before it.
    Begins,
    /// A send or print has a prev that the events before its row don't leave. The row is the sends
    /// and prints with one prev up to it, and this many events come before the row.
    Moved(u64),
}

/// The premises of a hop, besides that there is no reset.
#[derive(Clone, Copy, Debug, PartialEq, Eq)]
pub enum NodePremises {
    /// Nothing.
    Nothing,
    /// From the receive on, or from the beginning, the process takes no token unreported (1), puts
    /// none back, and ends no spawn (2).
    KeptCounters,
    /// `KeptCounters`, and there the process makes no token and sets no label (3).
    KeptToken,
    /// Each alike message is reported when it is sent (4).
    SendsReported,
}

impl NodeHop {
    pub fn premises(self) -> NodePremises
        ensures { result ≡ node_premises_of self }
    {
        match self {
            NodeHop::Unsent | NodeHop::Moved(_) => NodePremises::Nothing,
            NodeHop::OtherLabel(..) | NodeHop::Begins => NodePremises::KeptCounters,
            NodeHop::After(_) => NodePremises::KeptToken,
            NodeHop::Sent(..) => NodePremises::SendsReported,
        }
    }
}
