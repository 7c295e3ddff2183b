//! The acts of a standard node.

ghost use Rattle.std.specs.Prelude.{◌≡◌};
ghost use Rattle.node_check.specs.Acts.{node_act};
ghost use Rattle.node_machine.specs.Node.{Common, node_actor, NodeAct as NodeActValue};

use st_core::{Act, Pid};

/// An act of a standard node.
#[derive(Clone, Copy, Debug, PartialEq, Eq)]
pub enum NodeAct {
    /// An act of the machine of the manual.
    Common(Act),
    /// The end of a `spawn`: the process takes the answer from this place of its queue, and keeps
    /// its token.
    Answer(Pid, u64),
}

impl NodeAct {
    /// Returns the process that acts.
    pub fn actor(&self) -> Pid
        ensures { result ≡ node_actor (node_act self.now) }
    {
        match *self {
            NodeAct::Common(act) => act.actor(),
            NodeAct::Answer(me, _) => me,
        }
    }
}

/// A value that stands for an act of a standard node.
pub trait ToNodeAct {
    // The act that the value stands for.
    ghost on_node: { Self → NodeActValue };

    /// Returns the act that the value stands for.
    fn to_node_act(&self) -> NodeAct
        ensures { node_act result ≡ on_node self.now };
}

impl ToNodeAct for Act {
    ghost on_node = { Common };

    fn to_node_act(&self) -> NodeAct {
        NodeAct::Common(*self)
    }
}

impl ToNodeAct for NodeAct {
    ghost on_node = { node_act };

    fn to_node_act(&self) -> NodeAct {
        *self
    }
}
