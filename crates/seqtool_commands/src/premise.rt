//! The premises of the sentences of `why`, by their numbers.

ghost use Rattle.std.specs.Prelude.{◌≡◌};
ghost use Rattle.seqtool_commands.specs.WhyWords.{is_part_of};

use node_hops::NodePremises;

/// A premise of a sentence.
#[derive(Clone, Copy, Debug)]
pub(crate) enum Premise {
    /// (1): the process reported each receive of a token.
    ReportsTakes,
    /// (2): the process put no token back, and ended no spawn.
    KeepsCounters,
    /// (3): the process made no token, and set no label.
    BeginsNothing,
    /// (4): each send of an alike message was reported.
    ReportsLike,
}

impl Premise {
    /// Returns whether the premise is among those of a hop.
    pub(crate) fn is_part_of(self, premises: NodePremises) -> bool
        ensures { result ≡ is_part_of self premises }
    {
        match self {
            Premise::ReportsTakes | Premise::KeepsCounters => matches!(
                premises,
                NodePremises::KeptCounters | NodePremises::KeptToken
            ),
            Premise::BeginsNothing => matches!(premises, NodePremises::KeptToken),
            Premise::ReportsLike => matches!(premises, NodePremises::SendsReported),
        }
    }
}
