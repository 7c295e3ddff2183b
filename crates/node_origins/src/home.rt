//! Tests whether a process can have given a stamp's token its label.

ghost use Rattle.std.specs.Prelude.{◌≡◌, ◌↔◌, slice_get, List, Some, IfOk, IsTrue};
ghost use Rattle.node_machine.specs.declared.types.Seen.{Seen as SeenValue};
ghost use Rattle.node_machine.specs.Origins.{IsAtHome};
ghost use Rattle.node_given.specs.Walk.{AreFit};
ghost use Rattle.node_origins.specs.Summary.{IsSummary};
ghost use Rattle.node_origins.specs.Sources.{FromHome};
ghost use Rattle.node_origins.specs.Tables.{AreFirstEvents};

use crate::first_labels::FirstLabels;
use crate::first_tokens::FirstTokens;
use crate::origin::{EventOrigins, StampOrigin};
use node_machine::Seen;
use std::alloc::{AllocError, Global};

/// The first events of a process with each label and each token.
#[derive(Drop)]
pub(crate) struct Firsts {
    labels: FirstLabels,
    tokens: FirstTokens,
}

impl Firsts {
    pub(crate) fn of(alloc: Global, events: &[Seen]) -> Result<Firsts, AllocError>
        requires { AreFit events.now }
        ensures { IfOk result (AreFirstEvents events.now) }
    {
        Ok(Firsts {
            labels: FirstLabels::of(alloc, events)?,
            tokens: FirstTokens::of(alloc, events)?,
        })
    }

    fn allow_home(&self, index: usize, stamp: Seen) -> bool
        ensures { (es : List SeenValue) → AreFirstEvents es self.now
            → slice_get es index ≡ Some stamp → IsTrue result ↔ IsAtHome es index }
    {
        match self.labels.get(stamp.label) {
            None => true,
            Some(first) => {
                !first.receives && (index <= first.index || self.tokens.has(stamp, first.index))
            }
        }
    }

    /// Returns home if the events allow it for the stamp at an index.
    pub(crate) fn home(&self, index: usize, stamp: Seen) -> EventOrigins
        ensures { (es : List SeenValue) → AreFirstEvents es self.now
            → slice_get es index ≡ Some stamp → IsSummary (FromHome es index) result }
    {
        if self.allow_home(index, stamp) {
            EventOrigins::One(StampOrigin::Home)
        } else {
            EventOrigins::Unknown
        }
    }
}
