//! The origins that a stamp's token may have by the tokens that the stamp may succeed.

ghost use Rattle.std.specs.Prelude.{◌≡◌, ℕ, ◌+◌, slice_get, List, Some, OnOk, if◌then◌else◌};
ghost use Rattle.node_machine.specs.declared.types.Seen.{Seen as SeenValue};
ghost use Rattle.node_origins.specs.declared.successors.Successor.{Successor as SuccessorValue};
ghost use Rattle.node_origins.specs.Summary.{either_origins, IsEntry, IsSummary};
ghost use Rattle.node_origins.specs.Sources.{FromPredecessor, OfToken};
ghost use Rattle.node_origins.specs.Tables.{AreSuccessors, origins_in, successor_eq};

use crate::counts::count_after;
use crate::origin::{EventOrigins, StampOrigin};
use node_machine::Seen;
use st_core::Kind;
use std::alloc::{AllocError, Global};
use std::collections::HashMap;

/// A stamp's label and serial, as the token that it succeeds gives them.
#[derive(Clone, Copy, Debug, PartialEq, Eq, Hash)]
pub(crate) struct Successor {
    pub(crate) label: u32,
    pub(crate) prev: u64,
    pub(crate) this: u64,
}

/// Returns the origins of the token that an event shows; a stamp's are `origins`.
fn token_origins(index: usize, event: Seen, origins: EventOrigins) -> EventOrigins
    ensures { (es : List SeenValue) → IsEntry es index event origins
        → IsSummary (OfToken es index event) result }
{
    match event.kind {
        Kind::Receive => EventOrigins::One(StampOrigin::Follows(index)),
        Kind::Send | Kind::Print => origins,
    }
}

/// The origins of the tokens so far, by the stamps that succeed them.
#[derive(Drop)]
pub(crate) struct Successors {
    pub(crate) origins: HashMap<Successor, EventOrigins>,
}

impl Successors {
    pub(crate) fn new(alloc: Global) -> Successors
        ensures { (es : List SeenValue) → AreSuccessors es 0 result }
    {
        Successors {
            origins: HashMap::new(alloc),
        }
    }

    fn at(&self, stamp: Successor) -> EventOrigins
        ensures { result ≡ origins_in self.now stamp }
    {
        match self.origins.get(&stamp) {
            Some(&origins) => origins,
            None => EventOrigins::Unknown,
        }
    }

    /// Adds a token that a stamp succeeds.
    fn add(&mut self, stamp: Successor, origins: EventOrigins) -> Result<(), AllocError>
        ensures { OnOk result ((q : SuccessorValue) → origins_in self.new q
            ≡ (if successor_eq stamp q then either_origins (origins_in self.old q) origins
            else origins_in self.old q)) }
    {
        let all = self.at(stamp).or(origins);
        match self.origins.insert(stamp, all) {
            Ok(_) => Ok(()),
            Err(_) => Err(AllocError),
        }
    }

    /// Adds the token that an event shows; a stamp's origins are `origins`.
    pub(crate) fn note(
        &mut self,
        index: usize,
        event: Seen,
        origins: EventOrigins,
    ) -> Result<(), AllocError>
        ensures { (es : List SeenValue) → slice_get es index ≡ Some event
            → IsEntry es index event origins → AreSuccessors es index self.old
            → OnOk result (AreSuccessors es (index + 1) self.new) }
    {
        if event.answer {
            return Ok(());
        }
        let successor = Successor {
            label: event.label.0,
            prev: event.serial.prev,
            this: count_after(event.serial.this),
        };
        self.add(successor, token_origins(index, event, origins))
    }

    pub(crate) fn origins_of(&self, stamp: Seen) -> EventOrigins
        ensures { (es : List SeenValue) (i : ℕ) → AreSuccessors es i self.now
            → slice_get es i ≡ Some stamp → IsSummary (FromPredecessor es i) result }
    {
        self.at(Successor {
            label: stamp.label.0,
            prev: stamp.serial.prev,
            this: stamp.serial.this,
        })
    }
}
