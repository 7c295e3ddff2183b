//! Streams with the hops between their events and the lines of these.

ghost use Rattle.std.specs.Prelude.{◌≡◌, IfOk, Some};
ghost use Rattle.std.specs.List.{slice_get};
ghost use Rattle.st_core.specs.Streams.{events_of};
ghost use Rattle.st_pair.specs.Places.{event_at};
ghost use Rattle.node_hops.specs.Hops.{node_hop_of};

use crate::line_numbers::LineNumbers;
use node_hops::{NodeHop, NodeHops};
use st_core::{Event, Pid, Streams};
use std::alloc::{AllocError, Global};
use std::marker::Model;

/// Streams with their hops and lines. A contract sees it as the streams.
#[derive(Drop)]
pub(crate) struct NumberedHops<'a> {
    hops: NodeHops<'a>,
    numbers: LineNumbers<'a>,
}

impl<'a> Model for NumberedHops<'a> {
    ghost use Rattle.std.specs.Prelude.{◌≡◌, List};
    ghost use Rattle.st_core.specs.Run.{Stream};

    ghost Value = { List Stream };

    ghost view = { λ a. a.hops };

    ghost invariant = { λ a. a.numbers ≡ a.hops };
}

impl<'a> NumberedHops<'a> {
    /// Finds the hops and lines of streams. Fails only if memory runs out.
    pub(crate) fn new(alloc: Global, streams: &'a Streams) -> Result<Self, AllocError>
        ensures { IfOk result (λ trace. trace ≡ streams.now) }
    {
        let hops = NodeHops::new(alloc, streams)?;
        let numbers = LineNumbers::new(alloc, streams)?;
        Ok(NumberedHops { hops, numbers })
    }

    pub(crate) fn hops(&self) -> &NodeHops<'a>
        ensures { result.now ≡ self.now }
    {
        &self.hops
    }

    pub(crate) fn numbers(&self) -> &LineNumbers<'a>
        ensures { result.now ≡ self.now }
    {
        &self.numbers
    }

    pub(crate) fn event(&self, pid: Pid, index: u64) -> Option<Event>
        ensures { result ≡ event_at self.now pid index }
    {
        self.hops.event(pid, index)
    }

    pub(crate) fn hop(&self, pid: Pid, index: u64, event: &Event) -> NodeHop
        requires { slice_get (events_of self.now pid) index ≡ Some event.now }
        ensures { result ≡ node_hop_of self.now pid index event.now }
    {
        self.hops.hop(pid, index, event)
    }
}
