//! The indexes of a candidate's events in its whole streams.

ghost use Rattle.std.specs.Prelude.{◌≡◌, [], ◌∷◌, ◌++◌, vec_len, IfOk, OnOk};
ghost use Rattle.std.specs.Option.{option_and_then};
ghost use Rattle.lack_search.specs.Positions.{index_of_reported, AreEmpty, IsIndexNoted};

use crate::assembly::Parts;
use crate::merged_events::Origin;
use st_core::Streams;
use std::alloc::{AllocError, Global};

/// The index of each event among all events of its process, by origin, in the order in which the
/// events were added.
#[derive(Drop)]
pub(crate) struct Positions {
    /// For each listed process, by its place, the number of reported events of the processes
    /// before it.
    pub starts: Vec<usize>,
    pub reported: Vec<u32>,
    pub hidden: Vec<u32>,
    /// The indexes of the receives that stamps got.
    pub fed: Vec<u32>,
    pub invented: Vec<u32>,
}

impl Positions {
    /// Returns empty lists with room for the events of the streams and the parts.
    pub(crate) fn new(
        alloc: Global,
        streams: &Streams,
        parts: &Parts,
    ) -> Result<Positions, AllocError>
        ensures { IfOk result AreEmpty }
    {
        Ok(Positions {
            starts: Vec::with_capacity(alloc, streams.pids().len())?,
            reported: Vec::with_capacity(alloc, streams.total() as usize)?,
            hidden: Vec::with_capacity(alloc, parts.hidden.len())?,
            fed: Vec::with_capacity(alloc, parts.fed.len())?,
            invented: Vec::with_capacity(alloc, parts.inventions.len())?,
        })
    }

    pub(crate) fn begin(&mut self) -> Result<(), AllocError>
        ensures { OnOk result (self.new.starts.items
            ≡ self.old.starts.items ++ vec_len self.old.reported ∷ []) }
    {
        let start = self.reported.len();
        self.starts.push(start)?;
        Ok(())
    }

    pub(crate) fn note(&mut self, origin: Origin, index: u32) -> Result<(), AllocError>
        ensures { OnOk result (IsIndexNoted origin index self.old self.new) }
    {
        match origin {
            Origin::Reported => self.reported.push(index)?,
            Origin::Hidden => self.hidden.push(index)?,
            Origin::Fed => self.fed.push(index)?,
            Origin::Invented => self.invented.push(index)?,
        }
        Ok(())
    }

    /// Returns the index, among all events of a process, of its reported event at `index`;
    /// `process` is its place.
    pub(crate) fn of_reported(&self, process: usize, index: usize) -> Option<u32>
        ensures { result ≡ index_of_reported self.now process index }
    {
        let start = self.starts.get(process)?;
        self.reported.get(start.saturating_add(index)).copied()
    }
}
