//! Puts the whole streams of a candidate together from its parts.

ghost use Rattle.std.specs.Prelude.{◌≡◌, [], IfOk, IfSome, OnOk};
ghost use Rattle.lack_search.specs.Assembly.{streams_of_pids, AddsTold, IsAdded, IsUnderWay};
ghost use Rattle.lack_search.specs.Assembly.{TellsStreams};
ghost use Rattle.lack_search.specs.MergedEvents.{told_if};
ghost use Rattle.lack_search.specs.Unlisted.{AreUnlisted};
ghost use Rattle.lack_needs.specs.Completions.{wholes_with};
ghost use Rattle.st_plan.specs.Marks.{told_streams};

use crate::asks::{Ask, split_asks};
use crate::candidate::Candidate;
use crate::hidden_sends::{HiddenSend, split_hidden};
use crate::inventions::{Invention, split_inventions};
use crate::links::links_of;
use crate::merged_events::{MergedEvents, Origin};
use crate::positions::Positions;
use crate::short::short;
use lack_needs::pids_with;
use st_core::{Draft, Event, Pid, Sequence, Streams, is_rising};
use st_pair::Pairing;
use std::alloc::{AllocError, Global};
use std::mem::replace;

/// The events and processes that a candidate adds to the streams.
#[derive(Drop)]
pub(crate) struct Parts {
    pub hidden: Vec<HiddenSend>,
    /// The stamps that got messages, by process and index.
    pub fed: Vec<Ask>,
    /// The sends of the invented messages, by sender and count.
    pub inventions: Vec<Invention>,
    pub unlisted: Vec<Pid>,
}

/// The whole streams so far, and the parts that are left.
#[derive(Drop)]
struct Assembly<'a> {
    draft: Draft,
    /// The indexes of the events so far.
    positions: Positions,
    /// The marks of the process whose events are being added.
    marks: Vec<bool>,
    hidden_left: &'a [HiddenSend],
    fed_left: &'a [Ask],
    inventions_left: &'a [Invention],
}

impl<'a> Assembly<'a> {
    fn new(alloc: Global, streams: &Streams, parts: &'a Parts) -> Result<Assembly<'a>, AllocError>
        ensures draft { IfOk result (λ assembly. assembly.draft ≡ []) }
        ensures marks { IfOk result (λ assembly. assembly.marks.items ≡ []) }
    {
        Ok(Assembly {
            draft: Draft::new(alloc),
            positions: Positions::new(alloc, streams, parts)?,
            marks: Vec::new(alloc),
            hidden_left: &parts.hidden,
            fed_left: &parts.fed,
            inventions_left: &parts.inventions,
        })
    }

    fn begin(&mut self, streams: &Streams, pid: Pid, most: usize) -> Result<(), AllocError>
        requires { self.old.marks.items ≡ [] }
        ensures { OnOk result (IsUnderWay self.old.draft pid [] self.new) }
    {
        let Ok(()) = self.draft.open(pid) else {
            return Err(AllocError);
        };
        if streams.place_of(pid).is_some() {
            self.positions.begin()?;
        }
        self.draft.reserve(pid, most)?;
        self.marks.reserve(most)
    }

    fn add(&mut self, pid: Pid, event: Event, origin: Origin) -> Result<(), AllocError>
        ensures { OnOk result (AddsTold pid (told_if origin event) self.old self.new) }
    {
        let Ok(()) = self.draft.add(pid, event) else {
            return Err(AllocError);
        };
        self.positions.note(origin, short(self.marks.len()))?;
        self.marks.push(origin.is_told())?;
        Ok(())
    }

    /// Adds the invented sends of the process with counts up to `most`, and returns those that are
    /// left.
    fn add_sends<'b>(
        &mut self,
        pid: Pid,
        sends: &'b [Invention],
        most: u64,
    ) -> Result<&'b [Invention], AllocError>
        ensures { OnOk result (AddsTold pid [] self.old self.new) }
    {
        let mut left = sends;
        while let Some((send, others)) = left.split_first() {
            if send.count > most {
                return Ok(left);
            }
            self.add(pid, send.sent(), Origin::Invented)?;
            left = others;
        }
        Ok(left)
    }

    fn add_process(
        &mut self,
        pid: Pid,
        mut events: MergedEvents<'_>,
        sends: &[Invention],
    ) -> Result<(), AllocError>
        ensures { OnOk result (AddsTold pid events.entry.reported.now self.old self.new) }
    {
        let mut left = sends;
        while let Some(next) = events.take_next() {
            left = self.add_sends(pid, left, next.event.serial.this)?;
            self.add(pid, next.event, next.origin)?;
        }
        self.add_sends(pid, left, u64::MAX)?;
        Ok(())
    }

    /// Adds all events of the next process, and returns their marks.
    fn add_next(
        &mut self,
        alloc: Global,
        streams: &Streams,
        pid: Pid,
    ) -> Result<Vec<bool>, AllocError>
        requires { self.old.marks.items ≡ [] }
        ensures added { IfOk result
            (λ marks. IsAdded streams.now pid self.old.draft self.new.draft marks.items) }
        ensures marks { OnOk result (self.new.marks.items ≡ []) }
    {
        let (hidden, hidden_left) = split_hidden(self.hidden_left, pid);
        let (fed, fed_left) = split_asks(self.fed_left, pid);
        let (sends, inventions_left) = split_inventions(self.inventions_left, pid);
        self.hidden_left = hidden_left;
        self.fed_left = fed_left;
        self.inventions_left = inventions_left;
        let reported = streams.events(pid);
        let received = reported.len().saturating_add(fed.len());
        let sent = hidden.len().saturating_add(sends.len());
        self.begin(streams, pid, received.saturating_add(sent))?;
        self.add_process(
            pid,
            MergedEvents::new(streams, reported, hidden, fed),
            sends,
        )?;
        Ok(replace(&mut self.marks, Vec::new(alloc)))
    }

    /// Adds all events of the processes, and returns the marks of each.
    fn add_all(
        &mut self,
        alloc: Global,
        streams: &Streams,
        pids: &[Pid],
    ) -> Result<Vec<Sequence<bool>>, AllocError>
        requires draft { self.old.draft ≡ [] }
        requires marks { self.old.marks.items ≡ [] }
        ensures { IfOk result (λ told. told_streams (wholes_with self.new.draft told.items)
            ≡ streams_of_pids streams.now pids.now) }
    {
        let mut told = Vec::with_capacity(alloc, pids.len())?;
        for &pid in pids {
            let marks = self.add_next(alloc, streams, pid)?;
            told.push(Sequence::from_vec(marks))?;
        }
        Ok(told)
    }

    fn into_draft(self) -> (Draft, Positions)
        ensures { result.0 ≡ self.entry.draft }
    {
        let Assembly {
            draft,
            positions,
            ..
        } = self;
        (draft, positions)
    }
}

/// Returns the candidate of the streams and the parts; `None` if they don't make streams.
pub(crate) fn assemble(
    alloc: Global,
    streams: &Streams,
    pairing: &Pairing,
    parts: Parts,
) -> Result<Option<Candidate>, AllocError>
    requires { AreUnlisted streams.now parts.unlisted.items }
    ensures { IfOk result (λ found. IfSome found (TellsStreams streams.now)) }
{
    if !is_rising(&parts.unlisted) {
        return Ok(None);
    }
    let _pids = streams.pids();
    let pids = pids_with(alloc, streams, &parts.unlisted)?;
    let mut assembly = Assembly::new(alloc, streams, &parts)?;
    let told = assembly.add_all(alloc, streams, &pids)?;
    let (draft, positions) = assembly.into_draft();
    let Ok(whole) = draft.close() else {
        return Ok(None);
    };
    let links = links_of(alloc, streams, pairing, &parts, &positions, &whole)?;
    let Parts { unlisted, .. } = parts;
    Ok(Some(Candidate {
        streams: whole,
        told,
        links,
        unlisted,
    }))
}
