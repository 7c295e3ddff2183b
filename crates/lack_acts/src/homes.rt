//! Moves invented messages to senders that need few silent stamps for them.
//!
//! `complete` gives a need the first process that may have sent its message. If that process
//! reports nothing more, it passes all counts up to the message's for this message alone. So the
//! message moves: to a process that passes its count anyway, else to the process whose counts end
//! next below.

ghost use Rattle.std.specs.Prelude.{◌≡◌, [], All, Contains, IfOk, IfSome, OnOk};
ghost use Rattle.lack_needs.specs.Completions.{wholes_with};
ghost use Rattle.lack_needs.specs.Flaws.{left_by};
ghost use Rattle.lack_acts.specs.Homes.{gap_after, IsEndIn, IsGapFor};
ghost use Rattle.lack_acts.specs.Insertions.{AreInsertions};
ghost use Rattle.lack_acts.specs.Told.{TellsAs};

use crate::gaps::{Gap, gaps_of};
use crate::insertion::{Insertion, with_insertions};
use crate::marked_streams::MarkedStreams;
use crate::messages::{Receipt, put_message};
use crate::offers::{Offer, Offers, offer_of};
use crate::strays::{Stray, Strays, may_save, strays_of};
use lack_needs::Left;
use st_core::{Event, Sequence, Serial, Streams};
use std::alloc::{AllocError, Global};

/// The end of a process: its number of events and what they leave, ordered by the greatest count.
#[derive(Clone, Copy, PartialEq, Eq, PartialOrd, Ord)]
struct ProcessEnd {
    greatest: u64,
    process: usize,
    prev: u64,
    event_count: usize,
}

fn left_by(events: &[Event]) -> Left
    ensures { result ≡ left_by events.now }
{
    let mut left = Left::by_none();
    for event in events {
        left = left.after(event);
    }
    left
}

/// Returns the ends of all processes, by rising greatest count.
fn ends_of(alloc: Global, streams: &Streams) -> Result<Vec<ProcessEnd>, AllocError>
    ensures { IfOk result (λ ends. All (IsEndIn streams.now) ends.items) }
{
    let mut ends = Vec::new(alloc);
    for (process, &pid) in streams.pids().iter().enumerate() {
        let events = streams.events(pid);
        let left = left_by(events);
        ends.push(ProcessEnd {
            greatest: left.greatest,
            process,
            prev: left.prev,
            event_count: events.len(),
        })?;
    }
    ends.sort()?;
    Ok(ends)
}

/// Returns the gap before a send of the message after all events of a process.
fn gap_after(end: ProcessEnd, stray: Stray) -> Gap
    ensures { result ≡ gap_after end stray }
{
    let left = Left {
        greatest: end.greatest,
        prev: end.prev,
    };
    let serial = Serial {
        prev: end.prev,
        this: stray.count,
    };
    Gap::before(
        end.process,
        end.event_count,
        stray.label,
        serial,
        left,
        false,
    )
}

/// The search for homes, which takes messages by falling count.
#[derive(Drop)]
struct HomeSearch {
    gaps: Vec<Gap>,
    offers: Offers,
    /// The ends that may still become homes.
    ends: Vec<ProcessEnd>,
    untold: Vec<Insertion>,
}

impl HomeSearch {
    /// Returns a search that has found no home yet.
    fn new(alloc: Global, streams: &Streams) -> Result<HomeSearch, AllocError>
        ensures ends { IfOk result (λ search. All (IsEndIn streams.now) search.ends.items) }
        ensures untold { IfOk result (λ search. search.untold.items ≡ []) }
    {
        let gaps = gaps_of(alloc, streams, 0)?;
        let mut offers = Offers::new(alloc);
        for (number, gap) in gaps.iter().enumerate() {
            offers.put(offer_of(gap, number))?;
        }
        Ok(HomeSearch {
            gaps,
            offers,
            ends: ends_of(alloc, streams)?,
            untold: Vec::new(alloc),
        })
    }

    /// Returns a gap whose process passes the count, and takes the count out of its offer.
    fn gap_with(&mut self, count: u64) -> Result<Option<Gap>, AllocError>
        ensures found { IfOk result (λ some. IfSome some (Contains self.old.gaps.items)) }
        ensures untold { self.new.untold.items ≡ self.old.untold.items }
    {
        let Some(offer) = self.offers.take(count)? else {
            return Ok(None);
        };
        if offer.next != count {
            self.offers.put(offer)?;
            return Ok(None);
        }
        self.offers.put(Offer {
            next: count.saturating_sub(1),
            ..offer
        })?;
        Ok(self.gaps.get(offer.gap).copied())
    }

    /// Returns a gap at the end of the process whose counts end next below the message's. The
    /// process passes the counts between.
    fn gap_at_end(&mut self, stray: Stray) -> Result<Option<Gap>, AllocError>
        ensures found { IfOk result (λ some. IfSome some (IsGapFor stray)) }
        ensures untold { OnOk result (self.new.untold.items ≡ self.old.untold.items) }
    {
        for _ in 0..self.ends.len() {
            let Some(end) = self.ends.pop() else {
                return Ok(None);
            };
            if end.greatest < stray.count {
                let gap = gap_after(end, stray);
                self.offers.put(offer_of(&gap, self.gaps.len()))?;
                self.gaps.push(gap)?;
                return Ok(Some(gap));
            }
        }
        Ok(None)
    }

    /// Finds a gap for the send of the message.
    fn home(&mut self, stray: Stray) -> Result<Option<Gap>, AllocError>
        ensures { OnOk result (self.new.untold.items ≡ self.old.untold.items) }
    {
        let found = self.gap_with(stray.count)?;
        if found.is_some() {
            return Ok(found);
        }
        let home = self.gap_at_end(stray)?;
        Ok(home)
    }

    /// Finds a home for the message, and adds the message there. Returns false if there is none.
    fn settle(&mut self, streams: &Streams, stray: Stray) -> Result<bool, AllocError>
        requires { AreInsertions streams.now self.old.untold.items }
        ensures { OnOk result (AreInsertions streams.now self.new.untold.items) }
    {
        let home = self.home(stray)?;
        let Some(gap) = home else {
            return Ok(false);
        };
        let receipt = Receipt {
            process: stray.to,
            index: stray.entry,
            label: stray.label,
            comes_last: true,
        };
        put_message(&mut self.untold, streams, &gap, receipt, stray.count)
    }
}

/// Returns the sends and receives of the messages, at homes that need few silent stamps; `None` if
/// a message has no home.
fn settle_all(
    alloc: Global,
    streams: &Streams,
    mut strays: Vec<Stray>,
) -> Result<Option<Vec<Insertion>>, AllocError>
    ensures { IfOk result (λ some. IfSome some (λ untold. AreInsertions streams.now untold.items)) }
{
    strays.sort()?;
    let mut search = HomeSearch::new(alloc, streams)?;
    for &stray in strays.iter().rev() {
        if !search.settle(streams, stray)? {
            return Ok(None);
        }
    }
    let HomeSearch { untold, .. } = search;
    Ok(Some(untold))
}

/// Moves the stray messages to homes that need few silent stamps; `None` if this can't save acts,
/// or a message has no home.
pub(crate) fn with_near_homes(
    alloc: Global,
    streams: &Streams,
    marks: &[Sequence<bool>],
) -> Result<Option<MarkedStreams>, AllocError>
    ensures { IfOk result (λ some. IfSome some (TellsAs (wholes_with streams.now marks.now))) }
{
    if !may_save(streams, marks) {
        return Ok(None);
    }
    let mut strays = strays_of(alloc, streams, marks)?;
    if strays.strays.is_empty() {
        return Ok(None);
    }
    let found = strays.keep(alloc, streams, marks)?;
    let Some(kept) = found else {
        return Ok(None);
    };
    let Strays { strays, .. } = strays;
    let Some(untold) = settle_all(alloc, &kept.streams, strays)? else {
        return Ok(None);
    };
    let own = kept.marks.as_slice();
    let more = with_insertions(alloc, &kept.streams, own, untold)?;
    Ok(more)
}
