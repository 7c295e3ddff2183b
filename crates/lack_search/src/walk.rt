//! Puts hidden sends among the events of their processes.
//!
//! A hidden send goes between the two reported stamps of its sender with the nearest counts,
//! before the first receive that has its count or a greater one. Its place among the receives of
//! this stretch decides what its prev costs. It costs nothing if the machine could have stamped it
//! there: the events before it leave its prev, or a new trace began, which may be if its prev
//! isn't below the clock (the greatest count so far). Else a message must be added that gives the
//! prev.
//!
//! Two walks over each stretch find the places, back and then forth. If all receives were
//! reported, nothing has to be added, since each stamp cost nothing in the run that happened. The
//! walk back gives no send a last place before the one that it had in that run, so the walk forth
//! finds a place up to there that costs nothing.

ghost use Rattle.std.specs.Prelude.{◌≡◌, ◌+◌, ◌≤◌, [], drop, length, max, vec_len, All, None, IfOk};
ghost use Rattle.std.specs.Prelude.{OnOk};
ghost use Rattle.lack_search.specs.Sends.{AreSendsIn};
ghost use Rattle.lack_search.specs.Walk.{may_stand_at, AreWithin};

use crate::hidden_sends::{HiddenSend, split_hidden};
use crate::short::short;
use crate::stretch::{GapTables, Stretch};
use lack_needs::is_stamp;
use st_core::{Event, Label, Streams};
use std::alloc::{AllocError, Global};

/// A hidden send of the stretch that is walked.
#[derive(Clone, Copy)]
struct StretchSend {
    label: Label,
    prev: u64,
    this: u64,
    /// The gap of the send: its last place after the walk back, its place after the walk forth.
    gap: usize,
}

/// The event after a send in its stretch.
#[derive(Clone, Copy, PartialEq, Eq)]
enum Next {
    Nothing,
    /// The next hidden send, by its prev.
    Send(u64),
    /// The reported stamp at the end of the stretch, by its prev.
    Stamp(u64),
}

impl Next {
    /// Returns whether the next event may be at a gap up to the limit, which is its last place. A
    /// hidden send may move back to the gap, but the reported stamp is always at the limit.
    fn may_stand_at(self, gap: usize, limit: usize) -> bool
        ensures { result ≡ may_stand_at self gap limit }
    {
        match self {
            Next::Nothing => false,
            Next::Send(_) => true,
            Next::Stamp(_) => gap == limit,
        }
    }

    /// Returns the last gap at which the send still lets the next event cost nothing; `limit` is
    /// the last place of the next event.
    fn last_gap_before(self, ground: &mut GapTables, send: &StretchSend, limit: usize) -> usize
        ensures gap { result ≤ limit }
        ensures tables { ground.new.by_count ≡ ground.old.by_count }
    {
        let prev = match self {
            Next::Nothing => return limit,
            Next::Send(prev) | Next::Stamp(prev) => prev,
        };
        // The send leaves its own prev at any gap.
        if prev == send.prev {
            return limit;
        }
        // If the next event can stand right after a receive with its prev as count, the send goes
        // before that receive: the next event then costs nothing.
        let received = match ground.last_after(prev, limit) {
            Some(gap) if self.may_stand_at(gap, limit) => Some(gap.saturating_sub(1)),
            _ => None,
        };
        // The next event also costs nothing if a trace can begin after the send, while the clock
        // isn't above the prev. The later one of the two gaps will do.
        if prev < send.this.max(ground.clock(0)) {
            return received.unwrap_or(limit);
        }
        let begun = limit.min(ground.last_up_to(prev));
        if !self.may_stand_at(begun, limit) {
            return received.unwrap_or(limit);
        }
        received.map_or(begun, |gap| gap.max(begun))
    }
}

/// Gives each send its last place: the last gap that still lets the next event in the stretch cost
/// nothing, or the last place of the next event if no gap does. No last place is behind a receive
/// that has the send's count or a greater one.
fn walk_back(ground: &mut GapTables, stretch: Stretch<'_>, sends: &mut [StretchSend])
    requires { AreWithin (vec_len ground.old.by_count) sends.old }
    ensures gaps { AreWithin (vec_len ground.old.by_count) sends.new }
    ensures tables { ground.new.by_count ≡ ground.old.by_count }
{
    let mut limit = ground.end();
    let mut next = match stretch.stamp {
        None => Next::Nothing,
        Some(stamp) => Next::Stamp(stamp.serial.prev),
    };
    for number in (0..sends.len()).rev() {
        let send = &mut sends[number];
        limit = next.last_gap_before(ground, send, limit);
        limit = limit.min(ground.last_below(send.this));
        send.gap = limit;
        next = Next::Send(send.prev);
    }
}

/// The state of the walk forth.
#[derive(Clone, Copy)]
struct Standing {
    /// The gap, which never goes back.
    gap: usize,
    /// The prev that the events before leave.
    prev: u64,
    /// The label of the stamp or hidden send before; `None` at the start of a process.
    label: Option<Label>,
    /// The greatest count before.
    clock: u64,
}

impl Standing {
    fn at_start(stretch: Stretch<'_>) -> Standing
        ensures { result.gap ≡ 0 }
    {
        Standing {
            gap: 0,
            prev: stretch.before.map_or(0, |stamp| stamp.serial.prev),
            label: stretch.before.map(|stamp| stamp.label),
            clock: stretch.before.map_or(0, |stamp| stamp.serial.this),
        }
    }

    /// Returns the place of the next send, up to its last place. The walk goes no further than it
    /// must, since a place that costs nothing now costs nothing for the sends behind it either.
    /// Labels come first: they tell calls apart that have the same counts.
    fn place_of(self, ground: &mut GapTables, send: &StretchSend) -> usize
        ensures gap { result ≤ max self.gap send.now.gap }
        ensures tables { ground.new.by_count ≡ ground.old.by_count }
    {
        if self.prev == send.prev && self.label == Some(send.label) {
            return self.gap;
        }
        let limit = send.gap;
        if let Some(gap) = ground.next_of_label(send.prev, send.label, self.gap, limit) {
            return gap;
        }
        if send.prev == self.prev || send.prev == self.clock {
            return self.gap;
        }
        if let Some(gap) = ground.next_after(send.prev, self.gap, limit) {
            return gap;
        }
        // A trace began later, at a clock that no event shows. It may be behind all events with
        // counts up to that clock.
        if send.prev > self.clock {
            return self.gap.max(limit.min(ground.last_up_to(send.prev)));
        }
        self.gap
    }

    fn after(self, ground: &GapTables, send: &StretchSend) -> Standing
        ensures gap { result.gap ≡ send.now.gap }
        ensures clock { self.clock ≤ result.clock }
    {
        Standing {
            gap: send.gap,
            prev: send.prev,
            label: Some(send.label),
            clock: self.clock.max(ground.clock(send.gap)).max(send.this),
        }
    }
}

fn walk_forth(ground: &mut GapTables, stretch: Stretch<'_>, sends: &mut [StretchSend])
    requires { AreWithin (vec_len ground.old.by_count) sends.old }
    ensures gaps { AreWithin (vec_len ground.old.by_count) sends.new }
    ensures tables { ground.new.by_count ≡ ground.old.by_count }
{
    let mut standing = Standing::at_start(stretch);
    for send in sends.iter_mut() {
        send.gap = standing.place_of(ground, send);
        standing = standing.after(ground, send);
    }
}

/// Returns how many sends at the end of the stretch go right before the reported stamp: those with
/// its prev, if the last receive doesn't give it and a trace could begin there. Then they and the
/// stamp are one trace, which began behind all receives of the stretch.
fn last_with_stamp(ground: &GapTables, stretch: Stretch<'_>, sends: &[StretchSend]) -> usize
    ensures within { result ≤ length sends.now }
    ensures end { stretch.entry.stamp ≡ None → result ≡ 0 }
{
    let Some(stamp) = stretch.stamp else {
        return 0;
    };
    let prev = stamp.serial.prev;
    if let Some(receive) = stretch.receives.last() {
        if receive.serial.this == prev {
            return 0;
        }
    }
    let count = sends
        .iter()
        .rev()
        .take_while(|send| send.prev == prev)
        .count();
    let others = sends.len().saturating_sub(count);
    let before = match others.checked_sub(1) {
        None => None,
        Some(last) => sends.get(last),
    };
    let clock = before
        .map_or(0, |send| send.this)
        .max(ground.clock(ground.end()));
    if prev < clock {
        return 0;
    }
    count
}

fn move_to_stamp(ground: &GapTables, sends: &mut [StretchSend], count: usize)
    requires { AreWithin (vec_len ground.now.by_count) sends.old }
    ensures { AreWithin (vec_len ground.now.by_count) sends.new }
{
    let others = sends.len().saturating_sub(count);
    for (number, send) in sends.iter_mut().enumerate() {
        if number >= others {
            send.gap = ground.end();
        }
    }
}

/// Notes the places of the sends of a stretch; `start` is the index of its first event.
fn note_places(sends: &[StretchSend], start: usize, places: &mut Vec<u32>) -> Result<(), AllocError>
    ensures { OnOk result (vec_len places.new ≡ vec_len places.old + length sends.now) }
{
    for send in sends {
        places.push(short(start.saturating_add(send.gap)))?;
    }
    Ok(())
}

/// A walk over the stretches of each process in turn.
#[derive(Drop)]
struct StretchWalk {
    ground: GapTables,
    sends: Vec<StretchSend>,
    places: Vec<u32>,
}

impl StretchWalk {
    /// Takes the hidden sends of a stretch, each at the first gap.
    fn take_sends(&mut self, hidden: &[HiddenSend]) -> Result<(), AllocError>
        ensures count { OnOk result (vec_len self.new.sends ≡ length hidden.now) }
        ensures start { OnOk result (AreWithin 0 self.new.sends.items) }
        ensures ground { self.new.ground ≡ self.old.ground }
        ensures places { self.new.places ≡ self.old.places }
    {
        self.sends.clear();
        for send in hidden {
            self.sends.push(StretchSend {
                label: send.event.label,
                prev: send.event.serial.prev,
                this: send.event.serial.this,
                gap: 0,
            })?;
        }
        Ok(())
    }

    /// Finds the places of the hidden sends of a stretch; `start` is the index of its first event.
    fn place_stretch(
        &mut self,
        stretch: Stretch<'_>,
        start: usize,
        hidden: &[HiddenSend],
    ) -> Result<(), AllocError>
        ensures { OnOk result
            (vec_len self.new.places ≡ vec_len self.old.places + length hidden.now) }
    {
        if hidden.is_empty() {
            return Ok(());
        }
        self.ground.fill(stretch)?;
        self.take_sends(hidden)?;
        walk_back(&mut self.ground, stretch, &mut self.sends);
        walk_forth(&mut self.ground, stretch, &mut self.sends);
        let count = last_with_stamp(&self.ground, stretch, &self.sends);
        move_to_stamp(&self.ground, &mut self.sends, count);
        note_places(&self.sends, start, &mut self.places)
    }

    /// Finds the places of the hidden sends of a process, which come by rising count, among its
    /// events.
    fn place_process(&mut self, events: &[Event], hidden: &[HiddenSend]) -> Result<(), AllocError>
        ensures { OnOk result
            (vec_len self.new.places ≡ vec_len self.old.places + length hidden.now) }
    {
        let mut rest = hidden;
        let mut start = 0;
        let mut before = None;
        for (end, event) in events.iter().enumerate() {
            if !is_stamp(event) {
                continue;
            }
            let count = rest.partition_point(|send| send.event.serial.this < event.serial.this);
            let (now, later) = rest.split_at(count);
            let stretch = Stretch {
                before,
                receives: &events[start..end],
                stamp: Some(event),
            };
            self.place_stretch(stretch, start, now)?;
            rest = later;
            start = end + 1;
            before = Some(event);
        }
        let stretch = Stretch {
            before,
            receives: &events[start..],
            stamp: None,
        };
        self.place_stretch(stretch, start, rest)
    }
}

/// Returns the places of hidden sends, which come by sender and count.
fn places_of(
    alloc: Global,
    streams: &Streams,
    hidden: &[HiddenSend],
) -> Result<Vec<u32>, AllocError>
    ensures { IfOk result (λ places. vec_len places ≤ length hidden.now) }
{
    let mut walk = StretchWalk {
        ground: GapTables::new(alloc),
        sends: Vec::new(alloc),
        places: Vec::new(alloc),
    };
    let mut rest = hidden;
    for &pid in streams.pids() {
        let (own, later) = split_hidden(rest, pid);
        if !own.is_empty() {
            walk.place_process(streams.events(pid), own)?;
        }
        rest = later;
    }
    let StretchWalk { places, .. } = walk;
    Ok(places)
}

/// Gives hidden sends, which come by sender and count, their places.
pub(crate) fn place_hidden(
    alloc: Global,
    streams: &Streams,
    hidden: &mut [HiddenSend],
) -> Result<(), AllocError>
    requires { AreSendsIn streams.now hidden.old }
    ensures { OnOk result (AreSendsIn streams.now hidden.new) }
{
    let places = places_of(alloc, streams, hidden)?;
    for (number, &place) in places.iter().enumerate() {
        if number < hidden.len() {
            hidden[number].place = place;
        }
    }
    Ok(())
}
