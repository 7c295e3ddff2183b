//! The four rules, each at one event, and the first fault of those that look at one process.

ghost use Rattle.std.specs.Prelude.{◌≡◌, ◌==◌, ◌&&◌};
ghost use Rattle.st_core.specs.Pid.{pid_eq};
ghost use Rattle.st_core.specs.Event.{to_eq};
ghost use Rattle.st_core.specs.Streams.{events_of};
ghost use Rattle.st_pair.specs.Links.{link_of};
ghost use Rattle.st_pair.specs.Pairing.{agrees, mismatch, not_rising, prev_not_before};
ghost use Rattle.st_pair.specs.Places.{first, first_from};
ghost use Rattle.st_pair.specs.Rules.{count_before, fault_at, repeated_by};

use crate::answer::PairFault;
use crate::pairing::Link;
use st_core::{Event, Kind, Pid, Streams};

/// A rule that looks at the events of one process alone.
#[derive(Clone, Copy)]
pub enum Rule {
    /// Each event's prev is less than its this.
    PrevNotBefore,
    /// The counts of each process's sends and prints rise.
    NotRising,
}

impl Rule {
    /// Returns the rule's fault at one event. `last` is the index and the count of the last send
    /// or print before it.
    fn fault_at(
        &self,
        streams: &Streams,
        pid: Pid,
        index: u64,
        last: Option<(u64, u64)>,
        event: &Event,
    ) -> Option<PairFault>
        requires { last ≡ count_before (events_of streams.now pid) index }
        ensures { result ≡ fault_at self.now streams.now pid index event.now }
    {
        match self {
            Rule::PrevNotBefore => prev_not_before_at(pid, index, event),
            Rule::NotRising => not_rising_at(streams, pid, index, last, event),
        }
    }

    /// Returns the rule's first fault in the stream of one process.
    fn first_fault_in(&self, streams: &Streams, pid: Pid) -> Option<PairFault>
        ensures { result ≡ first_from (fault_at self.now streams.now) pid 0
            (events_of streams.now pid) }
    {
        let events = streams.events(pid);
        let mut last: Option<(u64, u64)> = None;
        for (i, event) in events.iter().enumerate() {
            if let Some(fault) = self.fault_at(streams, pid, i as u64, last, event) {
                return Some(fault);
            }
            match event.kind {
                Kind::Receive => {}
                Kind::Send | Kind::Print => last = Some((i as u64, event.serial.this)),
            }
        }
        None
    }

    /// Returns the rule's fault at the least place that has one.
    pub fn first_fault(&self, streams: &Streams) -> Option<PairFault>
        ensures { result ≡ first (fault_at self.now streams.now) streams.now }
    {
        for &pid in streams.pids() {
            if let Some(fault) = self.first_fault_in(streams, pid) {
                return Some(fault);
            }
        }
        None
    }
}

/// Returns a fault if the event's prev isn't less than its this.
fn prev_not_before_at(pid: Pid, index: u64, event: &Event) -> Option<PairFault>
    ensures { result ≡ prev_not_before pid index event.now }
{
    if event.serial.this <= event.serial.prev {
        return Some(PairFault::PrevNotBefore(pid, index));
    }
    None
}

/// Returns a fault if the event is a send or print whose count isn't above that of the last one
/// before it, which is `last`.
fn not_rising_at(
    streams: &Streams,
    pid: Pid,
    index: u64,
    last: Option<(u64, u64)>,
    event: &Event,
) -> Option<PairFault>
    requires { last ≡ count_before (events_of streams.now pid) index }
    ensures { result ≡ not_rising streams.now pid index event.now }
{
    match event.kind {
        Kind::Receive => None,
        Kind::Send | Kind::Print => match last {
            None => None,
            Some((place, before)) => {
                if event.serial.this <= before {
                    Some(PairFault::NotRising(pid, index, place))
                } else {
                    None
                }
            }
        },
    }
}

fn is_place(first: Pid, place: u64, pid: Pid, index: u64) -> bool
    ensures { result ≡ (pid_eq first pid && place == index) }
{
    first == pid && place == index
}

/// Returns a fault if the receive isn't at `first`, the place of the first receive with its sender
/// and count.
pub fn repetition_at(first: (Pid, u64), pid: Pid, index: u64) -> Option<PairFault>
    ensures { result ≡ repeated_by first pid index }
{
    if is_place(first.0, first.1, pid, index) {
        None
    } else {
        Some(PairFault::Repeated(pid, index, first.0, first.1))
    }
}

/// Returns whether both name one process, or neither names any.
fn is_same_to(left: Option<Pid>, right: Option<Pid>) -> bool
    ensures { result ≡ to_eq left right }
{
    match left {
        None => right.is_none(),
        Some(p) => match right {
            None => false,
            Some(q) => p == q,
        },
    }
}

/// Returns whether the event `sent` is the send of the receive `event`.
fn is_send_of(sent: &Event, event: &Event) -> bool
    ensures { result ≡ agrees sent.now event.now }
{
    match sent.kind {
        Kind::Receive | Kind::Print => false,
        Kind::Send => {
            sent.label.0 == event.label.0
                && (sent.serial.prev == event.serial.prev
                    && (is_same_to(sent.to, event.to) && sent.value == event.value))
        }
    }
}

/// Returns a fault if the event is a receive, and the event that its link names isn't its send.
pub fn mismatch_at(
    streams: &Streams,
    pid: Pid,
    index: u64,
    event: &Event,
    link: Link,
) -> Option<PairFault>
    requires { link ≡ link_of streams.now pid event.now }
    ensures { result ≡ mismatch streams.now pid index event.now }
{
    match link {
        Link::Printed | Link::Unpaired | Link::To(..) | Link::Hidden => None,
        Link::From(from, place) => match streams.events(from).get(place as usize) {
            None => None,
            Some(sent) => {
                if is_send_of(sent, event) {
                    None
                } else {
                    Some(PairFault::Mismatch(pid, index, from, place))
                }
            }
        },
    }
}
