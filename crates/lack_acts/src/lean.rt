//! Writes the acts of whole streams with few changes of tokens: a token is set once, and then
//! travels with the messages.
//!
//! Each act is stepped in a world that begins at zero clocks, so the acts have a run. Whether the
//! run shows the told events, the checker finds out: a mistake here only costs time.

ghost use Rattle.std.specs.Prelude.{◌≡◌, ◌∷◌, ◌++◌, [], false, IfOk, OnOk};
ghost use Rattle.st_core.specs.Laws.{is_reset};
ghost use Rattle.st_core.specs.Run.{pids_of};
ghost use Rattle.lack_acts.specs.Acts.{Extends, IsBegun, RunsWithin};

use crate::demands::{TokenDemand, change_act};
use crate::marked_streams::is_told;
use crate::tallies::{missing_in, usual_flags};
use st_core::{Act, Component, Event, Flags, Kind, Label, Pid, Sequence, Streams, Want};
use st_order::{Item, order};
use st_pair::{PairFault, Pairing, pair};
use st_world::{StepFault, World};
use std::alloc::{AllocError, Global};
use std::thread::Threads;

/// The reason why `lean_acts` returns no acts.
#[derive(Clone, Copy, PartialEq, Eq)]
pub enum LeanFault {
    /// Memory ran out.
    Memory,
    /// More acts are needed than the caller takes.
    TooMany,
    /// The next event can't come after the acts so far. That a completion has no such event isn't
    /// proved.
    Stopped,
}

/// The acts so far, and the world after them.
#[derive(Drop)]
struct Acts<const TOP: u64> {
    world: World<TOP>,
    acts: Sequence<Act>,
    /// The greatest number of acts that the caller takes.
    most: u64,
    /// The flags of a restored token, if its stamp leaves them free.
    usual: Flags,
}

impl<const TOP: u64> Acts<TOP> {
    /// Returns no acts yet, in a world at zero clocks.
    fn new(alloc: Global, pids: &[Pid], most: u64, usual: Flags) -> Result<Acts<TOP>, LeanFault>
        ensures { IfOk result (IsBegun pids.now most) }
    {
        match World::<TOP>::new(alloc, pids) {
            Ok(world) => Ok(Acts {
                world,
                acts: Sequence::new(alloc),
                most,
                usual,
            }),
            Err(_) => Err(LeanFault::Memory),
        }
    }

    /// Adds the act, and steps it.
    fn perform(&mut self, act: Act) -> Result<(), LeanFault>
        requires { is_reset act ≡ false }
        ensures goes_on { OnOk result (Extends self.old self.new) }
        ensures appended { OnOk result (self.new.acts ≡ self.old.acts ++ act ∷ []) }
    {
        if self.acts.len() as u64 >= self.most {
            return Err(LeanFault::TooMany);
        }
        let Ok(()) = self.acts.push(act) else {
            return Err(LeanFault::Memory);
        };
        match self.world.step(&act) {
            Ok(_) => Ok(()),
            Err(StepFault::Memory) => Err(LeanFault::Memory),
            Err(StepFault::Unknown | StepFault::ClockFull) => Err(LeanFault::Stopped),
        }
    }

    /// Adds a tracer for each node, by its least pid.
    fn open(&mut self, pids: &[Pid]) -> Result<(), LeanFault>
        ensures { OnOk result (Extends self.old self.new) }
    {
        let mut node: Option<u16> = None;
        for &pid in pids {
            if node != Some(pid.node()) {
                self.perform(Act::Tracer(pid, true))?;
                node = Some(pid.node());
            }
        }
        Ok(())
    }

    /// Adds the act after which the token of the process meets the demand, if it doesn't yet.
    fn dress(&mut self, pid: Pid, demand: TokenDemand) -> Result<(), LeanFault>
        ensures { OnOk result (Extends self.old self.new) }
    {
        match change_act(pid, self.world.token(pid), demand, self.usual) {
            None => Ok(()),
            Some(act) => self.perform(act),
        }
    }

    /// Brings the clock of the process up to the count by silent prints.
    fn climb(&mut self, pid: Pid, label: Label, count: u64) -> Result<(), LeanFault>
        ensures { OnOk result (Extends self.old self.new) }
    {
        let clock = self.world.clock(pid).unwrap_or(count);
        if clock >= count {
            return Ok(());
        }
        self.dress(pid, TokenDemand::by_print(label, false))?;
        for _ in clock..count {
            self.perform(Act::Print(pid, 0))?;
        }
        Ok(())
    }

    /// Takes the token from the process, if it has one.
    fn clear(&mut self, pid: Pid) -> Result<(), LeanFault>
        ensures { OnOk result (Extends self.old self.new) }
    {
        match self.world.token(pid) {
            None => Ok(()),
            Some(_) => self.perform(Act::Clear(pid)),
        }
    }

    /// Brings the clock up to the count, and begins a new trace there.
    fn begin(&mut self, pid: Pid, label: Label, count: u64) -> Result<(), LeanFault>
        ensures { OnOk result (Extends self.old self.new) }
    {
        self.climb(pid, label, count)?;
        if self.world.clock(pid) != Some(count) {
            return Err(LeanFault::Stopped);
        }
        self.clear(pid)?;
        self.perform(Act::Set(pid, Component::Label(label)))?;
        Ok(())
    }

    /// Begins a new trace at the event's prev, if that isn't the last count.
    fn renew(&mut self, pid: Pid, event: &Event) -> Result<(), LeanFault>
        ensures { OnOk result (Extends self.old self.new) }
    {
        if self.world.last(pid) == Some(event.serial.prev) {
            return Ok(());
        }
        self.begin(pid, event.label, event.serial.prev)
    }

    /// Adds the act that stamps the event's serial, after those that it needs.
    fn stamp(
        &mut self,
        pid: Pid,
        event: &Event,
        demand: TokenDemand,
        act: Act,
    ) -> Result<(), LeanFault>
        requires { is_reset act ≡ false }
        ensures { OnOk result (Extends self.old self.new) }
    {
        self.renew(pid, event)?;
        self.climb(pid, event.label, event.serial.this.saturating_sub(1))?;
        self.dress(pid, demand)?;
        self.perform(act)?;
        Ok(())
    }

    /// Lets the process take the message of the event.
    fn receive(&mut self, pid: Pid, event: &Event) -> Result<(), LeanFault>
        ensures { OnOk result (Extends self.old self.new) }
    {
        match self.world.place_of(pid, event.from, event.serial.this) {
            None => Err(LeanFault::Stopped),
            Some(place) => self.perform(Act::Receive(pid, Want::Place(place))),
        }
    }

    /// Adds the acts of an event.
    fn append(
        &mut self,
        streams: &Streams,
        marks: &[Sequence<bool>],
        pairing: &Pairing,
        pid: Pid,
        index: u64,
    ) -> Result<(), LeanFault>
        ensures { OnOk result (Extends self.old self.new) }
    {
        let Some(event) = streams.event(pid, index) else {
            return Err(LeanFault::Stopped);
        };
        let is_event_told = is_told(streams, marks, pid, index);
        match (event.kind, event.to) {
            (Kind::Receive, _) => self.receive(pid, &event),
            (Kind::Print, _) => {
                let demand = TokenDemand::by_print(event.label, is_event_told);
                self.stamp(pid, &event, demand, Act::Print(pid, event.value))
            }
            (Kind::Send, None) => Err(LeanFault::Stopped),
            (Kind::Send, Some(to)) => {
                let is_receive_told = match pairing.receiver(pid, index) {
                    None => None,
                    Some((receiver, place)) => Some(is_told(streams, marks, receiver, place)),
                };
                let demand = TokenDemand::by_send(event.label, is_event_told, is_receive_told);
                self.stamp(pid, &event, demand, Act::Send(pid, to, event.value))
            }
        }
    }

    /// Adds the acts of all items.
    fn append_all(
        &mut self,
        streams: &Streams,
        marks: &[Sequence<bool>],
        pairing: &Pairing,
        items: &[Item],
    ) -> Result<(), LeanFault>
        ensures { OnOk result (Extends self.old self.new) }
    {
        self.open(streams.pids())?;
        for &item in items {
            let Item::Reported(pid, index) = item else {
                return Err(LeanFault::Stopped);
            };
            self.append(streams, marks, pairing, pid, index)?;
        }
        Ok(())
    }

    fn into_acts(self) -> Sequence<Act>
        ensures { result ≡ self.entry.acts }
    {
        let Acts { acts, .. } = self;
        acts
    }
}

/// Returns the acts of all items, in their order.
fn acts_in_order<const TOP: u64>(
    alloc: Global,
    streams: &Streams,
    marks: &[Sequence<bool>],
    pairing: &Pairing,
    items: &[Item],
    most: u64,
) -> Result<Sequence<Act>, LeanFault>
    ensures { IfOk result (RunsWithin TOP most (pids_of streams.now)) }
{
    // Each event takes an act, and so does each missing count.
    if streams.total().saturating_add(missing_in(streams)) > most {
        return Err(LeanFault::TooMany);
    }
    let usual = usual_flags(streams, marks);
    let mut acts = Acts::<TOP>::new(alloc, streams.pids(), most, usual)?;
    acts.append_all(streams, marks, pairing, items)?;
    Ok(acts.into_acts())
}

/// Returns acts for the told events, at most `most`.
///
/// It sorts on several threads; the result doesn't depend on their number.
pub(crate) fn acts_of<const TOP: u64>(
    rt: &(impl Threads + Sync),
    alloc: Global,
    streams: &Streams,
    marks: &[Sequence<bool>],
    most: u64,
) -> Result<Sequence<Act>, LeanFault>
    ensures { IfOk result (RunsWithin TOP most (pids_of streams.now)) }
{
    let pairing = match pair(alloc, streams) {
        Ok(pairing) => pairing,
        Err(PairFault::Memory) => return Err(LeanFault::Memory),
        Err(_) => return Err(LeanFault::Stopped),
    };
    let Ok(items) = order(rt, alloc, streams, &pairing) else {
        return Err(LeanFault::Memory);
    };
    acts_in_order::<TOP>(alloc, streams, marks, &pairing, items.as_slice(), most)
}
