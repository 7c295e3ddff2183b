//! The processes of nodes, and one step of them.
//!
//! A reset writes only a mark of its node: what was kept of a process before counts as wiped, and
//! is wiped when an act next touches the process.

ghost use Rattle.std.specs.Prelude.{◌≡◌, ℕ, ◌<◌, ◌+◌, ◌^◌, true, map, length, set, slice_get};
ghost use Rattle.std.specs.Prelude.{if◌then◌else◌, replicate, IfErr, IfOk, List, Some};
ghost use Rattle.node_check.specs.Kept.{kept_state, local_by, no_mark, zero_row, IsKeptAt, IsDone};
ghost use Rattle.node_check.specs.Kept.{IsRefreshed, IsUndone};
ghost use Rattle.node_check.specs.Acts.{node_act};
ghost use Rattle.node_machine.specs.Node.{Answer, Common, node_actor};
ghost use Rattle.st_core.specs.declared.types.Pid.{Pid as PidValue};
ghost use Rattle.st_core.specs.Pid.{IsRising};
ghost use Rattle.st_core.specs.Run.{pids_of};
ghost use Rattle.st_core.specs.State.{zero_state};
ghost use Rattle.st_core.specs.Step.{actor, untraced};
ghost use Rattle.st_mail.specs.Actor.{is_inner};
ghost use Rattle.st_mail.specs.Mail.{queue_in};

use crate::acts::NodeAct;
use crate::local::Local;
use st_core::{Act, Event, Kind, Message, Pid, Streams, Want};
use st_mail::Mailboxes;
use st_mail::actor::event;
use std::alloc::{AllocError, Global};

/// The number of nodes that a pid can name.
const NODES: usize = 1 << 16;

/// A process's row: what it keeps for tracing, without its queue.
#[derive(Clone, Copy)]
pub(crate) struct Row {
    local: Local,
    /// The number of acts before the last one that wrote the row.
    written: u64,
}

/// A node's mark.
#[derive(Clone, Copy)]
pub(crate) struct NodeMark {
    /// Whether the node is traced.
    traced: bool,
    /// The number of acts up to the node's last reset, 0 if there was none.
    reset: u64,
}

/// The processes of nodes, in the order of their pids.
#[derive(Drop)]
pub(crate) struct Processes {
    rows: Vec<Row>,
    queues: Mailboxes,
    /// The mark of each number that a node can have.
    nodes: Vec<NodeMark>,
}

/// Why an act wasn't done.
#[derive(Clone, Copy)]
pub(crate) enum StepFault {
    /// Memory ran out for the message of a send.
    Memory,
    /// A send's receiver isn't listed, so the act has no step.
    Unknown,
}

fn zero_rows(alloc: Global, count: usize) -> Result<Vec<Row>, AllocError>
    ensures { IfOk result (λ rows. rows.items ≡ replicate count zero_row) }
{
    let mut rows = Vec::new(alloc);
    for _ in 0..count {
        rows.push(Row {
            local: Local::new(),
            written: 0,
        })?;
    }
    Ok(rows)
}

fn zero_marks(alloc: Global, count: usize) -> Result<Vec<NodeMark>, AllocError>
    ensures { IfOk result (λ marks. marks.items ≡ replicate count no_mark) }
{
    let mut marks = Vec::new(alloc);
    for _ in 0..count {
        marks.push(NodeMark {
            traced: false,
            reset: 0,
        })?;
    }
    Ok(marks)
}

impl Row {
    /// Returns the state of the process, on a node with the mark.
    fn local_by(&self, mark: NodeMark) -> Local
        ensures { result ≡ local_by mark self.now }
    {
        let mut local = self.local;
        if self.written < mark.reset {
            local.wipe();
        }
        local.trace(mark.traced);
        local
    }
}

/// Takes the tokens of a queue's messages away, if the queue is stale.
fn wipe_stale(queues: &mut Mailboxes, place: usize, stale: bool)
    requires { place < length queues.old.boxes }
    ensures { queues.new.boxes ≡ set queues.old.boxes place
        (if stale then map untraced (queue_in queues.old.boxes place)
        else queue_in queues.old.boxes place) }
{
    if stale {
        queues.wipe_tokens(place);
    }
}

impl Processes {
    pub(crate) fn new(alloc: Global, pids: &[Pid]) -> Result<Processes, AllocError>
        ensures kept { IfOk result (IsKeptAt pids.now 0) }
        ensures zero { IfOk result (λ x. kept_state pids.now x ≡ zero_state pids.now) }
    {
        let rows = zero_rows(alloc, pids.len())?;
        let queues = Mailboxes::new(alloc, pids.len())?;
        let nodes = zero_marks(alloc, NODES)?;
        Ok(Processes {
            rows,
            queues,
            nodes,
        })
    }

    /// Writes the row and the queue of a process as resets and tracer changes of its node left
    /// them.
    fn refresh(&mut self, place: usize, pid: Pid, number: u64)
        requires rows { place < length self.old.rows.items }
        requires queues { place < length self.old.queues.boxes }
        requires nodes { length self.old.nodes.items ≡ 2 ^ 16 }
        ensures refreshed { (pids : List PidValue) → IsKeptAt pids number self.old
            → slice_get pids place ≡ Some pid
            → IsRefreshed pids number place pid self.old self.new }
        ensures rows { length self.new.rows.items ≡ length self.old.rows.items }
        ensures queues { length self.new.queues.boxes ≡ length self.old.queues.boxes }
        ensures nodes { self.new.nodes.items ≡ self.old.nodes.items }
    {
        let mark = self.nodes[usize::from(pid.node())];
        let row = self.rows[place];
        wipe_stale(&mut self.queues, place, row.written < mark.reset);
        self.rows[place] = Row {
            local: row.local_by(mark),
            written: number,
        };
    }

    /// Does an act that touches its actor alone and leaves its queue. Returns its report.
    fn inner(&mut self, place: usize, me: Pid, number: u64, act: &Act) -> Option<Event>
        requires rows { place < length self.old.rows.items }
        requires queues { place < length self.old.queues.boxes }
        requires nodes { length self.old.nodes.items ≡ 2 ^ 16 }
        requires inner { is_inner act.now ≡ true }
        requires me { actor act.now ≡ me }
        ensures { (pids : List PidValue) → IsRising pids → IsKeptAt pids number self.old
            → slice_get pids place ≡ Some me
            → IsDone pids number (Common act.now) result self.old self.new }
    {
        self.refresh(place, me, number);
        self.rows[place].local.act(me, act)
    }

    fn receive(&mut self, place: usize, me: Pid, number: u64, want: &Want) -> Option<Event>
        requires rows { place < length self.old.rows.items }
        requires queues { place < length self.old.queues.boxes }
        requires nodes { length self.old.nodes.items ≡ 2 ^ 16 }
        ensures { (pids : List PidValue) → IsRising pids → IsKeptAt pids number self.old
            → slice_get pids place ≡ Some me
            → IsDone pids number (Common (Act.Receive me want.now)) result self.old self.new }
    {
        self.refresh(place, me, number);
        let taken = self.queues.take(place, want);
        self.rows[place].local.take(me, taken)
    }

    /// Ends a spawn, which takes the answer from a place of the queue, and returns the report.
    fn answer(&mut self, place: usize, me: Pid, number: u64, at: u64) -> Option<Event>
        requires rows { place < length self.old.rows.items }
        requires queues { place < length self.old.queues.boxes }
        requires nodes { length self.old.nodes.items ≡ 2 ^ 16 }
        ensures { (pids : List PidValue) → IsRising pids → IsKeptAt pids number self.old
            → slice_get pids place ≡ Some me
            → IsDone pids number (Answer me at) result self.old self.new }
    {
        self.refresh(place, me, number);
        let taken = self.queues.take(place, &Want::Place(at));
        self.rows[place].local.take_answer(me, taken)
    }

    /// Sends a message with the stamped token, and returns the report.
    fn send(
        &mut self,
        place: usize,
        me: Pid,
        other: usize,
        to: Pid,
        number: u64,
        value: u64,
    ) -> Result<Option<Event>, AllocError>
        requires rows { place < length self.old.rows.items }
        requires queues { place < length self.old.queues.boxes }
        requires other_row { other < length self.old.rows.items }
        requires other_queue { other < length self.old.queues.boxes }
        requires nodes { length self.old.nodes.items ≡ 2 ^ 16 }
        ensures { IfOk result (λ report. (pids : List PidValue) → IsRising pids
            → IsKeptAt pids number self.old → slice_get pids place ≡ Some me
            → slice_get pids other ≡ Some to
            → IsDone pids number (Common (Act.Send me to value)) report self.old self.new) }
    {
        self.refresh(other, to, number);
        self.refresh(place, me, number);
        let mut local = self.rows[place].local;
        local.stamp(me);
        let token = local.token();
        let message = Message {
            from: me,
            value,
            token,
        };
        self.queues.put(other, message)?;
        self.rows[place] = Row {
            local,
            written: number,
        };
        Ok(event(local.traced(), Kind::Send, token, Some(to), value))
    }

    fn reset(&mut self, me: Pid, number: u64)
        requires nodes { length self.old.nodes.items ≡ 2 ^ 16 }
        requires few { number + 1 < 2 ^ 64 }
        ensures { (pids : List PidValue) (place : ℕ) → IsRising pids → IsKeptAt pids number self.old
            → slice_get pids place ≡ Some me
            → IsDone pids number (Common (Act.Reset me)) None self.old self.new }
    {
        self.nodes[usize::from(me.node())].reset = number + 1;
    }

    fn trace(&mut self, me: Pid, number: u64, on: bool)
        requires nodes { length self.old.nodes.items ≡ 2 ^ 16 }
        ensures { (pids : List PidValue) (place : ℕ) → IsRising pids → IsKeptAt pids number self.old
            → slice_get pids place ≡ Some me
            → IsDone pids number (Common (Act.Tracer me on)) None self.old self.new }
    {
        self.nodes[usize::from(me.node())].traced = on;
    }

    /// Does the act after `number` others, one of the machine of the manual, whose actor is at a
    /// place of the pids. Returns its report.
    #[inline]
    fn common_step(
        &mut self,
        streams: &Streams,
        place: usize,
        number: u64,
        act: &Act,
    ) -> Result<Option<Event>, StepFault>
        requires rising { IsRising (pids_of streams.now) }
        requires kept { IsKeptAt (pids_of streams.now) number self.old }
        requires at { slice_get (pids_of streams.now) place ≡ Some (actor act.now) }
        requires few { number + 1 < 2 ^ 64 }
        ensures done { IfOk result (λ report. IsDone (pids_of streams.now) number (Common act.now)
            report self.old self.new) }
        ensures undone { IfErr result
            (IsUndone (kept_state (pids_of streams.now) self.old) (Common act.now)) }
    {
        match *act {
            Act::Send(me, to, value) => {
                let Some(other) = streams.place_of(to) else {
                    return Err(StepFault::Unknown);
                };
                match self.send(place, me, other, to, number, value) {
                    Ok(report) => Ok(report),
                    Err(_) => Err(StepFault::Memory),
                }
            }
            Act::Receive(me, want) => Ok(self.receive(place, me, number, &want)),
            Act::Reset(me) => {
                self.reset(me, number);
                Ok(None)
            }
            Act::Tracer(me, on) => {
                self.trace(me, number, on);
                Ok(None)
            }
            Act::Print(me, _)
            | Act::PrintAt(me, _, _)
            | Act::Set(me, _)
            | Act::Clear(me)
            | Act::Restore(me, _)
            | Act::Look(me) => Ok(self.inner(place, me, number, act)),
        }
    }

    /// Does the act after `number` others, whose actor is at a place of the pids. Returns its
    /// report.
    #[inline]
    pub(crate) fn step(
        &mut self,
        streams: &Streams,
        place: usize,
        number: u64,
        act: &NodeAct,
    ) -> Result<Option<Event>, StepFault>
        requires rising { IsRising (pids_of streams.now) }
        requires kept { IsKeptAt (pids_of streams.now) number self.old }
        requires at { slice_get (pids_of streams.now) place
            ≡ Some (node_actor (node_act act.now)) }
        requires few { number + 1 < 2 ^ 64 }
        ensures done { IfOk result (λ report. IsDone (pids_of streams.now) number
            (node_act act.now) report self.old self.new) }
        ensures undone { IfErr result
            (IsUndone (kept_state (pids_of streams.now) self.old) (node_act act.now)) }
    {
        match *act {
            NodeAct::Common(act) => self.common_step(streams, place, number, &act),
            NodeAct::Answer(me, at) => Ok(self.answer(place, me, number, at)),
        }
    }
}
