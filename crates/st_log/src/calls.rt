//! Calls, which are acts with their replies, in little memory. Each call has a brief form of 24
//! bytes, which says the call itself or its place in a list of whole calls.

ghost use Rattle.std.specs.Prelude.{◌≡◌, ◌+◌, ◌-◌, ◌<◌, ◌≤◌, ◌↔◌, ◌⊎◌, [], ◌∷◌, ◌++◌, length};
ghost use Rattle.std.specs.Prelude.{slice_get};
ghost use Rattle.std.specs.Prelude.{slice_index_or, vec_len, IfOk, IfSome, OnOk, IsOk, IsTrue};
ghost use Rattle.std.specs.Vec.{vec_capacity};
ghost use Rattle.st_core.specs.Step.{actor};
ghost use Rattle.st_log.specs.Briefs.{call_at, call_in, IsBrief, IsBriefPlaced};
ghost use Rattle.st_log.specs.Entries.{is_wide};

use crate::same::is_call;
use crate::wide::is_wide;
use st_core::{Act, Pid, Reply, Want};
use std::alloc::{AllocError, Global};
use std::marker::Model;

/// The most calls that a `CallLog` keeps: a place is a number of 32 bits.
const MOST_CALLS: usize = 4_294_967_295;

/// The greatest place in a queue that fits into the 32 bits of a brief form.
const MOST_PLACE: u64 = 4_294_967_295;

/// A call of a frequent form, or the place of a call in the list of whole calls.
#[derive(Clone, Copy, PartialEq, Eq)]
pub enum Brief {
    /// A send from the first to the second process, which returned `Done`.
    Send(Pid, Pid, u64),
    /// A print, which returned `Done`.
    Print(Pid, u64),
    /// A receive of the process that found no message for the pattern.
    Nothing(Pid, Want),
    /// A receive by `Want::First`: the actor, and the sender and the value of the message.
    First(Pid, Pid, u64),
    /// A receive by `Want::From` with the message's sender; the fields are those of `First`.
    From(Pid, Pid, u64),
    /// A receive by `Want::Value` with the message's value; the fields are those of `First`.
    Value(Pid, Pid, u64),
    /// A receive by `Want::Both` with the message's sender and value; the fields are those of
    /// `First`.
    Both(Pid, Pid, u64),
    /// A receive by `Want::Place`: the actor, the place, and the sender and the value of the
    /// message.
    Place(Pid, u32, Pid, u64),
    /// The place of the call in the list of whole calls.
    Whole(u32),
}

// Keeps a call of a frequent form at 24 bytes.
const _: () = prove!(size_of::<Brief>() == 24);

/// Acts with their replies, in order. A call takes 24 bytes if it has a brief form, which most
/// sends, receives and prints have, else 112.
#[derive(Drop)]
pub struct CallLog {
    briefs: Vec<Brief>,
    whole: Vec<(Act, Reply)>,
    // The number of further calls for which both lists have room.
    reserved: usize,
}

impl Model for CallLog {
    ghost use Rattle.std.specs.Vec.{vec_capacity};
    ghost use Rattle.st_log.specs.Briefs.{calls_in, IsCallLog};
    ghost use Rattle.st_log.specs.CallList.{CallList};

    ghost Value = { CallList };

    ghost view = { λ c. record {
      calls = calls_in c.briefs.items c.whole.items;
      spare = c.reserved;
    } };

    ghost invariant = { λ c.
        IsCallLog c.briefs.items c.whole.items (vec_capacity c.briefs) (vec_capacity c.whole)
        c.reserved };
}

impl CallLog {
    /// Makes an empty list with room for `capacity` calls. Fails if memory runs out, or if
    /// `capacity` is above 4,294,967,295.
    pub fn with_capacity(alloc: Global, capacity: usize) -> Result<CallLog, AllocError>
        ensures calls { IfOk result (λ c. c.calls ≡ []) }
        ensures room { IfOk result (λ c. c.spare ≡ capacity) }
    {
        if capacity > MOST_CALLS {
            return Err(AllocError);
        }
        Ok(CallLog {
            briefs: Vec::with_capacity(alloc, capacity)?,
            whole: Vec::with_capacity(alloc, capacity)?,
            reserved: capacity,
        })
    }

    /// Returns the number of calls.
    pub fn len(&self) -> usize
        ensures { result ≡ length self.now.calls }
    {
        self.briefs.len()
    }

    /// Returns whether there are no calls.
    pub fn is_empty(&self) -> bool
        ensures { IsTrue result ↔ (self.now.calls ≡ []) }
    {
        self.briefs.is_empty()
    }

    /// Returns the call at `place`, counted from 0, if there is one.
    pub fn get(&self, place: usize) -> Option<(Act, Reply)>
        ensures { result ≡ slice_get self.now.calls place }
    {
        if place < self.len() {
            Some(self.at(place))
        } else {
            None
        }
    }

    /// Returns the first call, if there is one.
    pub fn first(&self) -> Option<(Act, Reply)>
        ensures { result ≡ slice_get self.now.calls 0 }
    {
        self.get(0)
    }

    /// Returns the last call, if there is one.
    pub fn last(&self) -> Option<(Act, Reply)>
        ensures { result ≡ slice_get self.now.calls (length self.now.calls - 1) }
    {
        self.get(self.len().saturating_sub(1))
    }

    /// Returns the call at `place`.
    pub fn at(&self, place: usize) -> (Act, Reply)
        requires { place < length self.now.calls }
        ensures { result ≡ slice_index_or self.now.calls place result }
    {
        self.briefs[place].call(self.whole.as_slice())
    }

    /// Returns the act of the call at `place`.
    pub fn act_at(&self, place: usize) -> Act
        requires { place < length self.now.calls }
        ensures { result ≡ (call_at self.now.calls place).0 }
    {
        self.briefs[place].act(self.whole.as_slice())
    }

    /// Returns the reply of the call at `place`.
    pub fn reply_at(&self, place: usize) -> Reply
        requires { place < length self.now.calls }
        ensures { result ≡ (call_at self.now.calls place).1 }
    {
        self.briefs[place].reply(self.whole.as_slice())
    }

    /// Returns the actor of the call at `place`.
    #[inline]
    pub fn actor_at(&self, place: usize) -> Pid
        requires { place < length self.now.calls }
        ensures { result ≡ actor (call_at self.now.calls place).0 }
    {
        self.briefs[place].actor(self.whole.as_slice())
    }

    /// Returns whether the call at `place` is a reset or a tracer change, which touches a whole
    /// node.
    #[inline]
    pub fn is_wide_at(&self, place: usize) -> bool
        requires { place < length self.now.calls }
        ensures { result ≡ is_wide (call_at self.now.calls place).0 }
    {
        self.briefs[place].is_wide(self.whole.as_slice())
    }

    /// Returns true only if the call at `place` is equal to the call at `there` of `other`. If it
    /// returns false, they may still be equal.
    pub fn is_seen_same(&self, place: usize, other: &CallLog, there: usize) -> bool
        requires here { place < length self.now.calls }
        requires there { there < length other.now.calls }
        ensures { IsTrue result → call_at self.now.calls place ≡ call_at other.now.calls there }
    {
        let theirs = other.briefs[there];
        self.briefs[place].is_seen_same(self.whole.as_slice(), theirs, other.whole.as_slice())
    }

    /// Makes room for one more call, if there is none. Fails if memory runs out, or if there are
    /// 4,294,967,295 calls.
    pub fn reserve(&mut self) -> Result<(), AllocError>
        ensures calls { self.new.calls ≡ self.old.calls }
        ensures spare { self.old.spare ≤ self.new.spare }
        ensures room { OnOk result (0 < self.new.spare) }
        ensures succeeds { 0 < self.old.spare → IsOk result }
    {
        if self.reserved > 0 {
            return Ok(());
        }
        if self.briefs.len() >= MOST_CALLS || self.whole.len() >= MOST_CALLS {
            return Err(AllocError);
        }
        self.briefs.reserve(1)?;
        self.whole.reserve(1)?;
        self.reserved = 1;
        Ok(())
    }

    /// Appends a call into reserved room, and returns its place.
    pub fn push_reserved(&mut self, act: &Act, reply: &Reply) -> u32
        requires { 0 < self.old.spare }
        ensures place { result ≡ length self.old.calls }
        ensures calls { self.new.calls ≡ self.old.calls ++ (act.now, reply.now) ∷ [] }
        ensures spare { self.old.spare ≡ self.new.spare + 1 }
    {
        let place = self.briefs.len() as u32;
        let brief = keep_call(&mut self.whole, act, reply);
        self.briefs.push_reserved(brief);
        self.reserved -= 1;
        place
    }
}

/// Returns a brief form of the call. Only if none says the call itself, appends the call to
/// `whole` and returns its place.
fn keep_call(whole: &mut Vec<(Act, Reply)>, act: &Act, reply: &Reply) -> Brief
    requires room { vec_len whole.old < vec_capacity whole.old }
    requires places { vec_len whole.old < 4294967295 }
    ensures says { call_in whole.new.items result ≡ (act.now, reply.now) }
    ensures placed { IsBriefPlaced (length whole.new.items) result }
    ensures whole { (whole.new.items ≡ whole.old.items)
        ⊎ (whole.new.items ≡ whole.old.items ++ (act.now, reply.now) ∷ []) }
    ensures capacity { vec_capacity whole.new ≡ vec_capacity whole.old }
{
    if let Some(brief) = brief_of(act, reply) {
        return brief;
    }
    let place = whole.len() as u32;
    whole.push_reserved((*act, *reply));
    Brief::Whole(place)
}

/// Returns the brief form that says the call itself, if there is one.
fn brief_of(act: &Act, reply: &Reply) -> Option<Brief>
    ensures { IfSome result (IsBrief act.now reply.now) }
{
    match (*act, *reply) {
        (Act::Send(me, to, value), Reply::Done) => Some(Brief::Send(me, to, value)),
        (Act::Print(me, value), Reply::Done) => Some(Brief::Print(me, value)),
        (Act::Receive(me, want), Reply::Nothing) => Some(Brief::Nothing(me, want)),
        (Act::Receive(me, want), Reply::Mail(from, value)) => brief_receive(me, want, from, value),
        _ => None,
    }
}

/// Returns the brief form of a receive that took a message with `value` from `from`, if there is
/// one.
fn brief_receive(me: Pid, want: Want, from: Pid, value: u64) -> Option<Brief>
    ensures { IfSome result (IsBrief (Act.Receive me want) (Reply.Mail from value)) }
{
    match want {
        Want::First => Some(Brief::First(me, from, value)),
        Want::From(sender) if sender == from => Some(Brief::From(me, from, value)),
        Want::Value(asked) if asked == value => Some(Brief::Value(me, from, value)),
        Want::Both(sender, asked) if sender == from && asked == value => {
            Some(Brief::Both(me, from, value))
        }
        Want::Place(place) if place <= MOST_PLACE => {
            Some(Brief::Place(me, place as u32, from, value))
        }
        _ => None,
    }
}

impl Brief {
    /// Returns the call, given the list of whole calls.
    fn call(self, whole: &[(Act, Reply)]) -> (Act, Reply)
        requires { IsBriefPlaced (length whole.now) self }
        ensures { result ≡ call_in whole.now self }
    {
        (self.act(whole), self.reply(whole))
    }

    /// Returns the call's act, given the list of whole calls.
    fn act(self, whole: &[(Act, Reply)]) -> Act
        requires { IsBriefPlaced (length whole.now) self }
        ensures { result ≡ (call_in whole.now self).0 }
    {
        match self {
            Brief::Send(me, to, value) => Act::Send(me, to, value),
            Brief::Print(me, value) => Act::Print(me, value),
            Brief::Nothing(me, want) => Act::Receive(me, want),
            Brief::First(me, ..) => Act::Receive(me, Want::First),
            Brief::From(me, from, _) => Act::Receive(me, Want::From(from)),
            Brief::Value(me, _, value) => Act::Receive(me, Want::Value(value)),
            Brief::Both(me, from, value) => Act::Receive(me, Want::Both(from, value)),
            Brief::Place(me, place, ..) => Act::Receive(me, Want::Place(u64::from(place))),
            Brief::Whole(place) => whole[place as usize].0,
        }
    }

    /// Returns the call's reply, given the list of whole calls.
    fn reply(self, whole: &[(Act, Reply)]) -> Reply
        requires { IsBriefPlaced (length whole.now) self }
        ensures { result ≡ (call_in whole.now self).1 }
    {
        match self {
            Brief::Send(..) | Brief::Print(..) => Reply::Done,
            Brief::Nothing(..) => Reply::Nothing,
            Brief::First(_, from, value)
            | Brief::From(_, from, value)
            | Brief::Value(_, from, value)
            | Brief::Both(_, from, value)
            | Brief::Place(_, _, from, value) => Reply::Mail(from, value),
            Brief::Whole(place) => whole[place as usize].1,
        }
    }

    /// Returns the call's actor, given the list of whole calls. Each form but `Whole` begins with
    /// it.
    #[inline]
    fn actor(self, whole: &[(Act, Reply)]) -> Pid
        requires { IsBriefPlaced (length whole.now) self }
        ensures { result ≡ actor (call_in whole.now self).0 }
    {
        match self {
            Brief::Send(me, ..)
            | Brief::Print(me, _)
            | Brief::Nothing(me, _)
            | Brief::First(me, ..)
            | Brief::From(me, ..)
            | Brief::Value(me, ..)
            | Brief::Both(me, ..)
            | Brief::Place(me, ..) => me,
            Brief::Whole(place) => whole[place as usize].0.actor(),
        }
    }

    /// Returns whether the call's act touches a whole node; only the form `Whole` can say one that
    /// does.
    #[inline]
    fn is_wide(self, whole: &[(Act, Reply)]) -> bool
        requires { IsBriefPlaced (length whole.now) self }
        ensures { result ≡ is_wide (call_in whole.now self).0 }
    {
        match self {
            Brief::Whole(place) => is_wide(&whole[place as usize].0),
            _ => false,
        }
    }

    /// Returns true only if both brief forms stand for equal calls, given the list of whole calls
    /// of each.
    fn is_seen_same(self, whole: &[(Act, Reply)], other: Brief, others: &[(Act, Reply)]) -> bool
        requires placed { IsBriefPlaced (length whole.now) self }
        requires other { IsBriefPlaced (length others.now) other }
        ensures { IsTrue result → call_in whole.now self ≡ call_in others.now other }
    {
        match self {
            Brief::Whole(place) => {
                let (act, reply) = other.call(others);
                is_call(&whole[place as usize], &act, &reply)
            }
            _ => self == other,
        }
    }
}
