//! The rows of a log. They are small, since a reset or a tracer change adds a row to the log of
//! each process of its node. Its row says the whole entry. Any other row says the rank and the
//! place of the rest: among the calls if the act wasn't reported and carried no token; else mostly
//! among the short forms of acts under a token (`traced`).

ghost use Rattle.std.specs.Prelude.{◌≡◌, length, IfSome};
ghost use Rattle.st_core.specs.Step.{actor};
ghost use Rattle.st_log.specs.Entries.{is_wide};
ghost use Rattle.st_log.specs.Rows.{of_call, without_rank_in, IsAll, HasPlace};
ghost use Rattle.st_log.specs.TracedActs.{with_rank, without_rank};

use crate::calls::CallLog;
use crate::entry::Entry;
use crate::traced_act::TracedAct;
use crate::wide::is_wide;
use st_core::{Act, Event, Pid, Reply, Token};

/// The rank of an entry, and the rest of the entry or its place.
#[derive(Clone, Copy)]
pub struct LogRow {
    /// The entry's rank.
    pub rank: u64,
    /// The rest of the entry, or the place of the rest.
    pub content: Content,
}

// Keeps rows small: a reset or a tracer change adds one to the log of each process of its node.
const _: () = prove!(size_of::<LogRow>() == 16);

/// An entry without its rank: the entry itself if it is of a reset or a tracer change, else its
/// place.
#[derive(Clone, Copy)]
pub enum Content {
    /// A reset by the process, which returned `Done`.
    Reset(Pid),
    /// A tracer change: its actor, whether there is a tracer afterwards, and whether there was one
    /// before.
    Tracer(Pid, bool, bool),
    /// The place of a call that wasn't reported and carried no token.
    Call(u32),
    /// The place of an act under a token.
    Traced(u32),
    /// The place of an entry that is kept apart.
    Apart(u32),
}

/// An entry without its rank.
#[derive(Clone, Copy)]
pub struct Unranked {
    /// The act.
    pub act: Act,
    /// The reply to the actor.
    pub reply: Reply,
    /// The event that the actor reported, if it did.
    pub report: Option<Event>,
    /// The token that a send's message carried, if it had one.
    pub carried: Option<Token>,
}

/// Makes the content that says the whole entry but its rank, if there is one: for a reset or a
/// tracer change.
pub fn content_of(entry: &Entry) -> Option<Content>
    ensures { IfSome result (IsAll entry.now) }
{
    match (entry.act, entry.reply, entry.report, entry.carried) {
        (Act::Reset(actor), Reply::Done, None, None) => Some(Content::Reset(actor)),
        (Act::Tracer(actor, on), Reply::Was(was), None, None) => {
            Some(Content::Tracer(actor, on, was))
        }
        _ => None,
    }
}

impl Content {
    /// Returns the entry without its rank, given the lists that places refer to.
    pub fn without_rank(self, calls: &CallLog, traced: &[TracedAct], apart: &[Unranked]) -> Unranked
        requires { HasPlace (length calls.now.calls) (length traced.now) (length apart.now) self }
        ensures { result ≡ without_rank_in calls.now.calls traced.now apart.now self }
    {
        match self {
            Content::Reset(actor) => Unranked::of_call((Act::Reset(actor), Reply::Done)),
            Content::Tracer(actor, on, was) => {
                Unranked::of_call((Act::Tracer(actor, on), Reply::Was(was)))
            }
            Content::Call(place) => Unranked::of_call(calls.at(place as usize)),
            Content::Traced(place) => traced[place as usize].without_rank(),
            Content::Apart(place) => apart[place as usize],
        }
    }

    /// Returns the entry's act, given the lists that places refer to.
    pub fn act(self, calls: &CallLog, traced: &[TracedAct], apart: &[Unranked]) -> Act
        requires { HasPlace (length calls.now.calls) (length traced.now) (length apart.now) self }
        ensures { result ≡ (without_rank_in calls.now.calls traced.now apart.now self).act }
    {
        match self {
            Content::Reset(actor) => Act::Reset(actor),
            Content::Tracer(actor, on, _) => Act::Tracer(actor, on),
            Content::Call(place) => calls.act_at(place as usize),
            Content::Traced(place) => traced[place as usize].act(),
            Content::Apart(place) => apart[place as usize].act,
        }
    }

    /// Returns the entry's actor, given the lists that places refer to.
    #[inline(always)]
    pub fn actor(self, calls: &CallLog, traced: &[TracedAct], apart: &[Unranked]) -> Pid
        requires { HasPlace (length calls.now.calls) (length traced.now) (length apart.now) self }
        ensures { result ≡ actor (without_rank_in calls.now.calls traced.now apart.now self).act }
    {
        match self {
            Content::Reset(actor) | Content::Tracer(actor, ..) => actor,
            Content::Call(place) => calls.actor_at(place as usize),
            Content::Traced(place) => traced[place as usize].actor(),
            Content::Apart(place) => apart[place as usize].act.actor(),
        }
    }

    /// Returns whether the entry's act touches a whole node, given the lists that places refer to.
    #[inline(always)]
    pub fn is_wide(self, calls: &CallLog, traced: &[TracedAct], apart: &[Unranked]) -> bool
        requires { HasPlace (length calls.now.calls) (length traced.now) (length apart.now) self }
        ensures { result ≡ is_wide (without_rank_in calls.now.calls traced.now apart.now self).act }
    {
        match self {
            Content::Reset(_) | Content::Tracer(..) => true,
            Content::Call(place) => calls.is_wide_at(place as usize),
            Content::Traced(_) => false,
            Content::Apart(place) => is_wide(&apart[place as usize].act),
        }
    }

    /// Returns the entry's reply, given the lists that places refer to.
    pub fn reply(self, calls: &CallLog, traced: &[TracedAct], apart: &[Unranked]) -> Reply
        requires { HasPlace (length calls.now.calls) (length traced.now) (length apart.now) self }
        ensures { result ≡ (without_rank_in calls.now.calls traced.now apart.now self).reply }
    {
        match self {
            Content::Reset(_) => Reply::Done,
            Content::Tracer(_, _, was) => Reply::Was(was),
            Content::Call(place) => calls.reply_at(place as usize),
            Content::Traced(place) => traced[place as usize].reply(),
            Content::Apart(place) => apart[place as usize].reply,
        }
    }

    /// Returns the event that the entry reported, if it did. No act in `calls` was reported.
    pub fn report(self, calls: &CallLog, traced: &[TracedAct], apart: &[Unranked]) -> Option<Event>
        requires { HasPlace (length calls.now.calls) (length traced.now) (length apart.now) self }
        ensures { result ≡ (without_rank_in calls.now.calls traced.now apart.now self).report }
    {
        match self {
            Content::Reset(_) | Content::Tracer(..) | Content::Call(_) => None,
            Content::Traced(place) => traced[place as usize].report(),
            Content::Apart(place) => apart[place as usize].report,
        }
    }
}

impl Unranked {
    /// Makes the entry, without a rank, of a call that wasn't reported and carried no token.
    fn of_call(call: (Act, Reply)) -> Unranked
        ensures { result ≡ of_call call }
    {
        Unranked {
            act: call.0,
            reply: call.1,
            report: None,
            carried: None,
        }
    }

    /// Takes the rank off an entry.
    pub fn of(entry: &Entry) -> Unranked
        ensures { result ≡ without_rank entry.now }
    {
        Unranked {
            act: entry.act,
            reply: entry.reply,
            report: entry.report,
            carried: entry.carried,
        }
    }

    /// Makes the entry with `rank`.
    pub fn with_rank(self, rank: u64) -> Entry
        ensures { result ≡ with_rank rank self }
    {
        Entry {
            rank,
            act: self.act,
            reply: self.reply,
            report: self.report,
            carried: self.carried,
        }
    }
}
