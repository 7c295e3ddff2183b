//! A bundle: collected streams, and the acts that are said to have made them, or none.

ghost use Rattle.std.specs.Prelude.{◌≡◌, IsTrue, IfOk, IfErr, OnOk, Some, None, false, not};
ghost use Rattle.std.specs.Prelude.{position};
ghost use Rattle.std.specs.List.{list_all};
ghost use Rattle.st_core.specs.Run.{pids_of};
ghost use Rattle.st_core.specs.Step.{receiver};
ghost use Rattle.st_core.specs.Streams.{is_among};
ghost use Rattle.st_text.specs.Text.{is_listed, acts_or_none, unlisted_act};

use st_core::{Act, Pid, Sequence, Streams};

/// Streams, and acts if there are any. The streams list the actor of each act and the receiver of
/// each send.
#[derive(Debug, Drop)]
pub struct Bundle {
    pub streams: Streams,
    pub acts: Option<Sequence<Act>>,
    ghost listed: { IsTrue (list_all (is_listed (pids_of streams)) (acts_or_none acts)) },
}

/// The streams and acts of which `Bundle::new` made no bundle. An act with an unlisted pid is its
/// only reason to fail.
#[derive(Debug, Drop)]
pub struct UnknownAct {
    /// The number of the first act, counted from 0, whose actor or receiver isn't listed.
    pub n: u64,
    pub streams: Streams,
    pub acts: Option<Sequence<Act>>,
}

fn is_among(streams: &Streams, pid: Pid) -> bool
    ensures { result ≡ is_among (pids_of streams.now) pid }
{
    match streams.place_of(pid) {
        None => false,
        Some(_) => true,
    }
}

/// Returns the receiver of a send, and the actor of any other act.
fn receiver(act: &Act) -> Pid
    ensures { result ≡ receiver act.now }
{
    match act {
        Act::Send(_, receiver, _) => *receiver,
        _ => act.actor(),
    }
}

/// Returns whether the streams list the act's actor and, if it is a send, its receiver.
fn is_listed(streams: &Streams, act: &Act) -> bool
    ensures { result ≡ is_listed (pids_of streams.now) act.now }
{
    is_among(streams, act.actor()) && is_among(streams, receiver(act))
}

fn first_unlisted(streams: &Streams, acts: &[Act]) -> Option<usize>
    ensures { result ≡ position (λ a. not (is_listed (pids_of streams.now) a)) acts.now }
{
    acts.iter().position(
        |act: &Act| -> bool
            ensures { result ≡ not (is_listed (pids_of streams.entry.now) act.now) }
        { !is_listed(streams, act) },
    )
}

/// Finds the first act with an unlisted pid, if there are acts.
fn unlisted_act(streams: &Streams, acts: &Option<Sequence<Act>>) -> Option<usize>
    ensures { result ≡ unlisted_act streams.now acts.now }
{
    match acts {
        None => None,
        Some(acts) => first_unlisted(streams, acts.as_slice()),
    }
}

impl Bundle {
    /// Makes a bundle, or returns its parts if the actor or the receiver of an act isn't listed.
    /// Takes no memory.
    pub fn new(streams: Streams, acts: Option<Sequence<Act>>) -> Result<Bundle, UnknownAct>
        ensures parts { IfOk result (λ b. (b.streams ≡ streams) × (b.acts ≡ acts)) }
        ensures listed { OnOk result (unlisted_act streams acts ≡ None) }
        ensures back { IfErr result (λ e. (e.streams ≡ streams) × (e.acts ≡ acts)) }
        ensures first { IfErr result (λ e. unlisted_act streams acts ≡ Some e.n) }
    {
        match unlisted_act(&streams, &acts) {
            None => Ok(Bundle { streams, acts }),
            Some(n) => Err(UnknownAct {
                n: n as u64,
                streams,
                acts,
            }),
        }
    }
}
