//! Decides what streams lack: tries the reasons one after the other, each at its least place, and
//! builds a completion if none holds.

ghost use Rattle.std.specs.Prelude.{◌≡◌, ◌≤◌, length, IfErr, IfNone, IfOk, IfSome, None};
ghost use Rattle.st_pair.specs.Links.{IsPairing};
ghost use Rattle.st_pair.specs.Pairing.{refusal, IsPairFault};
ghost use Rattle.lack_laws.specs.Needs.{is_late};
ghost use Rattle.lack_laws.specs.Reasons.{HoldsAt};
ghost use Rattle.lack_laws.specs.OpenReasons.{HasNoOpenReason, IsLeastPlace};
ghost use Rattle.lack_decide.specs.Answers.{IsAnswer, IsFaultOf};
ghost use Rattle.lack_decide.specs.Found.{IsFound};
ghost use Rattle.lack_decide.specs.Higher.{LastHigher};

use crate::answer::{Answer, CompleteFault, Never};
use crate::judge::judge;
use lack_laws::closed_world::{needless_streams_are_shown, shown_exactly_where_nothing_is_needed};
use lack_laws::open_world::{open_reasons_are_final, shown_with_others_only_without_a_reason};
use lack_needs::{Flaw, find_flaw, find_unfounded};
use lack_search::build_candidate;
use st_core::{Event, Pid, Streams};
use st_pair::{PairFault, Pairing, pair};
use std::alloc::{AllocError, Global};

/// Returns the answer for streams that pairing refuses; fails only if memory ran out.
fn answer_of_refused<const TOP: u64>(
    streams: &Streams,
    fault: PairFault,
) -> Result<Answer, CompleteFault>
    requires { IsPairFault streams.now fault }
    ensures found { IfOk result (IsFound TOP streams.now) }
    ensures fault { IfErr result (IsFaultOf TOP streams.now) }
    ensures memory { IfErr result (λ error. fault ≡ PairFault.Memory) }
{
    let _streams = streams;
    let (pid, index, never) = match fault {
        PairFault::Memory => return Err(CompleteFault::Memory),
        PairFault::PrevNotBefore(pid, index) => (pid, index, Never::PrevNotBefore),
        PairFault::NotRising(pid, index, other) => (pid, index, Never::NotRising(other)),
        PairFault::Repeated(pid, index, first, at) => (pid, index, Never::Repeated(first, at)),
        PairFault::Mismatch(pid, index, sender, at) => (pid, index, Never::Mismatch(sender, at)),
    };
    Ok(Answer::Never(pid, index, never))
}

/// Returns the index of the last event before `index` whose count isn't below `this`.
fn last_higher(events: &[Event], index: usize, this: u64) -> Option<usize>
    requires { index ≤ length events.now }
    ensures { LastHigher events.now this index result }
{
    let mut last = None;
    for i in 0..index {
        if events[i].serial.this >= this {
            last = Some(i);
        }
    }
    last
}

/// Returns `Late` for the first late event.
fn late_answer<const TOP: u64>(streams: &Streams, pid: Pid, index: u64) -> Answer
    requires accepted { refusal streams.now ≡ None }
    requires late { IsLeastPlace (HoldsAt is_late streams.now) pid index }
    ensures { IsFound TOP streams.now result }
{
    let events = streams.events(pid);
    let Some(event) = streams.event(pid, index) else {
        unreachable!()
    };
    let Some(higher) = last_higher(events, index as usize, event.serial.this) else {
        unreachable!()
    };
    Answer::Never(pid, index, Never::Late(higher as u64))
}

/// Returns the answer for streams that pairing accepts, if a reason holds of them.
fn find_reason<const TOP: u64>(
    alloc: Global,
    streams: &Streams,
    pairing: &Pairing,
) -> Result<Option<Answer>, AllocError>
    requires accepted { refusal streams.now ≡ None }
    requires paired { IsPairing streams.now pairing.now }
    ensures some { IfOk result (λ found. IfSome found (IsFound TOP streams.now)) }
    ensures none { IfOk result (λ found. IfNone found (HasNoOpenReason TOP streams.now)) }
{
    if let Some((pid, index)) = find_flaw(streams, Flaw::Late) {
        return Ok(Some(late_answer::<TOP>(streams, pid, index)));
    }
    if let Some((pid, index)) = find_unfounded(alloc, streams, pairing)? {
        return Ok(Some(Answer::Never(pid, index, Never::Unfounded)));
    }
    if let Some((pid, index)) = find_flaw(streams, Flaw::TooHigh(TOP)) {
        return Ok(Some(Answer::Never(pid, index, Never::TooHigh)));
    }
    Ok(None)
}

/// Returns the completion that is built of streams of which no reason holds; fails if the judge
/// refuses it.
fn whole_answer<const TOP: u64>(
    alloc: Global,
    streams: &Streams,
    pairing: &Pairing,
) -> Result<Answer, CompleteFault>
    requires { HasNoOpenReason TOP streams.now }
    ensures found { IfOk result (IsFound TOP streams.now) }
    ensures fault { IfErr result (IsFaultOf TOP streams.now) }
{
    match build_candidate(alloc, streams, pairing) {
        Err(_) => Err(CompleteFault::Memory),
        Ok(None) => Err(CompleteFault::Uncompleted),
        Ok(Some(candidate)) => match judge::<TOP>(alloc, streams, candidate) {
            Err(_) => Err(CompleteFault::Memory),
            Ok(None) => Err(CompleteFault::Uncompleted),
            Ok(Some(completion)) => Ok(Answer::Whole(completion)),
        },
    }
}

/// Returns the answer for streams that pairing accepts.
fn answer_of_paired<const TOP: u64>(
    alloc: Global,
    streams: &Streams,
    pairing: &Pairing,
) -> Result<Answer, CompleteFault>
    requires accepted { refusal streams.now ≡ None }
    requires paired { IsPairing streams.now pairing.now }
    ensures found { IfOk result (IsFound TOP streams.now) }
    ensures fault { IfErr result (IsFaultOf TOP streams.now) }
{
    match find_reason::<TOP>(alloc, streams, pairing) {
        Err(_) => Err(CompleteFault::Memory),
        Ok(Some(answer)) => Ok(answer),
        Ok(None) => whole_answer::<TOP>(alloc, streams, pairing),
    }
}

fn answer_of<const TOP: u64>(alloc: Global, streams: &Streams) -> Result<Answer, CompleteFault>
    ensures found { IfOk result (IsFound TOP streams.now) }
    ensures fault { IfErr result (IsFaultOf TOP streams.now) }
{
    match pair(alloc, streams) {
        Err(fault) => answer_of_refused::<TOP>(streams, fault),
        Ok(pairing) => answer_of_paired::<TOP>(alloc, streams, &pairing),
    }
}

/// Decides whether acts without a reset show the streams together with any processes that report
/// nothing. If so, it returns a completion, with the unlisted processes that it needs; if not, the
/// least place of the first reason that holds. The same streams always get the same result, which
/// is tested and not proved. The time is nearly linear in the events.
///
/// The completion follows the rules of `docs/COMPLETIONS.md`: hidden sends go after the receives
/// that may have caused them, messages that were sent and never received are given to stamps that
/// need them, and others are invented only if a need is left.
pub fn complete<const TOP: u64>(alloc: Global, streams: &Streams) -> Result<Answer, CompleteFault>
    ensures answer { IfOk result (IsAnswer TOP streams.now) }
    ensures fault { IfErr result (IsFaultOf TOP streams.now) }
{
    needless_streams_are_shown();
    shown_exactly_where_nothing_is_needed();
    open_reasons_are_final();
    shown_with_others_only_without_a_reason();
    let _pids = streams.pids();
    match answer_of::<TOP>(alloc, streams) {
        Err(fault) => Err(fault),
        Ok(answer) => Ok(answer),
    }
}
