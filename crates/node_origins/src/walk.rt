//! The walk over the events of a process.

ghost use Rattle.std.specs.Prelude.{◌≡◌, ◌≢◌, ◌<◌, ◌≤◌, ◌^◌, ◌↔◌, false, true, ℕ};
ghost use Rattle.std.specs.Prelude.{length, slice_get, take, List, Some, IfOk, IsTrue};
ghost use Rattle.st_core.specs.Step.{Outcome};
ghost use Rattle.st_core.specs.declared.types.Pid.{Pid as PidValue};
ghost use Rattle.node_machine.specs.Node.{NodeAct};
ghost use Rattle.node_machine.specs.Origins.{Can, TokenOrigin, origins_told};
ghost use Rattle.node_machine.specs.Readings.{is_receipt};
ghost use Rattle.node_machine.specs.declared.types.Seen.{Seen as SeenValue};
ghost use Rattle.node_given.specs.Walk.{AreFit, IsWay};
ghost use Rattle.node_given.specs.declared.way.Way.{Way as WayValue};
ghost use Rattle.node_origins.specs.declared.origin.EventOrigins.{EventOrigins as Entry};
ghost use Rattle.node_origins.specs.declared.origin.EventOrigins.TheVariants as allowed;
ghost use Rattle.node_origins.specs.declared.origin.StampOrigin.{StampOrigin as StampOriginValue};
ghost use Rattle.node_origins.specs.Runs.{HaveOrigins};
ghost use Rattle.node_origins.specs.Sources.{Brings, FromReceive, FromRequest, FollowsAnswer};
ghost use Rattle.node_origins.specs.Sources.{LeavesReceive};
ghost use Rattle.node_origins.specs.Summary.{HasBothOrigins, HasNoOrigin, HasOneOrigin, IsEntry};
ghost use Rattle.node_origins.specs.Summary.{IsSummary, origin_of};
ghost use Rattle.node_origins.specs.Tables.{AreFirstEvents, AreSuccessors};

use crate::counts::{clock_of_answer, count_after, last_of_answer};
use crate::home::Firsts;
use crate::origin::{EventOrigins, StampOrigin};
use crate::successors::Successors;
use node_given::{Way, given};
use node_machine::Seen;
use st_core::Kind;
use std::alloc::{AllocError, Global};

/// Returns whether the receive right before a stamp, whose count is the stamp's prev, can have
/// brought its token.
fn leaves_receive(way: Way, stamp: Seen) -> bool
    ensures { IsTrue result ↔ LeavesReceive way stamp }
{
    match way {
        Way::Plain | Way::Lowered(_) => true,
        Way::PutBack(_) => stamp.serial.this == 0 || stamp.serial.prev < stamp.serial.this,
        Way::Receive | Way::Ungiven => false,
    }
}

/// Returns whether the event right before a stamp can have brought its token.
fn brings(event: Seen, stamp: Seen, way: Way) -> bool
    ensures { IsTrue result ↔ Brings event stamp way }
{
    event.kind == Kind::Receive
        && !event.answer
        && event.label == stamp.label
        && event.serial.this == stamp.serial.prev
        && leaves_receive(way, stamp)
}

/// Returns the receive right before the stamp at an index, if it can have brought its token.
fn receive_before(events: &[Seen], index: usize, stamp: Seen, way: Way) -> EventOrigins
    requires fit { AreFit events.now }
    requires at { slice_get events.now index ≡ Some stamp }
    requires stamps { is_receipt stamp ≡ false }
    requires given { IsWay (take index events.now) stamp way }
    ensures { IsSummary (FromReceive events.now index) result }
{
    if index == 0 {
        return EventOrigins::Unknown;
    }
    if brings(events[index - 1], stamp, way) {
        EventOrigins::One(StampOrigin::Follows(index - 1))
    } else {
        EventOrigins::Unknown
    }
}

/// Returns whether a stamp goes on from the answer to the request, right before it.
fn goes_on_from(request: Seen, answer: Seen, stamp: Seen) -> bool
    requires { answer.serial.this < 2 ^ 60 }
    ensures { IsTrue result ↔ FollowsAnswer request answer stamp }
{
    request.kind != Kind::Receive
        && request.label == stamp.label
        && answer.answer
        && stamp.serial.prev == last_of_answer(answer.serial.this)
        && stamp.serial.this == count_after(clock_of_answer(answer.serial.this))
}

/// Returns the origins of the request whose answer is right before the stamp at an index, if the
/// stamp goes on from the answer.
fn request_before(
    events: &[Seen],
    found: &[EventOrigins],
    index: usize,
    stamp: Seen,
) -> EventOrigins
    requires fit { AreFit events.now }
    requires at { slice_get events.now index ≡ Some stamp }
    requires all { index ≤ length found.now }
    requires entries { (k : ℕ) (e : SeenValue) (o : Entry)
        → slice_get events.now k ≡ Some e → slice_get found.now k ≡ Some o
        → IsEntry events.now k e o }
    ensures { IsSummary (FromRequest events.now index) result }
{
    if index < 2 {
        return EventOrigins::Unknown;
    }
    if goes_on_from(events[index - 2], events[index - 1], stamp) {
        found[index - 2]
    } else {
        EventOrigins::Unknown
    }
}

fn stamp_origins(
    events: &[Seen],
    found: &[EventOrigins],
    firsts: &Firsts,
    successors: &Successors,
    index: usize,
    stamp: Seen,
    way: Way,
) -> EventOrigins
    requires fit { AreFit events.now }
    requires at { slice_get events.now index ≡ Some stamp }
    requires stamps { is_receipt stamp ≡ false }
    requires given { IsWay (take index events.now) stamp way }
    requires all { index ≤ length found.now }
    requires entries { (k : ℕ) (e : SeenValue) (o : Entry)
        → slice_get events.now k ≡ Some e → slice_get found.now k ≡ Some o
        → IsEntry events.now k e o }
    requires firsts { AreFirstEvents events.now firsts.now }
    requires successors { AreSuccessors events.now index successors.now }
    ensures { IsSummary (Can events.now index) result }
{
    let succeeded = successors.origins_of(stamp);
    let received = receive_before(events, index, stamp, way);
    let requested = request_before(events, found, index, stamp);
    let home = firsts.home(index, stamp);
    let tokens = succeeded.or(received);
    let others = requested.or(home);
    tokens.or(others)
}

fn event_origins(
    events: &[Seen],
    found: &[EventOrigins],
    firsts: &Firsts,
    successors: &Successors,
    index: usize,
    event: Seen,
    way: Way,
) -> EventOrigins
    requires fit { AreFit events.now }
    requires at { slice_get events.now index ≡ Some event }
    requires given { IsWay (take index events.now) event way }
    requires all { index ≤ length found.now }
    requires entries { (k : ℕ) (e : SeenValue) (o : Entry)
        → slice_get events.now k ≡ Some e → slice_get found.now k ≡ Some o
        → IsEntry events.now k e o }
    requires firsts { AreFirstEvents events.now firsts.now }
    requires successors { AreSuccessors events.now index successors.now }
    ensures { IsEntry events.now index event result }
{
    match event.kind {
        Kind::Receive => EventOrigins::Receive,
        Kind::Send | Kind::Print => {
            stamp_origins(events, found, firsts, successors, index, event, way)
        }
    }
}

/// Finds which origins the events of one process, in order, allow for the token of each of its
/// stamps, if it ran on a standard node. Each count of a serial is the number from 0 to 2^60 - 1
/// with its bits.
///
/// In each run in which the process has these events, reports each stamp and each receive of a
/// token, gets each answer right after its request, and puts back only tokens and gives only
/// labels of its own, a stamp with one allowed origin has that origin. If a stamp has none, there
/// is no such run.
///
/// It fails only if memory runs out.
pub fn origins(alloc: Global, events: &[Seen]) -> Result<Vec<EventOrigins>, AllocError>
    requires { AreFit events.now }
    ensures each { IfOk result (λ v. length v.items ≡ length events.now) }
    ensures receives { IfOk result (λ v. (i : ℕ) (e : SeenValue) → slice_get events.now i ≡ Some e
        → (slice_get v.items i ≡ Some allowed.Receive) ↔ (is_receipt e ≡ true)) }
    ensures unknown { IfOk result (λ v. (i : ℕ) (e : SeenValue) → slice_get events.now i ≡ Some e
        → is_receipt e ≡ false
        → (slice_get v.items i ≡ Some allowed.Unknown) ↔ HasNoOrigin (Can events.now i)) }
    ensures one { IfOk result (λ v. (i : ℕ) (e : SeenValue) → slice_get events.now i ≡ Some e
        → is_receipt e ≡ false → (h : StampOriginValue)
        → (slice_get v.items i ≡ Some (allowed.One h)) ↔ HasOneOrigin (Can events.now i) h) }
    ensures several { IfOk result (λ v. (i : ℕ) (a b : StampOriginValue)
        → slice_get v.items i ≡ Some (allowed.Several a b)
        → HasBothOrigins (Can events.now i) a b) }
    ensures certain { IfOk result (λ v. (p : PidValue) (pids : List PidValue) (acts : List NodeAct)
        (os : List Outcome) (hs : List TokenOrigin) → HaveOrigins p events.now pids acts os hs
        → (i : ℕ) (h : StampOriginValue) → slice_get v.items i ≡ Some (allowed.One h)
        → slice_get (origins_told acts os hs p) i ≡ Some (origin_of h)) }
    ensures impossible { IfOk result (λ v. (i : ℕ) → slice_get v.items i ≡ Some allowed.Unknown
        → (p : PidValue) (pids : List PidValue) (acts : List NodeAct) (os : List Outcome)
        (hs : List TokenOrigin) → ¬ (HaveOrigins p events.now pids acts os hs)) }
{
    let ways = given(alloc, events)?;
    let firsts = Firsts::of(alloc, events)?;
    let mut successors = Successors::new(alloc);
    let mut found = Vec::with_capacity(alloc, events.len())?;
    for (index, &event) in events.iter().enumerate() {
        let way = ways[index];
        let origins = event_origins(events, &found, &firsts, &successors, index, event, way);
        successors.note(index, event, origins)?;
        found.push(origins)?;
    }
    Ok(found)
}
