//! The receives of a process's messages, and the order of reasons with their places.

ghost use Rattle.std.specs.Prelude.{◌≡◌, ◌↔◌, ◌⊎◌, ◌++◌, ◌∷◌, [], IsTrue, List, Option};
ghost use Rattle.st_pair.specs.Laws.{IsEarlier};
ghost use Rattle.lack_decide.specs.Answers.{reason_rank};
ghost use Rattle.lack_pieces.specs.declared.placed_reason.PlacedReason.{PlacedReason as Reason};
ghost use Rattle.lack_pieces.specs.Verdicts.{ComesBefore, IsFirstAmong};

use lack_decide::Never;
use st_core::{Event, Pid};

/// The receive of a message, and its place.
#[derive(Clone, Copy, Debug, PartialEq, Eq)]
pub struct Receipt {
    /// The process that received the message.
    pub pid: Pid,
    /// The index of the receive among the events of that process.
    pub index: u64,
    /// The receive itself.
    pub event: Event,
}

/// A reason, and the place of the event that it is against.
#[derive(Clone, Copy, Debug, PartialEq, Eq)]
pub struct PlacedReason {
    /// The process of the event.
    pub pid: Pid,
    /// The index of the event in its process's stream.
    pub index: u64,
    /// The reason.
    pub never: Never,
}

/// Returns the rank of a reason, in the order in which `complete` tries them.
fn reason_rank(never: Never) -> u8
    ensures { result ≡ reason_rank never }
{
    match never {
        Never::PrevNotBefore => 0,
        Never::NotRising(_) => 1,
        Never::Repeated(..) => 2,
        Never::Mismatch(..) => 3,
        Never::Late(_) => 4,
        Never::Unfounded => 5,
        Never::TooHigh => 6,
    }
}

pub(crate) fn is_earlier(first: (Pid, u64), second: (Pid, u64)) -> bool
    ensures { IsTrue result ↔ IsEarlier first.0 first.1 second.0 second.1 }
{
    if first.0 == second.0 {
        first.1 < second.1
    } else {
        first.0 < second.0
    }
}

/// Returns whether the first reason is of an earlier kind than the second, or of the same kind and
/// at an earlier place.
fn comes_before(first: PlacedReason, second: PlacedReason) -> bool
    ensures { IsTrue result ↔ ComesBefore first second }
{
    let rank = reason_rank(first.never);
    let other = reason_rank(second.never);
    if rank == other {
        is_earlier((first.pid, first.index), (second.pid, second.index))
    } else {
        rank < other
    }
}

impl Receipt {
    pub(crate) fn reason(self, never: Never) -> PlacedReason
        ensures { result ≡ record { pid = self.pid; index = self.index; never = never } }
    {
        let Receipt { pid, index, .. } = self;
        PlacedReason { pid, index, never }
    }
}

/// Returns the reason that comes first.
pub(crate) fn earlier_of(first: PlacedReason, second: PlacedReason) -> PlacedReason
    ensures { ((result ≡ first) × ¬ ComesBefore second first)
        ⊎ ((result ≡ second) × ComesBefore second first) }
{
    if comes_before(second, first) {
        second
    } else {
        first
    }
}

/// Returns the verdict on the pieces so far and one more, from the verdict on those before and the
/// verdict on that one. The order of the pieces doesn't matter.
pub fn first_of(before: Option<PlacedReason>, next: Option<PlacedReason>) -> Option<PlacedReason>
    ensures { (verdicts : List (Option Reason)) → IsFirstAmong verdicts before
        → IsFirstAmong (verdicts ++ next ∷ []) result }
{
    match (before, next) {
        (None, next) => next,
        (Some(before), None) => Some(before),
        (Some(before), Some(next)) => Some(earlier_of(before, next)),
    }
}
