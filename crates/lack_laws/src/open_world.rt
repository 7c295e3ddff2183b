//! Laws on runs in which further processes, which the streams don't list, report nothing. Each law
//! is the contract of a function that does nothing.

ghost use Rattle.std.specs.Prelude.{◌≡◌, ◌↔◌, ◌||◌, ℕ, List};
ghost use Rattle.st_core.specs.declared.types.Act.{Act};
ghost use Rattle.st_core.specs.declared.types.Pid.{Pid};
ghost use Rattle.st_core.specs.Laws.{NoReset};
ghost use Rattle.st_core.specs.Run.{Shows, Stream};
ghost use Rattle.st_core.specs.Streams.{events_of, is_among, IsStreams, lists};
ghost use Rattle.lack_laws.specs.Completed.{IsShownInOneTrace};
ghost use Rattle.lack_laws.specs.OpenReasons.{HasNoOpenReason, OpenReason, StandsAgainstOpen};
ghost use Rattle.lack_laws.specs.Silent.{IsShownWithOthers, with_silent};

/// Streams stay streams with processes that report nothing: each process keeps its events, and the
/// added processes are listed too.
pub fn with_silent_processes_streams_are_streams()
    ensures { (streams : List Stream) (others : List Pid) → IsStreams streams
        → IsStreams (with_silent streams others)
        × ((p : Pid) → events_of (with_silent streams others) p ≡ events_of streams p)
        × ((p : Pid) → lists (with_silent streams others) p
        ≡ (lists streams p || is_among others p)) }
{}

/// No reason holds of the streams if acts without a reset show them with some processes that
/// report nothing.
pub fn shown_with_others_only_without_a_reason()
    ensures { (top : ℕ) (streams : List Stream) → IsStreams streams → (others : List Pid)
        → IsShownInOneTrace top (with_silent streams others) → HasNoOpenReason top streams }
{}

/// Acts without a reset show the streams with enough processes that report nothing exactly if no
/// reason holds. So the reasons decide, whether sends are hidden or not.
pub fn open_reasons_decide()
    ensures { (top : ℕ) (streams : List Stream) → IsStreams streams
        → (IsShownWithOthers top streams ↔ HasNoOpenReason top streams) }
{}

/// A reason is final: if it holds at its place, no acts without a reset show the streams, whatever
/// processes that report nothing are added.
pub fn open_reasons_are_final()
    ensures { (top : ℕ) (streams : List Stream) → IsStreams streams → (reason : OpenReason)
        → StandsAgainstOpen top streams reason → (others : List Pid) (acts : List Act)
        → NoReset acts → ¬ Shows top (with_silent streams others) acts }
{}
