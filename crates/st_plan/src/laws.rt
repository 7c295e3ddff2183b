//! Laws of the plan, as contracts of functions that do nothing: each clause is a theorem over the
//! definitions of `specs/`, and a proof that calls the function may use it.

ghost use Rattle.std.specs.Prelude.{◌≡◌, ℕ, List, Some};
ghost use Rattle.st_core.specs.declared.types.Act.{Act};
ghost use Rattle.st_core.specs.Laws.{NoReset, ReportsEverything};
ghost use Rattle.st_core.specs.Pid.{IsRising};
ghost use Rattle.st_core.specs.Run.{Shows, Stream, pids_of};
ghost use Rattle.st_core.specs.State.{zero_state};
ghost use Rattle.st_core.specs.Streams.{IsStreams};
ghost use Rattle.st_order.specs.Order.{order};
ghost use Rattle.st_plan.specs.Build.{construction};
ghost use Rattle.st_plan.specs.Full.{IsFull};
ghost use Rattle.st_plan.specs.Marks.{all_streams, all_told, marks_of, told_parts, told_streams};
ghost use Rattle.st_plan.specs.Marks.{Marks, Whole};
ghost use Rattle.st_plan.specs.Moves.{moves, Move};
ghost use Rattle.st_plan.specs.Plain.{IsPlain, IsSettled};

/// If pairing accepts streams, their order lists each process's events by rising index, nothing in
/// it is uncaused, and a clock can have each count, then the acts that are built, item by item,
/// run and show the told events, whichever these are. None of the acts is a reset.
pub fn settled_streams_are_shown()
    ensures { (top : ℕ) (streams : List Stream) (marks : Marks) → IsStreams streams
        → IsSettled top streams →
        (acts : List Act) × (construction top streams marks (moves streams (order streams))
        ≡ Some acts)
        × Shows top (told_parts marks streams) acts × NoReset acts }
{}

/// If the streams of a trace are the told events of whole streams that are settled, acts without a
/// reset show them.
pub fn completions_are_shown()
    ensures { (top : ℕ) (wholes : List Whole) → IsStreams (all_streams wholes)
        → IsSettled top (all_streams wholes) →
        (acts : List Act) × (construction top (all_streams wholes) (marks_of wholes)
        (moves (all_streams wholes) (order (all_streams wholes))) ≡ Some acts)
        × Shows top (told_streams wholes) acts × NoReset acts }
{}

/// If streams are plain, the acts that are built with all events told show them.
pub fn plain_streams_are_shown()
    ensures { (top : ℕ) (streams : List Stream) → IsStreams streams → IsPlain top streams →
        (acts : List Act) × (construction top streams all_told (moves streams (order streams))
        ≡ Some acts)
        × Shows top streams acts }
{}

/// No acts that are built have a reset among them, whether they show the streams or not.
pub fn constructions_have_no_reset()
    ensures { (top : ℕ) (streams : List Stream) (marks : Marks) (ms : List Move) (acts : List Act) →
        construction top streams marks ms ≡ Some acts → NoReset acts }
{}

/// Full streams are plain: the auditor has no reason against them.
pub fn full_streams_are_plain()
    ensures { (top : ℕ) (streams : List Stream) → IsRising (pids_of streams) → IsFull top streams
        → IsPlain top streams }
{}

/// If acts without a reset show streams and report every stamp and every receive of a token, the
/// streams are full.
pub fn full_runs_have_full_streams()
    ensures { (top : ℕ) (streams : List Stream) (acts : List Act) (shows : Shows top streams acts)
        → NoReset acts → ReportsEverything (zero_state (pids_of streams)) acts shows.0
        → IsFull top streams }
{}

/// If acts without a reset show streams and report every stamp and every receive of a token, the
/// streams are plain: the auditor has no reason against them.
pub fn full_runs_are_plain()
    ensures { (top : ℕ) (streams : List Stream) (acts : List Act) (shows : Shows top streams acts)
        → IsRising (pids_of streams) → NoReset acts
        → ReportsEverything (zero_state (pids_of streams)) acts shows.0 → IsPlain top streams }
{}
