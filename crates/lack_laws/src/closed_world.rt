//! Laws on runs of the listed processes alone: which streams have acts without a reset. Each law
//! is the contract of a function that does nothing: a proof that calls the function may use its
//! clauses.

ghost use Rattle.std.specs.Prelude.{◌≡◌, ◌↔◌, ◌≤◌, ℕ, List};
ghost use Rattle.st_core.specs.declared.types.Act.{Act};
ghost use Rattle.st_core.specs.Laws.{NoReset};
ghost use Rattle.st_core.specs.Pid.{IsRising};
ghost use Rattle.st_core.specs.Run.{Shows, Stream, pids_of};
ghost use Rattle.st_core.specs.Streams.{IsStreams};
ghost use Rattle.st_plan.specs.Full.{IsFull};
ghost use Rattle.st_plan.specs.Marks.{all_streams, told_streams};
ghost use Rattle.st_plan.specs.Plain.{IsSettled};
ghost use Rattle.lack_laws.specs.Completed.{IsCompleted, IsShownInOneTrace};
ghost use Rattle.lack_laws.specs.Local.{IsNeedless};
ghost use Rattle.lack_laws.specs.Renumbering.{count_of_rank, counts_of, KeepsOrder};
ghost use Rattle.lack_laws.specs.Renumbering.{renumbered_streams, with_counts};
ghost use Rattle.lack_laws.specs.Wholes.{wholes_of};

/// Each run without a reset has a full completion of its streams: all its stamps and all its
/// receives of a token, reported or not, are full streams, and the told ones among them are the
/// streams that the run shows.
pub fn runs_have_full_completions()
    ensures { (top : ℕ) (streams : List Stream) (acts : List Act) (shows : Shows top streams acts)
        → NoReset acts → IsRising (pids_of streams)
        → (told_streams (wholes_of top streams acts shows.0) ≡ streams)
        × IsStreams (all_streams (wholes_of top streams acts shows.0))
        × IsFull top (all_streams (wholes_of top streams acts shows.0)) }
{}

/// Streams have acts without a reset exactly if they have a full completion, and exactly if they
/// have a settled one.
pub fn shown_exactly_where_completed()
    ensures { (top : ℕ) (streams : List Stream) → IsRising (pids_of streams)
        → (IsShownInOneTrace top streams ↔ IsCompleted IsFull top streams)
        × (IsShownInOneTrace top streams ↔ IsCompleted IsSettled top streams) }
{}

/// Streams have acts without a reset exactly if they have a completion in which nothing is needed,
/// which its pairing and the events of each process tell.
pub fn shown_exactly_where_nothing_is_needed()
    ensures { (top : ℕ) (streams : List Stream) → IsRising (pids_of streams)
        → (IsShownInOneTrace top streams ↔ IsCompleted IsNeedless top streams) }
{}

/// Streams in which nothing is needed have acts without a reset.
pub fn needless_streams_are_shown()
    ensures { (top : ℕ) (streams : List Stream) → IsStreams streams → IsNeedless top streams
        → IsShownInOneTrace top streams }
{}

/// Only the order of counts matters: streams that acts without a reset show are still shown after
/// all their counts, and TOP, are replaced by others in the same order, and 0 by 0.
pub fn renumbered_runs_are_runs()
    ensures { (f : ℕ → ℕ) → KeepsOrder f → (top : ℕ) (streams : List Stream)
        → IsRising (pids_of streams)
        → IsShownInOneTrace top streams → IsShownInOneTrace (f top) (with_counts f streams) }
{}

/// Streams have acts without a reset, however large their counts are, if the streams with ranks
/// for counts have some at a TOP whose count is at most that of the streams.
pub fn shown_if_renumbered_is()
    ensures { (top rank_top : ℕ) (streams : List Stream) → IsRising (pids_of streams)
        → count_of_rank (counts_of streams) rank_top ≤ top
        → IsShownInOneTrace rank_top (renumbered_streams streams) → IsShownInOneTrace top streams }
{}

/// Putting the counts back into renumbered streams gives the streams, and keeps the order of
/// counts.
pub fn counts_can_be_put_back()
    ensures { (streams : List Stream) → KeepsOrder (count_of_rank (counts_of streams))
        × (with_counts (count_of_rank (counts_of streams)) (renumbered_streams streams) ≡ streams) }
{}
