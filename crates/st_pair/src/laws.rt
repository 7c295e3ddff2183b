//! Laws of pairing, as contracts of functions that do nothing: each clause is a theorem over the
//! definitions of `specs/`, and a proof that calls the function may use it.

ghost use Rattle.std.specs.Prelude.{◌≡◌, ◌<◌, ◌↔◌, ℕ, true, false, List, Option, None, Some};
ghost use Rattle.st_core.specs.declared.types.Act.{Act};
ghost use Rattle.st_core.specs.declared.types.Event.{Event};
ghost use Rattle.st_core.specs.declared.types.Pid.{Pid};
ghost use Rattle.st_core.specs.Laws.{NoReset, ReportsEverything};
ghost use Rattle.st_core.specs.Run.{Shows, Stream, pids_of};
ghost use Rattle.st_core.specs.State.{zero_state};
ghost use Rattle.st_core.specs.Streams.{IsStreams};
ghost use Rattle.st_pair.specs.declared.answer.PairFault.{PairFault};
ghost use Rattle.st_pair.specs.declared.answer.PairFault.TheVariants as fault;
ghost use Rattle.st_pair.specs.declared.answer.Source.TheVariants as source;
ghost use Rattle.st_pair.specs.Final.{NeverShown, NeverShownInOneTrace};
ghost use Rattle.st_pair.specs.Laws.{IsLeast};
ghost use Rattle.st_pair.specs.Pairing.{receiver_at, refusal, source_at};
ghost use Rattle.st_pair.specs.Places.{event_at, first, is_stamp};

/// The first fault that a rule gives is at the least place with a fault, by pid and then index.
pub fn first_is_least()
    ensures { (rule : Pid → ℕ → Event → Option PairFault) (streams : List Stream)
        (fault : PairFault) →
        IsStreams streams → first rule streams ≡ Some fault → IsLeast rule streams fault }
{}

/// If pairing accepts the streams, the receiver of a send is a receive exactly if the source of
/// that receive is the send.
pub fn sources_and_receivers_agree()
    ensures { (streams : List Stream) → IsStreams streams → refusal streams ≡ None →
        (p : Pid) (i : ℕ) (q : Pid) (j : ℕ) →
        (receiver_at streams q j ≡ Some (p, i))
        ↔ (source_at streams p i ≡ Some (source.Event q j)) }
{}

/// If pairing accepts the streams, the counts of a process's sends and prints rise, so no two have
/// one count.
pub fn stamp_counts_rise()
    ensures { (streams : List Stream) → refusal streams ≡ None →
        (p : Pid) (j i : ℕ) (d e : Event) → j < i → event_at streams p j ≡ Some d
        → event_at streams p i ≡ Some e →
        is_stamp d ≡ true → is_stamp e ≡ true → d.serial.this < e.serial.this }
{}

/// If an event's prev isn't less than its this, no acts show the streams: the serial of every
/// report rises.
pub fn prev_not_before_is_final()
    ensures { (streams : List Stream) (p : Pid) (i : ℕ) →
        refusal streams ≡ Some (fault.PrevNotBefore p i) → NeverShown streams }
{}

/// If any of the four reasons holds of streams, no acts without a reset show them: without a reset
/// each stamp of a process has a greater count than the stamp before it.
pub fn refusals_are_final_without_reset()
    ensures { (streams : List Stream) (reason : PairFault) →
        refusal streams ≡ Some reason → NeverShownInOneTrace streams }
{}

/// If acts without a reset show streams and report every stamp and every receive of a token, no
/// send is hidden: the source of each receive is an event.
pub fn fully_shown_sends_are_events()
    ensures { (top : ℕ) (streams : List Stream) (acts : List Act) (shows : Shows top streams acts) →
        NoReset acts → ReportsEverything (zero_state (pids_of streams)) acts shows.0 →
        (p : Pid) (i : ℕ) (e : Event) → event_at streams p i ≡ Some e → is_stamp e ≡ false →
        (j : ℕ) × (source_at streams p i ≡ Some (source.Event e.from j)) }
{}
