//! Laws of the machine, as contracts of functions that do nothing: each clause is a theorem over
//! the definitions of `specs/`, and a proof that calls the function may use it.

ghost use Rattle.std.specs.Prelude.{◌≡◌, ◌≢◌, ◌≤◌, ◌↔◌, ℕ, List, MatchOption, Some, All};
ghost use Rattle.std.specs.Prelude.{IsSome, length, option_and_then, slice_get, take};
ghost use Rattle.std.specs.List.{AllZip};
ghost use Rattle.st_core.specs.declared.types.Act.{Act};
ghost use Rattle.st_core.specs.declared.types.Event.{Event};
ghost use Rattle.st_core.specs.declared.types.Kind.TheVariants as kind;
ghost use Rattle.st_core.specs.declared.types.Pid.{Pid};
ghost use Rattle.st_core.specs.declared.types.Token.{Token};
ghost use Rattle.st_core.specs.Laws.{AreAllListed, IsLeastUnlisted, LeavesOthers, IsStamped};
ghost use Rattle.st_core.specs.Laws.{KeepsSound, ReportsAmong, ClocksNeverFall, GoesOnFrom};
ghost use Rattle.st_core.specs.Laws.{LiftsClock, NoReset, Reports, ReportsEverything};
ghost use Rattle.st_core.specs.Laws.{HasQueuesApart, HasStampsOnce, ReportsEvent, StampsToken};
ghost use Rattle.st_core.specs.Pid.{IsRising};
ghost use Rattle.st_core.specs.Streams.{unlisted};
ghost use Rattle.st_core.specs.Pairs.{AllPaired, Follows, IsFollowing, pairs};
ghost use Rattle.st_core.specs.Run.{Shows, Stream, pids_of, run, stream};
ghost use Rattle.st_core.specs.State.{LocalState, State, zero_state};
ghost use Rattle.st_core.specs.Step.{Outcome, step};
ghost use Rattle.st_core.specs.Stamp.{stamp};
ghost use Rattle.st_core.specs.Verdict.{Verdict, IsVerdict};

/// An act changes only the processes that it touches, and no process comes or goes.
pub fn untouched_stay()
    ensures { (top : ℕ) (s : State) (a : Act) (o : Outcome) → step top s a ≡ Some o
        → LeavesOthers a s o.after }
{}

/// A stamped token is from its process, its prev is below its this, and its this is at most TOP.
pub fn stamp_rises()
    ensures { (top : ℕ) (p : Pid) (l m : LocalState) (t : Token)
        → l.last ≤ l.clock → stamp top p l ≡ Some m → m.token ≡ Some t → IsStamped top p t }
{}

/// After each act of every run each process's last is at most its clock and its clock at most TOP,
/// each queued token was stamped by its message's sender, and the act's report has prev below
/// this.
pub fn runs_stay_sound()
    ensures { (top : ℕ) (pids : List Pid) (acts : List Act) (os : List Outcome)
        → run top pids acts ≡ Some os → All (KeepsSound top) os }
{}

/// In every run each report is its actor's own event, and names only processes of the run.
pub fn reports_are_own()
    ensures { (top : ℕ) (pids : List Pid) (acts : List Act) (os : List Outcome)
        → run top pids acts ≡ Some os → AllZip (ReportsAmong pids) acts os }
{}

/// In every run each reported receive follows the send whose message it took, and no send is in
/// two pairs.
pub fn receives_follow()
    ensures { (top : ℕ) (pids : List Pid) (acts : List Act) (os : List Outcome)
        → run top pids acts ≡ Some os → Follows acts os (pairs acts os) }
{}

/// In every run each act that reported a receive is in a pair.
pub fn receives_are_paired()
    ensures { (top : ℕ) (pids : List Pid) (acts : List Act) (os : List Outcome)
        → run top pids acts ≡ Some os → AllPaired os (pairs acts os) }
{}

/// If the send that a reported receive follows is reported too, the two events differ only in
/// their kind.
pub fn reported_sends_agree()
    ensures { (top : ℕ) (pids : List Pid) (acts : List Act) (os : List Outcome)
        → run top pids acts ≡ Some os → (r s : ℕ) (follows : IsFollowing acts os r s) (e : Event)
        → option_and_then (λ o. o.report) (slice_get os s) ≡ Some e
        → e ≡ record follows.event { kind = kind.Send } }
{}

/// Each event of a process's stream is the report of one of its acts.
pub fn events_are_reports()
    ensures { (acts : List Act) (os : List Outcome) (p : Pid) (i : ℕ) (e : Event)
        → slice_get (stream acts os p) i ≡ Some e → (n : ℕ) × ReportsEvent acts os p i e n }
{}

/// Each report of an act is in its process's stream, after the reports of earlier acts.
pub fn reports_are_events()
    ensures { (acts : List Act) (os : List Outcome) (p : Pid) (n : ℕ) (e : Event)
        → Reports acts os p n e
        → slice_get (stream acts os p) (length (stream (take n acts) (take n os) p)) ≡ Some e }
{}

/// In a run without a reset no clock falls.
pub fn clocks_never_fall()
    ensures { (top : ℕ) (pids : List Pid) (acts : List Act) (os : List Outcome)
        → run top pids acts ≡ Some os → NoReset acts → ClocksNeverFall os }
{}

/// In a run without a reset each reported send or print lifts its process's clock to its count, so
/// the counts of a process's reported sends and prints rise.
pub fn reported_stamps_lift_clocks()
    ensures { (top : ℕ) (pids : List Pid) (acts : List Act) (os : List Outcome)
        → run top pids acts ≡ Some os → NoReset acts → (p : Pid) (n : ℕ) (e : Event)
        → Reports acts os p n e → e.kind ≢ kind.Receive → LiftsClock os p e.serial.this n }
{}

/// In a run without a reset every stamp, reported or not, lifts its process's clock to its count,
/// so the counts of a process's stamps rise.
pub fn stamps_lift_clocks()
    ensures { (top : ℕ) (pids : List Pid) (acts : List Act) (os : List Outcome)
        → run top pids acts ≡ Some os → NoReset acts → (p : Pid) (n : ℕ) (t : Token)
        → StampsToken acts os p n t → LiftsClock os p t.serial.this n }
{}

/// In a run without a reset no queue ever holds two messages with the same stamp: two queued
/// tokens that one process stamped have different counts, and neither is above its clock.
pub fn queues_have_stamps_once()
    ensures { (top : ℕ) (pids : List Pid) (acts : List Act) (os : List Outcome)
        → run top pids acts ≡ Some os → NoReset acts → All (λ o. HasStampsOnce o.after) os }
{}

/// In a run without a reset no two queues ever hold the same stamp: tokens in them that one
/// process stamped have different counts.
pub fn queues_share_no_stamp()
    ensures { (top : ℕ) (pids : List Pid) (acts : List Act) (os : List Outcome)
        → run top pids acts ≡ Some os → NoReset acts → All (λ o. HasQueuesApart o.after) os }
{}

/// In a run without a reset each send that a reported receive follows, itself reported or not,
/// lifts its process's clock to the receive's count, so no two of a process's sends that reported
/// receives follow have the same count.
pub fn followed_sends_lift_clocks()
    ensures { (top : ℕ) (pids : List Pid) (acts : List Act) (os : List Outcome)
        → run top pids acts ≡ Some os → NoReset acts → (r s : ℕ) (follows : IsFollowing acts os r s)
        → LiftsClock os follows.event.from follows.event.serial.this s }
{}

/// In a run without a reset that reports every stamp and every receive of a token, a process's
/// events tell its counts: each send or print goes on from the events before it.
pub fn full_reports_tell_counts()
    ensures { (top : ℕ) (pids : List Pid) (acts : List Act) (os : List Outcome)
        → run top pids acts ≡ Some os → NoReset acts → ReportsEverything (zero_state pids) acts os
        → (p : Pid) (i : ℕ) (e : Event) → slice_get (stream acts os p) i ≡ Some e
        → e.kind ≢ kind.Receive
        → GoesOnFrom (take i (stream acts os p)) e }
{}

/// In a run that reports every stamp and every receive of a token, the send that a reported
/// receive follows is reported too.
pub fn full_reports_have_sends()
    ensures { (top : ℕ) (pids : List Pid) (acts : List Act) (os : List Outcome)
        → run top pids acts ≡ Some os → ReportsEverything (zero_state pids) acts os
        → (r s : ℕ) → IsFollowing acts os r s
        → IsSome (option_and_then (λ o. o.report) (slice_get os s)) }
{}

/// Streams and acts have a verdict.
pub fn a_verdict()
    ensures { (top : ℕ) (streams : List Stream) (acts : List Act)
        → (v : Verdict) × IsVerdict top streams acts v }
{}

/// The verdict is Yes exactly if the acts show the streams.
pub fn yes_shows()
    ensures { (top : ℕ) (streams : List Stream) (acts : List Act)
        → ((ps : List (ℕ × ℕ)) × IsVerdict top streams acts (Verdict.Yes ps))
        ↔ Shows top streams acts }
{}

/// Streams and acts have at most one verdict.
pub fn one_verdict()
    ensures { (top : ℕ) (streams : List Stream) (acts : List Act) (v w : Verdict)
        → IsVerdict top streams acts v → IsVerdict top streams acts w → v ≡ w }
{}

/// If the pids of streams rise, `unlisted` is the least place, by pid and then index, of an event
/// that names a pid that isn't listed; if it is none, each pid that an event names is listed.
pub fn unlisted_is_least()
    ensures { (streams : List Stream) → IsRising (pids_of streams)
        → MatchOption (unlisted streams) (AreAllListed streams)
        (λ place. IsLeastUnlisted streams place.0 place.1) }
{}
