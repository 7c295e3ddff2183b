//! The facts that streams show of a standard node in all its runs without a reset, as contracts of
//! functions that do nothing: a proof that calls a function may use its clause.

ghost use Rattle.std.specs.Prelude.{◌≡◌, ◌≢◌, ◌≤◌, ◌<◌, ℕ, true, false, map, List, [], ◌∷◌, Some};
ghost use Rattle.std.specs.Prelude.{slice_get, take};
ghost use Rattle.st_core.specs.declared.types.Kind.TheVariants as kind;
ghost use Rattle.st_core.specs.declared.types.Pid.{Pid};
ghost use Rattle.std.specs.List.{AllByRecursion, sum_by};
ghost use Rattle.st_core.specs.Pid.{IsRising};
ghost use Rattle.st_core.specs.State.{zero_state};
ghost use Rattle.st_core.specs.Step.{Outcome};
ghost use Rattle.st_core.specs.declared.types.Event.{Event};
ghost use Rattle.node_machine.specs.ByMessages.{CanBySends, IsAtHomeBySends, IsEarlierToken};
ghost use Rattle.node_machine.specs.ByMessages.{IsLastTaken, IsSuccessorOf, LabelRule, new_label};
ghost use Rattle.node_machine.specs.ByMessages.{no_past, OriginsAreBySends, other_label};
ghost use Rattle.node_machine.specs.ByMessages.{ReportsSendsTo, ReportsStamps, sends_to, SendsTo};
ghost use Rattle.node_machine.specs.ByMessages.{stamp_origins, stamp_stream, TakesOnly};
ghost use Rattle.node_machine.specs.Example.{all_come, all_home, both_sends, printer};
ghost use Rattle.node_machine.specs.Example.{prints_again, reported_sends, second_comes};
ghost use Rattle.node_machine.specs.Example.{sends_silently, three};
ghost use Rattle.node_machine.specs.Example.{prints_what_came, sender, the_print, the_send};
ghost use Rattle.node_machine.specs.Example.{the_sends};
ghost use Rattle.node_machine.specs.Example.{wrapped_serials, wraps};
ghost use Rattle.node_machine.specs.Given.{IsGiven, IsMet, is_given, strange_prevs};
ghost use Rattle.node_machine.specs.Node.{NodeAct, Seen, node_run, seen_stream};
ghost use Rattle.node_machine.specs.Origins.{AnswersComeNext, Can, Follows, Home, OriginsAre};
ghost use Rattle.node_machine.specs.Origins.{origins_told, TokenOrigin};
ghost use Rattle.node_machine.specs.Premises.{IsAmong, NoNodeReset, PutsBackOwn, ReportsTaken};
ghost use Rattle.node_machine.specs.Premises.{ReportsTokens};
ghost use Rattle.node_machine.specs.Premises.{all_put_backs, places, put_backs};
ghost use Rattle.node_machine.specs.Readings.{NeedsAtLeast, NeedsPutBack};
ghost use Rattle.node_machine.specs.Ways.{IsInSomeWay, lasts};

/// If a process reports each stamp and each receive of a token, and puts back only tokens of its
/// own, the events before each of its stamps give it.
pub fn own_tokens_give_each_stamp()
    ensures { (pids : List Pid) (acts : List NodeAct) (os : List Outcome)
        → node_run pids acts ≡ Some os → NoNodeReset acts → (p : Pid)
        → ReportsTokens p (zero_state pids) acts os
        → PutsBackOwn p [] (zero_state pids) acts os
        → (i : ℕ) (e : Seen) → slice_get (seen_stream acts os p) i ≡ Some e → e.kind ≢ kind.Receive
        → IsGiven (take i (seen_stream acts os p)) e }
{}

/// No process that reports each stamp and each receive of a token, and puts back only its own
/// tokens, has events with a stamp that isn't given.
pub fn what_is_not_given_is_final()
    ensures { (es : List Seen) (i : ℕ) (e : Seen) → slice_get es i ≡ Some e
        → e.kind ≢ kind.Receive → is_given (take i es) e ≡ false
        → (pids : List Pid) (acts : List NodeAct) (os : List Outcome)
        → node_run pids acts ≡ Some os → NoNodeReset acts → (p : Pid)
        → ReportsTokens p (zero_state pids) acts os
        → PutsBackOwn p [] (zero_state pids) acts os → ¬ (seen_stream acts os p ≡ es) }
{}

/// If a process reports each stamp and each receive of a token, it puts back at least as many
/// tokens, whosever they are, as its events need in each reading.
pub fn each_need_is_a_put_back()
    ensures { (pids : List Pid) (acts : List NodeAct) (os : List Outcome)
        → node_run pids acts ≡ Some os → NoNodeReset acts → (p : Pid)
        → ReportsTokens p (zero_state pids) acts os
        → (n : ℕ) → NeedsAtLeast (seen_stream acts os p) n → n ≤ put_backs p acts }
{}

/// The needs of several processes that report each stamp and each receive of a token add up, since
/// each put-back is of one process.
pub fn needs_of_all_add_up()
    ensures { (pids : List Pid) (acts : List NodeAct) (os : List Outcome)
        → node_run pids acts ≡ Some os → NoNodeReset acts → (ps : List Pid) → IsRising ps
        → AllByRecursion (λ p. ReportsTokens p (zero_state pids) acts os) ps → (needs : Pid → ℕ)
        → AllByRecursion (λ p. NeedsAtLeast (seen_stream acts os p) (needs p)) ps
        → sum_by needs ps ≤ all_put_backs acts }
{}

/// A stamp that goes on from the counts before it in no reading has a put-back of its own: before
/// it, and after the stamp before it.
pub fn each_need_has_its_put_back()
    ensures { (pids : List Pid) (acts : List NodeAct) (os : List Outcome)
        → node_run pids acts ≡ Some os → NoNodeReset acts → (p : Pid)
        → ReportsTokens p (zero_state pids) acts os
        → (i : ℕ) (e : Seen) → slice_get (seen_stream acts os p) i ≡ Some e → e.kind ≢ kind.Receive
        → (let es = take i (seen_stream acts os p) in
        NeedsPutBack es e → IsMet (places p [] acts os) es) }
{}

/// If a process reports each stamp and each receive of a token, gets each answer right after its
/// request, and puts back only tokens and gives only labels of its own, its events allow the
/// origin of each stamp's token.
pub fn an_origin_is_one_that_events_allow()
    ensures { (pids : List Pid) (acts : List NodeAct) (os : List Outcome)
        → node_run pids acts ≡ Some os → NoNodeReset acts → (p : Pid)
        → ReportsTokens p (zero_state pids) acts os
        → (hs : List TokenOrigin) → OriginsAre p [] [] Home (zero_state pids) acts os hs
        → AnswersComeNext p false acts os
        → (i : ℕ) (e : Seen) (h : TokenOrigin) → slice_get (seen_stream acts os p) i ≡ Some e
        → e.kind ≢ kind.Receive → slice_get (origins_told acts os hs p) i ≡ Some h
        → Can (seen_stream acts os p) i h }
{}

/// If a process reports each stamp, takes tokens only with messages of the sends, puts back only
/// tokens of its own, and gives its tokens only labels that the rule allows, its stamps and the
/// sends allow the origin of each stamp's token. It may report no receive. So if they allow one
/// message and nothing else, that message brought the token.
pub fn a_token_comes_from_what_sends_allow()
    ensures { (pids : List Pid) (acts : List NodeAct) (os : List Outcome)
        → node_run pids acts ≡ Some os → NoNodeReset acts → (p : Pid)
        → ReportsStamps p (zero_state pids) acts os
        → (sent : SendsTo) (rule : LabelRule) (hs : List TokenOrigin)
        → OriginsAreBySends sent rule p no_past (zero_state pids) acts os hs
        → (i : ℕ) (e : Event) (h : TokenOrigin) → slice_get (stamp_stream acts os p) i ≡ Some e
        → slice_get (stamp_origins acts os hs p) i ≡ Some h
        → CanBySends sent rule (stamp_stream acts os p) i h }
{}

/// The first stamp with a label is from home if no message of the sends can have given its token,
/// whatever labels its process gives.
pub fn a_first_label_that_nothing_brings_is_at_home()
    ensures { (sent : SendsTo) (rule : LabelRule) (es : List Event) (i : ℕ) (stamp : Event)
        → slice_get es i ≡ Some stamp
        → ((k : ℕ) (e : Event) → k < i → slice_get es k ≡ Some e → ¬ (e.label ≡ stamp.label))
        → ((k : ℕ) → ¬ IsLastTaken sent es i k)
        → ((k : ℕ) (e : Event) → slice_get sent.gifts k ≡ Some e → ¬ IsSuccessorOf e es i)
        → (h : TokenOrigin) → CanBySends sent rule es i h → h ≡ Home }
{}

/// If each label that a process gives is new to it, a later stamp with a label is from home only
/// if its token was held before the first one, and no message with the label brought it.
pub fn a_new_label_is_given_before_its_stamps()
    ensures { (sent : SendsTo) (es : List Event) (i k : ℕ) (stamp first : Event)
        → slice_get es i ≡ Some stamp → k < i → slice_get es k ≡ Some first
        → first.label ≡ stamp.label → IsAtHomeBySends sent new_label es i
        → IsEarlierToken sent es stamp k }
{}

/// If a process gives a stamp's label to no token, the stamp's token came with a message.
pub fn a_label_that_is_never_given_is_brought()
    ensures { (sent : SendsTo) (es : List Event) (i : ℕ) (stamp : Event)
        → slice_get es i ≡ Some stamp → (h : TokenOrigin)
        → CanBySends sent (other_label stamp.label) es i h → (k : ℕ) × (h ≡ Follows k) }
{}

/// If each send of a token to a process is reported, the reported sends to it include those of all
/// messages with which it takes a token.
pub fn reported_sends_are_all_that_is_taken()
    ensures { (pids : List Pid) (acts : List NodeAct) (os : List Outcome)
        → node_run pids acts ≡ Some os → (p : Pid) → ReportsSendsTo p (zero_state pids) acts os
        → TakesOnly (sends_to os p) p (zero_state pids) acts os }
{}

/// If a process reports each receive of a token, whatever else it reports, and puts back only
/// tokens of its own, the prev of each of its stamps is a last that the events before it show.
/// Nothing more can be said of the stamp's count.
pub fn each_prev_was_a_last()
    ensures { (pids : List Pid) (acts : List NodeAct) (os : List Outcome)
        → node_run pids acts ≡ Some os → NoNodeReset acts → (p : Pid)
        → ReportsTaken p (zero_state pids) acts os
        → PutsBackOwn p [] (zero_state pids) acts os → (i : ℕ) (e : Seen)
        → slice_get (seen_stream acts os p) i ≡ Some e → e.kind ≢ kind.Receive
        → IsAmong (lasts (take i (seen_stream acts os p))) e.serial.prev }
{}

/// If a process reports each receive of a token, it puts back at least as many tokens as it has
/// stamps with another prev than the last before them.
pub fn each_strange_prev_is_a_put_back()
    ensures { (pids : List Pid) (acts : List NodeAct) (os : List Outcome)
        → node_run pids acts ≡ Some os → NoNodeReset acts → (p : Pid)
        → ReportsTaken p (zero_state pids) acts os
        → strange_prevs (seen_stream acts os p) ≤ put_backs p acts }
{}

/// Events give a stamp in four ways and no other: plainly, again, fresh or lowered.
pub fn four_ways_give_a_stamp()
    ensures { (es : List Seen) (e : Seen)
        → (IsGiven es e → IsInSomeWay es e) × (IsInSomeWay es e → IsGiven es e) }
{}

/// `is_given` tells exactly whether events give a stamp.
pub fn what_is_given_is_decided()
    ensures { (es : List Seen) (e : Seen) → (IsGiven es e → is_given es e ≡ true)
        × (is_given es e ≡ true → IsGiven es e) }
{}

/// A run can keep to all premises of the laws and need a put-back: this one does.
pub fn a_run_keeps_to_all_of_it()
    ensures { (os : List Outcome) × (node_run (printer ∷ []) prints_again ≡ Some os)
        × NoNodeReset prints_again
        × ReportsTokens printer (zero_state (printer ∷ [])) prints_again os
        × PutsBackOwn printer [] (zero_state (printer ∷ [])) prints_again os
        × OriginsAre printer [] [] Home (zero_state (printer ∷ [])) prints_again os all_home
        × AnswersComeNext printer false prints_again os
        × NeedsAtLeast (seen_stream prints_again os printer) 1
        × (put_backs printer prints_again ≡ 1) }
{}

/// Counts wrap: in this run a serial shows the greatest count and then 0, and the process that
/// reports it puts nothing back.
pub fn a_run_goes_through_the_wrap()
    ensures { (os : List Outcome) × (node_run (printer ∷ sender ∷ []) wraps ≡ Some os)
        × ReportsTokens printer (zero_state (printer ∷ sender ∷ [])) wraps os
        × PutsBackOwn printer [] (zero_state (printer ∷ sender ∷ [])) wraps os
        × (map (λ e. e.serial) (seen_stream wraps os printer) ≡ wrapped_serials) }
{}

/// A run can keep to the premises of the laws of unreported receives, for a process that gives its
/// label to no token: in this one the sender's message brings the printer its token.
pub fn a_run_takes_a_message_unreported()
    ensures { (os : List Outcome) × (node_run (printer ∷ sender ∷ []) prints_what_came ≡ Some os)
        × NoNodeReset prints_what_came
        × ReportsStamps printer (zero_state (printer ∷ sender ∷ [])) prints_what_came os
        × ReportsSendsTo printer (zero_state (printer ∷ sender ∷ [])) prints_what_came os
        × OriginsAreBySends the_sends (other_label the_print.label) printer no_past
        (zero_state (printer ∷ sender ∷ [])) prints_what_came os all_come
        × (sends_to os printer ≡ the_send ∷ [])
        × (stamp_stream prints_what_came os printer ≡ the_print ∷ [])
        × (stamp_origins prints_what_came os all_come printer ≡ Follows 0 ∷ []) }
{}

/// Each send to the process has to be known: in this run one isn't reported, and the reported
/// sends allow the message of another, though the unreported one brought the token.
pub fn a_send_that_nobody_reports_misleads()
    ensures { (os : List Outcome) × (node_run three sends_silently ≡ Some os)
        × ReportsStamps printer (zero_state three) sends_silently os
        × OriginsAreBySends both_sends (other_label the_print.label) printer no_past
        (zero_state three) sends_silently os second_comes
        × (sends_to os printer ≡ reported_sends.gifts)
        × (stamp_stream sends_silently os printer ≡ the_print ∷ [])
        × (stamp_origins sends_silently os second_comes printer ≡ Follows 1 ∷ [])
        × CanBySends reported_sends (other_label the_print.label) (the_print ∷ []) 0 (Follows 0) }
{}
