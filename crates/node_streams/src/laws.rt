//! The laws of the streams of a standard node in all its runs, as contracts of functions that do
//! nothing: a proof that calls a function may use its clause.

ghost use Rattle.std.specs.Prelude.{◌≡◌, true, List, [], ◌∷◌, Some};
ghost use Rattle.std.specs.List.{AllByRecursion};
ghost use Rattle.st_core.specs.Run.{Stream, pids_of};
ghost use Rattle.st_core.specs.State.{zero_state};
ghost use Rattle.st_core.specs.Step.{Outcome};
ghost use Rattle.st_core.specs.Streams.{lists};
ghost use Rattle.st_core.specs.declared.types.Pid.{Pid};
ghost use Rattle.node_machine.specs.Node.{NodeAct, node_run};
ghost use Rattle.node_machine.specs.Premises.{ReportsTokens};
ghost use Rattle.node_streams.specs.Example.{client, sends_twice, sends_unreported, server};
ghost use Rattle.node_streams.specs.Example.{twice_streams, unreported_streams};
ghost use Rattle.node_streams.specs.Messages.{unsent_among};
ghost use Rattle.node_streams.specs.Order.{HaveOrder};
ghost use Rattle.node_streams.specs.Runs.{AreReported, AreStreamsOf, ReportSends};

/// If each token that reaches a listed process was sent by a listed one, which reported the send,
/// no receive is unsent, whatever was put back or reset.
pub fn reported_sends_leave_nothing_unsent()
    ensures { (streams : List Stream) (pids : List Pid) (acts : List NodeAct) (os : List Outcome)
        → AreStreamsOf streams pids acts os → unsent_among streams (pids_of streams) ≡ [] }
{}

/// Under the premises of `reported_sends_leave_nothing_unsent` all events have an order, since the
/// run has one.
pub fn a_run_has_an_order()
    ensures { (streams : List Stream) (pids : List Pid) (acts : List NodeAct) (os : List Outcome)
        → AreStreamsOf streams pids acts os → HaveOrder streams }
{}

/// `ReportSends` holds if the streams list all processes, and each reports its stamps and its
/// receives of tokens.
pub fn reports_of_all_have_each_send()
    ensures { (streams : List Stream) (pids : List Pid) (acts : List NodeAct) (os : List Outcome)
        → node_run pids acts ≡ Some os → AllByRecursion (λ p. lists streams p ≡ true) pids
        → AllByRecursion (λ p. ReportsTokens p (zero_state pids) acts os) pids
        → ReportSends streams (zero_state pids) acts os }
{}

/// A run can keep to the premises: this one sends two alike messages, and a reset takes the token
/// of one away.
pub fn a_run_reports_its_sends()
    ensures { (os : List Outcome)
        × AreStreamsOf twice_streams (client ∷ server ∷ []) sends_twice os }
{}

/// If a send isn't reported, a later one of an alike message stands for it. So there may be no
/// order, and yet nothing unsent.
pub fn an_unreported_send_can_leave_no_order()
    ensures { (os : List Outcome)
        × (node_run (client ∷ server ∷ []) sends_unreported ≡ Some os)
        × AreReported unreported_streams sends_unreported os
        × (unsent_among unreported_streams (pids_of unreported_streams) ≡ [])
        × ¬ (HaveOrder unreported_streams) }
{}
