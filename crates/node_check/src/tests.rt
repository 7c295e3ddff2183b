//! Tests that `check_node` succeeds, which no contract says.

ghost use Rattle.std.specs.Prelude.{◌≡◌, None, Some};

use crate::{NodeAct, NodeVerdict, check_node};
use st_core::{Act, Component, Draft, Event, Flags, Kind, Label, Pid, Serial, Token, Want};

fn print(from: Pid, this: u64) -> Event
    ensures { result.to ≡ None }
{
    Event {
        label: Label(0),
        kind: Kind::Print,
        to: None,
        from,
        serial: Serial { prev: 0, this },
        value: 7,
    }
}

fn receive(from: Pid, to: Pid, serial: Serial) -> Event
    ensures { result.to ≡ Some to }
{
    Event {
        label: Label(0),
        kind: Kind::Receive,
        to: Some(to),
        from,
        serial,
        value: 7,
    }
}

fn printing(from: Pid, this: u64) -> Token
    ensures { result.from ≡ from }
{
    let flags = Flags {
        send: false,
        receive: false,
        print: true,
    };
    Token {
        label: Label(0),
        flags,
        serial: Serial { prev: 0, this },
        from,
    }
}

/// The token of the first print is put back after the second.
#[test]
fn a_token_brings_its_count_back(rt: HostRuntime) {
    let pid = Pid::new(30);
    let mut draft = Draft::new(rt.alloc());
    draft.open(pid).expect(&rt, "not opened");
    draft.add(pid, print(pid, 1)).expect(&rt, "not added");
    draft.add(pid, print(pid, 2)).expect(&rt, "not added");
    draft.add(pid, print(pid, 2)).expect(&rt, "not added");
    let streams = draft.close().expect(&rt, "not closed");
    let acts = [
        Act::Tracer(pid, true),
        Act::Set(pid, Component::Print(true)),
        Act::Print(pid, 7),
        Act::Print(pid, 7),
        Act::Restore(pid, printing(pid, 1)),
        Act::Print(pid, 7),
    ];
    let verdict = check_node(rt.alloc(), &streams, &acts).expect(&rt, "out of memory");
    assert!(rt; verdict == NodeVerdict::Yes);
}

/// The child's answer has count 2: its process keeps its token, and goes on from 16 * 2 + 15.
#[test]
fn an_answer_brings_both_counts_and_leaves_the_token(rt: HostRuntime) {
    let (parent, child) = (Pid::new(30), Pid::new(31));
    let mut draft = Draft::new(rt.alloc());
    draft.open(parent).expect(&rt, "not opened");
    let answer = receive(child, parent, Serial { prev: 1, this: 2 });
    draft.add(parent, answer).expect(&rt, "not added");
    let print = Event {
        serial: Serial { prev: 47, this: 48 },
        ..print(parent, 48)
    };
    draft.add(parent, print).expect(&rt, "not added");
    draft.open(child).expect(&rt, "not opened");
    let request = receive(parent, child, Serial { prev: 0, this: 1 });
    draft.add(child, request).expect(&rt, "not added");
    let streams = draft.close().expect(&rt, "not closed");
    let acts = [
        NodeAct::Common(Act::Tracer(parent, true)),
        NodeAct::Common(Act::Set(parent, Component::Receive(true))),
        NodeAct::Common(Act::Set(parent, Component::Print(true))),
        NodeAct::Common(Act::Send(parent, child, 7)),
        NodeAct::Common(Act::Receive(child, Want::First)),
        NodeAct::Common(Act::Send(child, parent, 7)),
        NodeAct::Answer(parent, 0),
        NodeAct::Common(Act::Print(parent, 7)),
    ];
    let verdict = check_node(rt.alloc(), &streams, &acts).expect(&rt, "out of memory");
    assert!(rt; verdict == NodeVerdict::Yes);
}

/// The receiver isn't listed, so the send has no step.
#[test]
fn a_stranger_is_stuck(rt: HostRuntime) {
    let pid = Pid::new(30);
    let mut draft = Draft::new(rt.alloc());
    draft.open(pid).expect(&rt, "not opened");
    let streams = draft.close().expect(&rt, "not closed");
    let acts = [Act::Look(pid), Act::Send(pid, Pid::new(31), 7)];
    let verdict = check_node(rt.alloc(), &streams, &acts).expect(&rt, "out of memory");
    assert!(rt; verdict == NodeVerdict::Stuck(1));
}
