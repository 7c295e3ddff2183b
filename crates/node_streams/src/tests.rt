//! Tests that `judge` succeeds, which no contract says.

ghost use Rattle.std.specs.Prelude.{◌≡◌};

use crate::judge;
use st_core::{Draft, Event, Kind, Label, Pid, Serial};

fn event(kind: Kind, from: Pid, to: Pid, prev: u64, this: u64) -> Event
    ensures { result.kind ≡ kind }
{
    Event {
        label: Label(1),
        kind,
        to: Some(to),
        from,
        serial: Serial { prev, this },
        value: 7,
    }
}

/// The second receive of a message has no send.
#[test]
fn a_message_is_received_twice(rt: HostRuntime) {
    let (first, second) = (Pid::new(30), Pid::new(31));
    let receive = event(Kind::Receive, first, second, 0, 1);
    let mut draft = Draft::new(rt.alloc());
    draft.open(first).expect(&rt, "not opened");
    let send = event(Kind::Send, first, second, 0, 1);
    draft.add(first, send).expect(&rt, "not added");
    draft.open(second).expect(&rt, "not opened");
    draft.add(second, receive).expect(&rt, "not added");
    draft.add(second, receive).expect(&rt, "not added");
    let streams = draft.close().expect(&rt, "not closed");
    let judged = judge(rt.alloc(), &streams).expect(&rt, "out of memory");
    assert!(rt; judged.unsent.as_slice() == [(second, 1)].as_slice());
    assert!(rt; judged.cycle.is_empty());
}

/// Each message is sent after the other one is received.
#[test]
fn two_messages_wait_for_each_other(rt: HostRuntime) {
    let (first, second) = (Pid::new(30), Pid::new(31));
    let mut draft = Draft::new(rt.alloc());
    draft.open(first).expect(&rt, "not opened");
    let receive = event(Kind::Receive, second, first, 0, 1);
    draft.add(first, receive).expect(&rt, "not added");
    let send = event(Kind::Send, first, second, 1, 2);
    draft.add(first, send).expect(&rt, "not added");
    draft.open(second).expect(&rt, "not opened");
    let receive = event(Kind::Receive, first, second, 1, 2);
    draft.add(second, receive).expect(&rt, "not added");
    let send = event(Kind::Send, second, first, 0, 1);
    draft.add(second, send).expect(&rt, "not added");
    let streams = draft.close().expect(&rt, "not closed");
    let judged = judge(rt.alloc(), &streams).expect(&rt, "out of memory");
    assert!(rt; judged.unsent.is_empty());
    assert!(rt; judged.cycle.as_slice() == [(first, 0), (second, 0)].as_slice());
}
