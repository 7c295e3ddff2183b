//! Tests that the calls succeed, which no contract says.

ghost use Rattle.std.specs.Prelude.{◌≡◌};

use crate::{Node, NodeHop, NodeHops, Reach, tree, way};
use st_core::{Draft, Event, Kind, Label, Pid, Serial};

fn event(kind: Kind, from: Pid, to: Option<Pid>, prev: u64, this: u64) -> Event
    ensures { result.kind ≡ kind }
{
    Event {
        label: Label(1),
        kind,
        to,
        from,
        serial: Serial { prev, this },
        value: 7,
    }
}

fn node(depth: u64, pid: Pid, index: u64) -> Node
    ensures { result.depth ≡ depth }
{
    Node {
        depth,
        place: (pid, index),
    }
}

/// A message is sent, and its receiver prints.
#[test]
fn a_print_follows_the_receive_before_it(rt: HostRuntime) {
    let (first, second) = (Pid::new(30), Pid::new(31));
    let mut draft = Draft::new(rt.alloc());
    draft.open(first).expect(&rt, "not opened");
    let send = event(Kind::Send, first, Some(second), 0, 1);
    draft.add(first, send).expect(&rt, "not added");
    draft.open(second).expect(&rt, "not opened");
    let receive = event(Kind::Receive, first, Some(second), 0, 1);
    draft.add(second, receive).expect(&rt, "not added");
    let print = event(Kind::Print, second, None, 1, 2);
    draft.add(second, print).expect(&rt, "not added");
    let streams = draft.close().expect(&rt, "not closed");
    let hops = NodeHops::new(rt.alloc(), &streams).expect(&rt, "out of memory");
    let began = hops.hop(first, 0, &send);
    assert!(rt; began == NodeHop::Begins);
    let sent = hops.hop(second, 0, &receive);
    assert!(rt; sent == NodeHop::Sent(first, 0));
    let follows = hops.hop(second, 1, &print);
    assert!(rt; follows == NodeHop::After(0));
    let back = way(rt.alloc(), &hops, Reach::LABEL, (second, 1)).expect(&rt, "out of memory");
    let forth = tree(rt.alloc(), &hops, Reach::LABEL, (first, 0)).expect(&rt, "out of memory");
    let causes = [node(0, second, 1), node(1, second, 0), node(2, first, 0)];
    assert!(rt; back.as_slice() == causes.as_slice());
    let effects = [node(0, first, 0), node(1, second, 0), node(2, second, 1)];
    assert!(rt; forth.as_slice() == effects.as_slice());
}
