//! Tests that `given` succeeds, which no contract says.

ghost use Rattle.std.specs.Prelude.{◌≡◌};

use crate::{Way, given};
use node_machine::Seen;
use st_core::{Kind, Label, Serial};

fn event(kind: Kind, prev: u64, this: u64) -> Seen
    ensures { result.serial.this ≡ this }
{
    Seen {
        kind,
        label: Label(0),
        serial: Serial { prev, this },
        answer: false,
    }
}

/// A token is put back, another one lowers the clock, and one comes from elsewhere.
#[test]
fn each_way_is_found(rt: HostRuntime) {
    let events = [
        event(Kind::Print, 0, 1),
        event(Kind::Print, 0, 2),
        event(Kind::Print, 0, 2),
        event(Kind::Receive, 3, 4),
        event(Kind::Print, 4, 5),
        event(Kind::Receive, 1, 2),
        event(Kind::Print, 2, 3),
        event(Kind::Print, 9, 9),
    ];
    let ways = given(rt.alloc(), &events).expect(&rt, "out of memory");
    let first = Serial { prev: 0, this: 1 };
    let zero = Serial { prev: 0, this: 0 };
    let expected = [
        Way::Plain,
        Way::Plain,
        Way::PutBack(first),
        Way::Receive,
        Way::Plain,
        Way::Receive,
        Way::Lowered(zero),
        Way::Ungiven,
    ];
    assert!(rt; ways.as_slice() == expected.as_slice());
}
