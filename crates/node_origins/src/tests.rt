//! Tests that `origins` succeeds, which no contract says.

ghost use Rattle.std.specs.Prelude.{◌≡◌};

use crate::{EventOrigins, StampOrigin, origins};
use node_machine::Seen;
use st_core::{Kind, Label, Serial};

fn event(kind: Kind, label: u32, prev: u64, this: u64) -> Seen
    ensures { result.serial.this ≡ this }
{
    Seen {
        kind,
        label: Label(label),
        serial: Serial { prev, this },
        answer: false,
    }
}

/// The first label is new to the process, and two receives have the same serial.
#[test]
fn each_set_of_origins_is_found(rt: HostRuntime) {
    let events = [
        event(Kind::Print, 1, 0, 1),
        event(Kind::Receive, 2, 4, 5),
        event(Kind::Print, 2, 5, 6),
        event(Kind::Receive, 2, 4, 5),
        event(Kind::Print, 2, 4, 6),
        event(Kind::Print, 2, 9, 9),
    ];
    let found = origins(rt.alloc(), &events).expect(&rt, "out of memory");
    let first = StampOrigin::Follows(1);
    let second = StampOrigin::Follows(3);
    let expected = [
        EventOrigins::One(StampOrigin::Home),
        EventOrigins::Receive,
        EventOrigins::One(first),
        EventOrigins::Receive,
        EventOrigins::Several(first, second),
        EventOrigins::Unknown,
    ];
    assert!(rt; found.as_slice() == expected.as_slice());
}
