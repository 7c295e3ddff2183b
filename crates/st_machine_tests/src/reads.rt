//! Reads that fail because memory runs out, and succeed at the second try. They show it only if
//! `rt try --test --fail-alloc N` fails the N-th allocation.

use crate::helpers::{same, sink_at_last};
use st_core::{MemorySink, MemorySource};
use st_samples::HIDDEN_SENDS_CERTIFICATE;
use st_text::{Bundle, Feed, ReadFault, read, write};
use std::alloc::Global;
use std::process::Abort;

/// Writes the result to the sink, and asserts that it is the certificate's bundle.
fn assert_certificate(rt: &impl Abort, mut sink: MemorySink, answer: Result<Bundle, ReadFault>) {
    let Ok(bundle) = answer else {
        panic!(rt; "refused again");
    };
    assert!(rt; write(&mut sink, &bundle).is_ok());
    same(rt, &sink.written(), &HIDDEN_SENDS_CERTIFICATE.as_bytes());
}

fn read_whole(alloc: Global) -> Result<Bundle, ReadFault> {
    read(
        alloc,
        &mut MemorySource::new(HIDDEN_SENDS_CERTIFICATE.as_bytes(), None),
    )
}

#[test]
fn a_read_without_memory_may_be_asked_again(rt: HostRuntime) {
    let alloc = rt.alloc();
    let sink = sink_at_last(&rt, alloc, 1000);
    let answer = match read_whole(alloc) {
        Err(ReadFault::Memory) => read_whole(alloc),
        answer => answer,
    };
    assert_certificate(&rt, sink, answer);
}

/// Reads the certificate in pieces, and asserts that a feed that failed fails in the same way
/// again.
fn read_in_pieces(rt: &impl Abort, alloc: Global) -> Result<Bundle, ReadFault> {
    let mut feed = Feed::new(alloc);
    for piece in HIDDEN_SENDS_CERTIFICATE.as_bytes().chunks(7) {
        if feed.piece(piece).is_err() {
            same(rt, &feed.piece(b"\n"), &Err(ReadFault::Memory));
            return feed.end();
        }
    }
    feed.end()
}

#[test]
fn a_new_feed_reads_right_after_a_refused_one(rt: HostRuntime) {
    let alloc = rt.alloc();
    let sink = sink_at_last(&rt, alloc, 1000);
    let answer = match read_in_pieces(&rt, alloc) {
        Err(ReadFault::Memory) => read_in_pieces(&rt, alloc),
        answer => answer,
    };
    assert_certificate(&rt, sink, answer);
}
