//! Reads a worked text byte by byte, and long texts for which there is memory.

use crate::helpers::same;
use st_core::{MemorySink, MemorySource};
use st_samples::HIDDEN_SENDS_CERTIFICATE;
use st_text::{Bundle, Feed, read, write};
use std::alloc::{AllocError, Global};
use std::process::Abort;
use std::test::Fail;

/// Adds the line at the end `times` times.
fn put_lines(text: &mut Vec<u8>, line: &str, times: u64) -> Result<(), AllocError> {
    for _ in 0..times {
        text.extend_from_slice(line.as_bytes())?;
    }
    Ok(())
}

/// Returns a text of 100,000 events and 100,000 acts.
fn long_text(alloc: Global) -> Result<Vec<u8>, AllocError> {
    let event = "{seq_trace,0,{print,{0,1},<0.0.0>,[],0}}\n";
    let mut text = Vec::new(alloc);
    put_lines(&mut text, "seqtrace 1\nprocess <0.0.0>\n", 1)?;
    put_lines(&mut text, event, 100_000)?;
    put_lines(&mut text, "acts\n", 1)?;
    put_lines(&mut text, "look <0.0.0>\n", 100_000)?;
    Ok(text)
}

/// Asserts that the bundle has the 100,000 events and 100,000 acts.
fn assert_long(rt: &impl Abort, bundle: &Bundle) {
    same(rt, &bundle.streams.total(), &100_000);
    let acts = bundle.acts.as_ref().map(|acts| acts.len());
    same(rt, &acts, &Some(100_000));
}

#[test]
fn a_hundred_thousand_events_and_acts(rt: HostRuntime) -> Result<(), Fail> {
    let text = long_text(rt.alloc())?;
    let bundle = read(rt.alloc(), &mut MemorySource::new(&text, None))?;
    assert_long(&rt, &bundle);
    Ok(())
}

#[test]
fn a_hundred_thousand_events_and_acts_in_pieces(rt: HostRuntime) -> Result<(), Fail> {
    let text = long_text(rt.alloc())?;
    let mut feed = Feed::new(rt.alloc());
    for piece in text.chunks(1_000) {
        feed.piece(piece)?;
    }
    assert_long(&rt, &feed.end()?);
    Ok(())
}

#[test]
fn fed_byte_by_byte(rt: HostRuntime) -> Result<(), Fail> {
    let text = HIDDEN_SENDS_CERTIFICATE.as_bytes();
    let mut feed = Feed::new(rt.alloc());
    for piece in text.chunks(1) {
        feed.piece(piece)?;
    }
    let mut sink = MemorySink::new(rt.alloc(), 1000, None)?;
    write(&mut sink, &feed.end()?)?;
    same(&rt, &sink.written(), &text);
    Ok(())
}
