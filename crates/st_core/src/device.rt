//! Devices: where bytes come from and go to, in pieces.
//!
//! The traits, and devices over std's readers and writers and over memory. Nothing here knows of
//! tracing. All bytes that enter or leave the program pass here. No clause can say which bytes
//! standard input holds, so `take` says by the relation `gives` which bytes it gave, even if the
//! source doesn't tell what it has left.

mod memory;
mod recorder;
mod sink;
mod source;
mod std_io;

pub use memory::{EndlessSource, MemorySink, MemorySource};
pub use recorder::Recorder;
pub use sink::ByteSink;
pub use source::{ByteSource, Failed};
pub use std_io::{ReadFrom, WriteTo};
