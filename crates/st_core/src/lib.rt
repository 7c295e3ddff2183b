//! Erlang's sequential tracing: its types and what one process keeps.
#![tactic(auto)]

mod device;
mod guesses;
pub mod laws;
mod local;
mod places;
mod rising;
mod sequence;
mod streams;
mod types;

pub use device::{
    ByteSink, ByteSource, EndlessSource, Failed, MemorySink, MemorySource, ReadFrom, Recorder,
    WriteTo,
};
pub use guesses::Guesses;
pub use local::{ClockFull, Local};
pub use places::place_of;
pub use rising::is_rising;
pub use sequence::Sequence;
pub use streams::{AddFault, Draft, OpenFault, Streams, Unlisted};
pub use types::{
    Act, Component, Event, Flags, Kind, Label, Message, Pid, Reply, Serial, Token, Want,
};
