//! The text of a bundle: collected streams and acts, one to a line, read exactly and written in its
//! one spelling. The grammar and the refusals are definitions in specs/; the files here read and
//! write, and are proved to meet them.
#![tactic(auto)]

mod acts;
mod builder;
mod bundle;
mod cutter;
mod events;
mod fault;
mod feed;
mod finish;
pub mod laws;
mod limits;
mod line;
mod lines;
mod number;
mod reader;
mod remote;
mod sink;
mod spell;
mod step;
mod words;
mod writer;

pub use bundle::{Bundle, UnknownAct};
pub use fault::ReadFault;
pub use feed::Feed;
pub use limits::Limits;
pub use lines::{TextLine, send_line, write_line};
pub use reader::{read, read_within};
pub use sink::{Device, flush, make_room, put_all};
pub use spell::{
    Buffer, put_act, put_bytes, put_event, put_number, put_numbered, put_pid, put_serial,
};
pub use words::{read_number, read_pid};
pub use writer::{write, write_act, write_acts, write_event, write_parts, write_pid};
