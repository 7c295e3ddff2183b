//! The page of a chart: bytes that wait for the writer, on the heap, so that a chart of many
//! lanes goes out in few large pieces.

ghost use Rattle.std.specs.Prelude.{◌≡◌, [], OnOk};
ghost use Rattle.st_text.specs.Writing.{WritesOn};

use st_core::ByteSink;
use st_text::{Buffer, Device, put_all};
use std::alloc::Global;

/// The number of bytes that go out at once, as many as a pipe takes. They fill whole memory pages,
/// since a file takes parts of a page more slowly.
const PIECE: usize = 65_536;

/// The bytes that wait for the writer, and a buffer in which a line is made.
#[derive(Drop)]
pub(crate) struct Page {
    pub(crate) waits: Vec<u8>,
    pub(crate) line: Buffer,
}

impl Page {
    /// Makes an empty page. Takes no memory yet.
    pub(crate) fn new(alloc: Global) -> Page
        ensures { result.waits.items ≡ [] }
    {
        Page {
            waits: Vec::new(alloc),
            line: Buffer::new(),
        }
    }
}

pub(crate) fn turn<W: ByteSink>(writer: &mut W, waits: &mut Vec<u8>) -> Result<(), Device>
    ensures goes { WritesOn W.puts W.failed [] writer.old writer.new
        waits.old.items waits.new.items result }
    ensures empty { OnOk result (waits.new.items ≡ []) }
{
    put_all(writer, waits.as_slice())?;
    waits.clear();
    Ok(())
}

/// Appends bytes to the waiting ones, or writes all of them if memory runs out.
fn keep<W: ByteSink>(writer: &mut W, waits: &mut Vec<u8>, bytes: &[u8]) -> Result<(), Device>
    ensures { WritesOn W.puts W.failed bytes.now writer.old writer.new
        waits.old.items waits.new.items result }
{
    match waits.extend_from_slice(bytes) {
        Ok(()) => Ok(()),
        Err(_) => {
            turn(writer, waits)?;
            put_all(writer, bytes)
        }
    }
}

/// Appends bytes to the waiting ones, and writes a piece as soon as it is full.
pub(crate) fn put_on<W: ByteSink>(
    writer: &mut W,
    waits: &mut Vec<u8>,
    bytes: &[u8],
) -> Result<(), Device>
    ensures { WritesOn W.puts W.failed bytes.now writer.old writer.new
        waits.old.items waits.new.items result }
{
    let room = PIECE.saturating_sub(waits.len());
    if bytes.len() < room {
        return keep(writer, waits, bytes);
    }
    let (front, back) = bytes.split_at(room.min(bytes.len()));
    keep(writer, waits, front)?;
    turn(writer, waits)?;
    keep(writer, waits, back)
}
