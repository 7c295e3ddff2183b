//! Writes bytes to a sink, directly or through a buffer on the stack. Nothing here knows of lines.

ghost use Rattle.std.specs.Prelude.{◌≡◌, ◌≤◌, ◌-◌, [], drop, OnOk, OnErr};
ghost use Rattle.arrayvec.specs.ArrayVec.{array_vec_len};
ghost use Rattle.st_text.specs.Room.{line_room, piece_room, HasRoom};
ghost use Rattle.st_text.specs.Writing.{WritesOn};

use crate::spell::{Buffer, PIECE};
use st_core::ByteSink;
use thiserror::Error;

/// The sink failed: the only reason for which a call that writes fails. A prefix of the text was
/// written.
#[derive(Clone, Copy, Debug, PartialEq, Eq, Error)]
#[error("the device failed")]
pub struct Device;

/// Writes all the bytes, in as many calls as the sink needs. Takes no memory.
pub fn put_all<S: ByteSink>(sink: &mut S, bytes: &[u8]) -> Result<(), Device>
    ensures { WritesOn S.puts S.failed bytes.now sink.old sink.new [] [] result }
{
    let mut rest = bytes;
    while !rest.is_empty() {
        match sink.put(rest) {
            Ok(n) => rest = rest.split_at(n).1,
            Err(_) => return Err(Device),
        }
    }
    Ok(())
}

/// Writes all bytes of the buffer, and empties it. After a failure they all stay in the buffer,
/// though the sink may have taken some of them.
pub fn flush<S: ByteSink>(sink: &mut S, buffer: &mut Buffer) -> Result<(), Device>
    ensures goes { WritesOn S.puts S.failed [] sink.old sink.new
        buffer.old.items buffer.new.items result }
    ensures empty { OnOk result (buffer.new.items ≡ []) }
    ensures len { OnOk result (array_vec_len buffer.new ≡ 0) }
    ensures err { OnErr result (buffer.new.items ≡ buffer.old.items) }
{
    put_all(sink, buffer.as_slice())?;
    buffer.clear();
    Ok(())
}

/// Removes a piece from the front of the buffer, after it was written.
fn remove_piece(buffer: &mut Buffer)
    requires { piece_room ≤ array_vec_len buffer.old }
    ensures items { buffer.new.items ≡ drop piece_room buffer.old.items }
    ensures len { array_vec_len buffer.new ≡ array_vec_len buffer.old - piece_room }
{
    let len = buffer.len();
    buffer.as_mut_slice().copy_within(PIECE..len, 0);
    buffer.truncate(len - PIECE);
}

/// Makes room for a line: writes a piece of the buffer to the sink if a whole one waits there.
pub fn make_room<S: ByteSink>(sink: &mut S, buffer: &mut Buffer) -> Result<(), Device>
    ensures goes { WritesOn S.puts S.failed [] sink.old sink.new
        buffer.old.items buffer.new.items result }
    ensures room { OnOk result (HasRoom line_room buffer.new) }
    ensures err { OnErr result (buffer.new.items ≡ buffer.old.items) }
{
    if buffer.len() >= PIECE {
        put_all(sink, buffer.as_slice().split_at(PIECE).0)?;
        remove_piece(buffer);
    }
    Ok(())
}
