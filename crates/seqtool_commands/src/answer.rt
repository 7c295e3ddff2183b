//! Writes the outputs of this crate's own: each function writes a whole output, and returns its
//! status, or 4 if the writer fails.

ghost use Rattle.st_commands.specs.Command.{Delivers, call};
ghost use Rattle.seqtool_commands.specs.Renumber.{streams_output};

use st_commands::status_of;
use st_core::{ByteSink, Streams};
use st_text::write_parts;

/// Writes the bundle of streams without acts.
pub(crate) fn tell_streams<W: ByteSink>(writer: &mut W, streams: &Streams) -> u8
    ensures { Delivers (call W.ByteSink writer.old writer.new) (streams_output streams.now) result }
{
    let sent = write_parts(writer, streams, None);
    status_of(sent, 0)
}
