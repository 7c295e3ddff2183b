//! The command `renumber`: writes the input's streams with each count replaced by its rank. It
//! ignores the acts in the input.

ghost use Rattle.std.specs.Prelude.{◌≡◌};
ghost use Rattle.st_text.specs.Limits.{greater};
ghost use Rattle.st_commands.specs.Command.{Owes, Tells, call};
ghost use Rattle.st_commands.specs.Meaning.{Says};
ghost use Rattle.seqtool_commands.specs.Parts.{RenumbersTo};
ghost use Rattle.seqtool_commands.specs.Renumber.{IsRenumbered, MeansRefused, MeansRenumbered};

use crate::answer::tell_streams;
use lack_decide::renumbered;
use lack_laws::closed_world::{counts_can_be_put_back, shown_if_renumbered_is};
use st_commands::tell_fault;
use st_core::{ByteSink, ByteSource, Streams};
use st_text::{Limits, ReadFault, read_within};
use std::alloc::Global;

fn renumber_streams<W: ByteSink>(alloc: Global, streams: &Streams, writer: &mut W) -> u8
    ensures { Tells (call W.ByteSink writer.old writer.new) (RenumbersTo streams.now) result }
{
    match renumbered(alloc, streams) {
        Ok(ranked) => tell_streams(writer, &ranked),
        Err(_) => tell_fault(writer, ReadFault::Memory),
    }
}

/// Reads a bundle and writes its streams with each count replaced by its rank, with status 0. If
/// the renumbered streams have a run without a reset at a TOP that fits, so have the given ones
/// (`shown_if_renumbered_is` of `lack_laws`). Returns 2 for faulty input, and 4 if memory runs
/// out, or the reader or the writer fails.
pub fn run_renumber<R: ByteSource, W: ByteSink>(alloc: Global, reader: &mut R, writer: &mut W) -> u8
    ensures told { Tells (call W.ByteSink writer.old writer.new)
        (Owes greater (call R.ByteSource reader.old reader.new) IsRenumbered) result }

    // The meaning of renumbered streams and of faulty input, in the machine's own words.
    ensures renumbered { result ≡ 0 → Says greater (call R.ByteSource reader.old reader.new)
        (call W.ByteSink writer.old writer.new) MeansRenumbered }
    ensures refused { result ≡ 2 → Says greater (call R.ByteSource reader.old reader.new)
        (call W.ByteSink writer.old writer.new) MeansRefused }
{
    counts_can_be_put_back();
    shown_if_renumbered_is();
    match read_within(alloc, reader, Limits::GREATER) {
        Ok(bundle) => renumber_streams(alloc, &bundle.streams, writer),
        Err(fault) => tell_fault(writer, fault),
    }
}
