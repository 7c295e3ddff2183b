//! Reads a bundle from a source, up to the source's end or to one byte too many.

ghost use Rattle.st_text.specs.Limits.{standard};
ghost use Rattle.st_text.specs.Reads.{ReadsSource};

use crate::bundle::Bundle;
use crate::fault::ReadFault;
use crate::feed::Feed;
use crate::limits::Limits;
use st_core::ByteSource;
use std::alloc::Global;

/// The most bytes that are asked for at once.
const PIECE: u64 = 8_192;

/// Reads the bundle whose text the source gives, within the standard limits, as `read_within`
/// does.
pub fn read<S: ByteSource>(alloc: Global, source: &mut S) -> Result<Bundle, ReadFault>
    ensures { ReadsSource standard S.gives S.ended S.failed source.old source.new result }
{
    read_within(alloc, source, Limits::STANDARD)
}

/// Reads the bundle whose text the source gives, within these limits.
///
/// Reads on until the source ends, fails (`Device`) or has given one byte too many (`TooLarge`),
/// and takes no byte after that one; so these two faults come before all others. Then comes the
/// fault of the first faulty line; if that line has several, the first of `Line`, `Order`,
/// `Foreign` and `TooMany`. Then `Truncated`; then `Line(1)` for a header 2 that no line needs;
/// then `Unknown` for the first line that names an unlisted pid. `Memory` can replace a bundle and
/// any fault but the first two, if the reader had something to keep.
pub fn read_within<S: ByteSource>(
    alloc: Global,
    source: &mut S,
    limits: Limits,
) -> Result<Bundle, ReadFault>
    ensures { ReadsSource limits S.gives S.ended S.failed source.old source.new result }
{
    let mut feed = Feed::within(alloc, limits);
    // The feed stops counting once it fails, so this loop counts the bytes itself, and reads on to
    // the source's end: `Device` and `TooLarge` come before `Memory`.
    let mut left = limits.bytes;
    let mut buffer = [0u8; 8_192];
    loop {
        // Asks for no byte after the first one too many.
        let room = left.saturating_add(1).min(PIECE) as usize;
        match source.take(&mut buffer[..room]) {
            Err(_) => return Err(ReadFault::Device),
            Ok(0) => return feed.end(),
            Ok(n) => {
                let _answer = feed.piece(&buffer[..n]);
                if n as u64 > left {
                    return Err(ReadFault::TooLarge);
                }
                left -= n as u64;
            }
        }
    }
}
