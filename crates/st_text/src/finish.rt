//! Finishes a text whose lines are all good: returns its bundle, or the fault that only the whole
//! text shows.

ghost use Rattle.std.specs.Prelude.{◌≡◌, ◌<◌, ◌^◌, ◌&&◌, not, List, length};
ghost use Rattle.st_text.specs.declared.line.Line.{Line};
ghost use Rattle.st_text.specs.Parts.Finish.{event_line_number, Finishes};
ghost use Rattle.st_text.specs.Parts.Builder.{IsBuilt};

use crate::builder::BundleBuilder;
use crate::bundle::Bundle;
use crate::fault::ReadFault;
use st_core::{Draft, Pid};

/// Returns the number of an event's line, if it is below 2^64.
fn event_line(draft: &Draft, pid: Pid, index: u64) -> u64
    ensures { event_line_number draft.now pid index < 2 ^ 64
        → result ≡ event_line_number draft.now pid index }
{
    let mut n: u64 = 2;
    for p in draft.pids() {
        if *p == pid {
            return n.saturating_add(1).saturating_add(index);
        }
        n = n
            .saturating_add(1)
            .saturating_add(draft.events(*p).len() as u64);
    }
    n
}

/// Returns whether the header is 2 though no line names a pid of another node. A function of its
/// own, so that its caller's proof has one path and not two.
fn is_needless(wide: bool, remote: bool) -> bool
    ensures { result ≡ (wide && not remote) }
{
    wide && !remote
}

/// Returns the bundle of the lines, or the fault that only all of them show.
pub(crate) fn finish(builder: BundleBuilder) -> Result<Bundle, ReadFault>
    ensures { (ls : List Line) → IsBuilt builder ls → length ls < 2 ^ 64
        → Finishes ls builder result }
{
    let BundleBuilder {
        alloc: _,
        wide,
        remote,
        draft,
        acts,
        last: _,
        lines: _,
        processes,
        events,
    } = builder;
    if is_needless(wide, remote) {
        return Err(ReadFault::Line(1));
    }
    match draft.close() {
        Err(unlisted) => {
            let n = event_line(&unlisted.draft, unlisted.pid, unlisted.index);
            Err(ReadFault::Unknown(n))
        }
        Ok(streams) => match Bundle::new(streams, acts) {
            Err(unknown) => {
                let first = 3 + processes + events;
                Err(ReadFault::Unknown(first.saturating_add(unknown.n)))
            }
            Ok(bundle) => Ok(bundle),
        },
    }
}
