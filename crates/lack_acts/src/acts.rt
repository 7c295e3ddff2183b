//! Writes acts for a completion, which it first changes so that few silent acts are needed.

ghost use Rattle.std.specs.Prelude.{IfOk};
ghost use Rattle.st_core.specs.Run.{pids_of};
ghost use Rattle.st_plan.specs.Marks.{all_streams};
ghost use Rattle.lack_acts.specs.Acts.{RunsWithin};

use crate::climbs::with_shared_climbs;
use crate::homes::with_near_homes;
use crate::lean::{LeanFault, acts_of};
use lack_needs::Completion;
use st_core::{Act, Sequence, Streams};
use std::alloc::Global;
use std::thread::Threads;

/// Returns acts for the told events, after letting processes share climbs.
fn shared_acts<const TOP: u64>(
    rt: &(impl Threads + Sync),
    alloc: Global,
    streams: &Streams,
    marks: &[Sequence<bool>],
    most: u64,
) -> Result<Sequence<Act>, LeanFault>
    ensures { IfOk result (RunsWithin TOP most (pids_of streams.now)) }
{
    let Ok(found) = with_shared_climbs(alloc, streams, marks) else {
        return Err(LeanFault::Memory);
    };
    match found {
        None => acts_of::<TOP>(rt, alloc, streams, marks, most),
        Some(more) => {
            let acts = acts_of::<TOP>(rt, alloc, &more.streams, &more.marks, most)?;
            Ok(acts)
        }
    }
}

/// Returns acts for the told events of a completion, at most `most`, with few changes of tokens
/// and few silent acts. That they show these events isn't proved: `lack_decide` lets the checker
/// judge them.
///
/// It sorts on several threads; the result doesn't depend on their number.
pub fn lean_acts<const TOP: u64>(
    rt: &(impl Threads + Sync),
    alloc: Global,
    completion: &Completion,
    most: u64,
) -> Result<Sequence<Act>, LeanFault>
    ensures { IfOk result (RunsWithin TOP most (pids_of (all_streams completion.now.wholes))) }
{
    let streams = completion.streams();
    let marks = completion.marks();
    let Ok(found) = with_near_homes(alloc, streams, marks) else {
        return Err(LeanFault::Memory);
    };
    match found {
        None => {
            let acts = shared_acts::<TOP>(rt, alloc, streams, marks, most)?;
            Ok(acts)
        }
        Some(more) => {
            let acts = shared_acts::<TOP>(rt, alloc, &more.streams, &more.marks, most)?;
            Ok(acts)
        }
    }
}
