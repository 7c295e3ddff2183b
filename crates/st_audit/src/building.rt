//! Builds acts that show those events of streams that marks choose.

ghost use Rattle.std.specs.Prelude.{◌≡◌, IfOk};
ghost use Rattle.st_core.specs.Run.{pids_of};
ghost use Rattle.st_plan.specs.Plain.{IsPlain};
ghost use Rattle.st_audit.specs.Findings.{ShowTold};
ghost use Rattle.st_audit.specs.Progress.{ArePrepared};

use crate::construction::{Construction, Halt};
use st_core::{Act, Pid, Sequence, Streams};
use st_order::{Item, order};
use st_pair::{PairFault, Pairing, pair};
use st_plan::Tells;
use std::alloc::{AllocError, Global};
use std::thread::Threads;

/// Builds the acts of all items, in their order; none if an item halts the construction.
fn build<const TOP: u64, M: Tells>(
    alloc: Global,
    streams: &Streams,
    pids: &[Pid],
    pairing: &Pairing,
    marks: &M,
    items: &[Item],
) -> Result<Option<Sequence<Act>>, AllocError>
    requires pids { pids.now ≡ pids_of streams.now }
    requires prepared { ArePrepared streams.now pairing.now items.now }
    ensures { IsPlain TOP streams.now → IfOk result (ShowTold TOP streams.now (M.marks marks.now)) }
{
    let Ok(mut construction) = Construction::<TOP>::new(alloc, streams, None) else {
        return Err(AllocError);
    };
    match construction.open(streams, pids) {
        Ok(()) => {}
        Err(Halt::Memory) => return Err(AllocError),
        Err(_) => return Ok(None),
    }
    let mut plan = Vec::new(alloc);
    for number in 0..items.len() {
        match construction.append(streams, &mut plan, pairing, marks, items, number) {
            Ok(()) => {}
            Err(Halt::Memory) => return Err(AllocError),
            Err(Halt::Uncaused) => return Ok(None),
            Err(Halt::TooWide) => return Ok(None),
            Err(Halt::Stopped) => return Ok(None),
        }
    }
    Ok(Some(construction.into_acts()))
}

/// Builds acts without a reset that show those events of the streams that are told, if the streams
/// are plain. For other streams it may return none, or acts that show something else. Fails only
/// if memory runs out.
///
/// It sorts on several threads, whose number doesn't change the result.
pub fn told_acts<const TOP: u64, M: Tells>(
    rt: &(impl Threads + Sync),
    alloc: Global,
    streams: &Streams,
    marks: &M,
) -> Result<Option<Sequence<Act>>, AllocError>
    ensures { IsPlain TOP streams.now → IfOk result (ShowTold TOP streams.now (M.marks marks.now)) }
{
    let pids = streams.pids();
    let pairing = match pair(alloc, streams) {
        Ok(pairing) => pairing,
        Err(PairFault::Memory) => return Err(AllocError),
        Err(_) => return Ok(None),
    };
    let items = order(rt, alloc, streams, &pairing)?;
    build::<TOP, M>(alloc, streams, pids, &pairing, marks, items.as_slice())
}
