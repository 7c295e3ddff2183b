//! Finds pids that the streams don't list.

ghost use Rattle.std.specs.Prelude.{◌≡◌, [], false, IfOk, IfSome};
ghost use Rattle.std.specs.List.Sorted.{IsPermutation};
ghost use Rattle.st_core.specs.Streams.{lists};
ghost use Rattle.lack_search.specs.Unlisted.{pid_after, AreUnlisted};

use lack_needs::is_unlisted;
use st_core::{Pid, Streams};
use std::alloc::{AllocError, Global};

/// Returns the pid that is tried after another: numbers fall on a node, then comes the next node,
/// and node 0 after the last.
fn pid_after(pid: Pid) -> Pid
    ensures { result ≡ pid_after pid }
{
    let number = pid.number();
    if number == 0 {
        return Pid::on(pid.node().wrapping_add(1), u16::MAX);
    }
    Pid::on(pid.node(), number - 1)
}

/// The unlisted pids that were found so far.
#[derive(Drop)]
pub(crate) struct UnlistedPids {
    pids: Vec<Pid>,
    /// The pid that is tried next.
    next: Pid,
}

impl UnlistedPids {
    /// Returns no pids yet. The search goes down from the greatest number on the node of the least
    /// listed pid, since a node gives out low numbers first.
    pub(crate) fn new(alloc: Global, streams: &Streams) -> UnlistedPids
        ensures { result.pids.items ≡ [] }
    {
        let node = match streams.pids().first() {
            None => 0,
            Some(pid) => pid.node(),
        };
        UnlistedPids {
            pids: Vec::new(alloc),
            next: Pid::on(node, u16::MAX),
        }
    }

    /// Finds the next unlisted pid; `None` if the streams list all pids.
    fn find_next(&mut self, streams: &Streams) -> Option<Pid>
        ensures unlisted { IfSome result (λ pid. lists streams.now pid ≡ false) }
        ensures pids { self.new.pids ≡ self.old.pids }
    {
        for _ in 0..=u32::MAX {
            let pid = self.next;
            self.next = pid_after(pid);
            if is_unlisted(streams, pid) {
                return Some(pid);
            }
        }
        None
    }

    /// Returns the pid at `number` among those found, or finds the next one if there are no more;
    /// `None` if the streams list all pids.
    pub(crate) fn nth(
        &mut self,
        streams: &Streams,
        number: usize,
    ) -> Result<Option<Pid>, AllocError>
        ensures pid { AreUnlisted streams.now self.old.pids.items
            → IfOk result (λ found. IfSome found (λ pid. lists streams.now pid ≡ false)) }
        ensures pids { AreUnlisted streams.now self.old.pids.items
            → AreUnlisted streams.now self.new.pids.items }
    {
        if number < self.pids.len() {
            return Ok(Some(self.pids[number]));
        }
        let Some(pid) = self.find_next(streams) else {
            return Ok(None);
        };
        self.pids.push(pid)?;
        Ok(Some(pid))
    }

    /// Returns the pids that were found, by rising pid.
    pub(crate) fn into_rising(self) -> Result<Vec<Pid>, AllocError>
        ensures { IfOk result (λ pids. IsPermutation self.pids.items pids.items) }
    {
        let UnlistedPids { mut pids, .. } = self;
        pids.sort()?;
        Ok(pids)
    }
}
