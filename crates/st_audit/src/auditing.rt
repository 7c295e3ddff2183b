//! The auditor: finds a certificate for streams, or a reason.

ghost use Rattle.std.specs.Prelude.{◌≡◌, ◌⊎◌, ℕ, IfOk, IfSome, List, None, [], Some};
ghost use Rattle.st_check.specs.Answers.{verdict_of};
ghost use Rattle.st_check.specs.Progress.{HasPassed};
ghost use Rattle.st_core.specs.Run.{pids_of, Stream};
ghost use Rattle.st_core.specs.Streams.{IsStreams};
ghost use Rattle.st_core.specs.Verdict.{IsVerdict};
ghost use Rattle.std.specs.Option.{ForSome};
ghost use Rattle.st_order.specs.Order.{IsOrder};
ghost use Rattle.st_pair.specs.Final.{RulesOut};
ghost use Rattle.st_audit.specs.Construction.{end_of, IsAudit, IsFoundAt, Judged};
ghost use Rattle.st_audit.specs.Findings.{fault_of, unfit_by, HandsOn, IsFinding, HasCertificate};
ghost use Rattle.st_audit.specs.Progress.{ArePrepared};
ghost use Rattle.st_plan.specs.Plain.{IsPlain};
ghost use Rattle.st_plan.specs.Full.{IsFullyShown};

use crate::construction::{Construction, Halt};
use crate::finding::{AuditFault, Finding, Reason};
use st_check::{Comparison, Verdict, check};
use st_core::{Act, Pid, Sequence, Streams};
use st_order::{Item, order};
use st_pair::{PairFault, Pairing, pair};
use st_plan::Everything;
use std::alloc::Global;
use std::thread::Threads;

/// Returns the finding with a reason of pairing; none if memory ran out.
pub fn unfit_by(fault: PairFault) -> Option<Finding>
    ensures { result ≡ unfit_by fault }
{
    match fault {
        PairFault::Memory => None,
        PairFault::PrevNotBefore(pid, index) => {
            Some(Finding::Unfit(pid, index, Reason::PrevNotBefore))
        }
        PairFault::NotRising(pid, index, other) => {
            Some(Finding::Unfit(pid, index, Reason::NotRising(other)))
        }
        PairFault::Repeated(pid, index, first, place) => {
            Some(Finding::Unfit(pid, index, Reason::Repeated(first, place)))
        }
        PairFault::Mismatch(pid, index, sender, place) => {
            Some(Finding::Unfit(pid, index, Reason::Mismatch(sender, place)))
        }
    }
}

/// Makes the finding from the verdict on acts. `place` is that of the last item that was tried.
fn finding_by(acts: Sequence<Act>, verdict: Verdict, place: (Pid, u64)) -> Finding
    ensures { (top : ℕ) (streams : List Stream) →
        IsVerdict top streams acts (verdict_of verdict) →
        IsFoundAt top streams (Judged acts (Some place)) result }
{
    match verdict {
        Verdict::Yes(pairs) => Finding::Fits(acts, pairs),
        verdict => Finding::Unfit(place.0, place.1, Reason::NotReplayed(acts, verdict)),
    }
}

fn judge<const TOP: u64>(
    alloc: Global,
    streams: &Streams,
    acts: Sequence<Act>,
    place: (Pid, u64),
) -> Result<Finding, AuditFault>
    ensures exact { IfOk result (IsFoundAt TOP streams.now (Judged acts (Some place))) }
{
    let Ok(verdict) = check::<TOP>(alloc, streams, acts.as_slice()) else {
        return Err(AuditFault::Memory);
    };
    Ok(finding_by(acts, verdict, place))
}

/// Makes the finding after each item got its acts; `place` is that of the last item. If the acts
/// were compared with the streams all the way, their verdict is known.
fn finding_at_end<const TOP: u64>(
    alloc: Global,
    streams: &Streams,
    acts: Sequence<Act>,
    comparison: Option<Comparison>,
    place: (Pid, u64),
) -> Result<Finding, AuditFault>
    requires { IfSome comparison (HasPassed TOP streams.now acts) }
    ensures exact { IfOk result (IsFoundAt TOP streams.now (Judged acts (Some place))) }
{
    match comparison {
        Some(comparison) => Ok(finding_by(acts, comparison.into_verdict(streams), place)),
        None => judge::<TOP>(alloc, streams, acts, place),
    }
}

/// Makes the finding of streams without events. Its certificate is an empty list of acts.
fn finding_of_nothing<const TOP: u64>(
    alloc: Global,
    streams: &Streams,
) -> Result<Finding, AuditFault>
    requires { IsOrder streams.now [] }
    ensures exact { IfOk result (IsFoundAt TOP streams.now (Judged [] None)) }
{
    let acts = Sequence::new(alloc);
    match check::<TOP>(alloc, streams, acts.as_slice()) {
        Err(_) => Err(AuditFault::Memory),
        Ok(Verdict::Yes(pairs)) => Ok(Finding::Fits(acts, pairs)),
        // There is no act that stops, and no event that is left.
        Ok(Verdict::Stuck(_)) => unreachable!(),
        Ok(Verdict::Differs(_)) => unreachable!(),
        Ok(Verdict::Left(_)) => unreachable!(),
    }
}

/// Makes the finding of streams that pairing accepts, whose items are `items`, in their order.
fn finding_in_order<const TOP: u64>(
    alloc: Global,
    streams: &Streams,
    pids: &[Pid],
    pairing: &Pairing,
    items: &[Item],
) -> Result<Finding, AuditFault>
    requires pids { pids.now ≡ pids_of streams.now }
    requires prepared { ArePrepared streams.now pairing.now items.now }
    ensures exact { IfOk result (IsFoundAt TOP streams.now (end_of TOP streams.now items.now)) }
{
    if items.is_empty() {
        return finding_of_nothing::<TOP>(alloc, streams);
    }
    let end = items[items.len() - 1];
    let Ok(mut construction) = Construction::<TOP>::compared(alloc, streams) else {
        return Err(AuditFault::Memory);
    };
    match construction.open(streams, pids) {
        Ok(()) => {}
        Err(Halt::Memory) => return Err(AuditFault::Memory),
        Err(_) => return judge::<TOP>(alloc, streams, construction.into_acts(), end.place()),
    }
    let mut plan = Vec::new(alloc);
    for number in 0..items.len() {
        let (pid, index) = items[number].place();
        match construction.append(streams, &mut plan, pairing, &Everything, items, number) {
            Ok(()) => {}
            Err(Halt::Memory) => return Err(AuditFault::Memory),
            Err(Halt::Uncaused) => return Ok(Finding::Unfit(pid, index, Reason::Uncaused)),
            Err(Halt::TooWide) => return Ok(Finding::Unfit(pid, index, Reason::TooWide)),
            Err(Halt::Stopped) => {
                return judge::<TOP>(alloc, streams, construction.into_acts(), (pid, index));
            }
        }
    }
    let (acts, comparison) = construction.into_parts();
    finding_at_end::<TOP>(alloc, streams, acts, comparison, end.place())
}

fn finding_of<const TOP: u64>(
    rt: &(impl Threads + Sync),
    alloc: Global,
    streams: &Streams,
) -> Result<Finding, AuditFault>
    ensures streams { IsStreams streams.now }
    ensures exact { IfOk result (IsAudit TOP streams.now) }
{
    let pids = streams.pids();
    let pairing = match pair(alloc, streams) {
        Ok(pairing) => pairing,
        Err(fault) => {
            return match unfit_by(fault) {
                None => Err(AuditFault::Memory),
                Some(finding) => Ok(finding),
            };
        }
    };
    let Ok(items) = order(rt, alloc, streams, &pairing) else {
        return Err(AuditFault::Memory);
    };
    finding_in_order::<TOP>(alloc, streams, pids, &pairing, items.as_slice())
}

/// Finds a certificate for the streams, or an event and the reason why none was found. The acts
/// are built item by item, stepped in a world that begins at zero clocks, and compared with the
/// streams as the checker does, so the checker accepts each certificate. Fails only if memory runs
/// out.
///
/// It sorts on several threads, whose number doesn't change the result.
pub fn audit<const TOP: u64>(
    rt: &(impl Threads + Sync),
    alloc: Global,
    streams: &Streams,
) -> Result<Finding, AuditFault>
    ensures found { IfOk result (IsFinding TOP streams.now) }
    ensures handed_on { IfOk result (HandsOn streams.now) }

    // Unless memory runs out, the finding is the one that the streams determine.
    ensures exact { IfOk result (IsAudit TOP streams.now) }

    // No acts show streams that have pairing's first reason, and no acts without a reset show
    // streams that have any of its four.
    ensures rules_out { IfOk result (λ found. ForSome (fault_of found) (RulesOut streams.now)) }

    // It finds a certificate if the streams are plain, or if a run without a reset has reported
    // all of itself.
    ensures certain { IfOk result (λ found.
        IsPlain TOP streams.now ⊎ IsFullyShown TOP streams.now → HasCertificate found) }
{
    finding_of::<TOP>(rt, alloc, streams)
}
