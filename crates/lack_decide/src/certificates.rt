//! Makes certificates: acts of a completion that the checker accepts.

ghost use Rattle.std.specs.Prelude.{◌≡◌, ◌↔◌, IfErr, IfOk, IfSome, IsTrue};
ghost use Rattle.st_core.specs.Laws.{is_reset, NoReset};
ghost use Rattle.lack_decide.specs.Answers.{IsCertificate};
ghost use Rattle.lack_decide.specs.Bounds.{IsCertificateFault};

use crate::answer::{Certificate, CertificateFault};
use crate::bounds::act_bound;
use lack_acts::{LeanFault, lean_acts};
use lack_needs::Completion;
use st_audit::told_acts;
use st_check::{Verdict, check};
use st_core::{Act, Sequence, Streams};
use std::alloc::{AllocError, Global};
use std::thread::Threads;

fn is_reset(act: &Act) -> bool
    ensures { result ≡ is_reset act.now }
{
    match act {
        Act::Reset(_) => true,
        Act::Send(..)
        | Act::Receive(..)
        | Act::Print(..)
        | Act::PrintAt(..)
        | Act::Set(..)
        | Act::Clear(_)
        | Act::Restore(..)
        | Act::Look(_)
        | Act::Tracer(..) => false,
    }
}

fn has_no_reset(acts: &[Act]) -> bool
    ensures { IsTrue result ↔ NoReset acts.now }
{
    for act in acts {
        if is_reset(act) {
            return false;
        }
    }
    true
}

/// Returns the acts as a certificate if they are at most `most`, none of them is a reset, and the
/// checker says that they show the streams.
fn certify<const TOP: u64>(
    alloc: Global,
    streams: &Streams,
    acts: Sequence<Act>,
    most: u64,
) -> Result<Option<Certificate>, AllocError>
    ensures { IfOk result (λ some. IfSome some (IsCertificate TOP streams.now most)) }
{
    if acts.len() as u64 > most || !has_no_reset(acts.as_slice()) {
        return Ok(None);
    }
    match check::<TOP>(alloc, streams, acts.as_slice()) {
        Err(_) => Err(AllocError),
        Ok(Verdict::Yes(pairs)) => Ok(Some(Certificate { acts, pairs })),
        Ok(_) => Ok(None),
    }
}

/// Returns the lean acts as a certificate, if they serve.
fn certify_lean<const TOP: u64>(
    rt: &(impl Threads + Sync),
    alloc: Global,
    streams: &Streams,
    completion: &Completion,
    most: u64,
) -> Result<Option<Certificate>, AllocError>
    ensures { IfOk result (λ some. IfSome some (IsCertificate TOP streams.now most)) }
{
    match lean_acts::<TOP>(rt, alloc, completion, most) {
        Ok(acts) => certify::<TOP>(alloc, streams, acts, most),
        Err(LeanFault::Memory) => Err(AllocError),
        Err(LeanFault::TooMany | LeanFault::Stopped) => Ok(None),
    }
}

/// Returns the acts of the auditor's construction as a certificate, if they serve. It builds none
/// if more than 1,000 counts are missing before one event, or 1,000,000 in all.
fn certify_construction<const TOP: u64>(
    rt: &(impl Threads + Sync),
    alloc: Global,
    streams: &Streams,
    completion: &Completion,
    most: u64,
) -> Result<Option<Certificate>, AllocError>
    ensures { IfOk result (λ some. IfSome some (IsCertificate TOP streams.now most)) }
{
    match told_acts::<TOP, Completion>(rt, alloc, completion.streams(), completion)? {
        None => Ok(None),
        Some(acts) => certify::<TOP>(alloc, streams, acts, most),
    }
}

/// Returns a certificate of the lean acts, or of those of the construction if the lean ones don't
/// serve.
fn certify_either<const TOP: u64>(
    rt: &(impl Threads + Sync),
    alloc: Global,
    streams: &Streams,
    completion: &Completion,
    most: u64,
) -> Result<Option<Certificate>, AllocError>
    ensures { IfOk result (λ some. IfSome some (IsCertificate TOP streams.now most)) }
{
    match certify_lean::<TOP>(rt, alloc, streams, completion, most)? {
        None => certify_construction::<TOP>(rt, alloc, streams, completion, most),
        lean => Ok(lean),
    }
}

/// Returns why a completion has no certificate, if no acts that were tried serve.
fn fault_of(completion: &Completion, most: u64) -> CertificateFault
    ensures { IsCertificateFault completion.now.wholes most result }
{
    if act_bound(completion.streams()) > most {
        CertificateFault::TooManyActs
    } else {
        CertificateFault::Uncertified
    }
}

/// Returns acts of a completion that show the streams, as the checker says.
///
/// A token is changed only if its label, or a flag that decides whether an event is told, is
/// wrong. Silent acts, which report nothing, stand for the untold events of the completion, and
/// for counts that a process passed unreported: each count is a print, or the send of a message
/// that raises the clock of another process, if that saves more than half of the acts there.
///
/// If these acts are more than `most`, or the checker refuses them, which no test has seen, the
/// acts of the auditor's construction are tried.
///
/// It sorts on several threads. That the result doesn't depend on their number is tested and not
/// proved.
pub fn certificate<const TOP: u64>(
    rt: &(impl Threads + Sync),
    alloc: Global,
    streams: &Streams,
    completion: &Completion,
    most: u64,
) -> Result<Certificate, CertificateFault>
    ensures certified { IfOk result (IsCertificate TOP streams.now most) }
    ensures fault { IfErr result (IsCertificateFault completion.now.wholes most) }
{
    match certify_either::<TOP>(rt, alloc, streams, completion, most) {
        Err(AllocError) => Err(CertificateFault::Memory),
        Ok(Some(found)) => Ok(found),
        Ok(None) => Err(fault_of(completion, most)),
    }
}
