//! The command `drive`: what the acts of the input's bundle come to if each process makes its own,
//! in order, on a thread of its own. The events in the input are ignored.

ghost use Rattle.std.specs.Prelude.{◌≡◌, ◌≢◌, ◌<◌, ◌∷◌, ◌++◌, [], IfOk, OnErr, OnOk, length};
ghost use Rattle.std.specs.Prelude.{replicate, slice_set, slice_index_or};
ghost use Rattle.st_core.specs.Run.{pids_of};
ghost use Rattle.st_text.specs.Contents.{contents};
ghost use Rattle.st_commands.specs.Command.{Delivers, Tells, call};
ghost use Rattle.st_commands.specs.Meaning.{MeansDriven, MeansStray, Performs};
ghost use Rattle.st_commands.specs.Parts.{DrivesTo, OfBundle, drive_refused};
ghost use Rattle.st_commands.specs.Recorded.{IsRecorded, scripts_of};
ghost use Rattle.st_text.specs.Limits.{standard};

use crate::answer::{tell_bundle, tell_fault, tell_line};
use crate::check::TOP;
use crate::lines::OutputLine;
use st_core::{Act, ByteSink, ByteSource, Sequence, Streams};
use st_runtime::{DriveFault, OpenGate, drive};
use st_text::{Bundle, Limits, ReadFault, read_within};
use std::alloc::{AllocError, Global};
use std::sync::Wait;
use std::thread::Threads;

/// The greatest rank that an entry of a log of the program can have.
const RANKS: u64 = u64::MAX;

fn empty_scripts(alloc: Global, count: usize) -> Result<Vec<Sequence<Act>>, AllocError>
    ensures { IfOk result (λ scripts. scripts.items ≡ replicate count []) }
{
    let mut scripts = Vec::new(alloc);
    for _ in 0..count {
        scripts.push(Sequence::new(alloc))?;
    }
    Ok(scripts)
}

/// Puts the act at the end of the script at this place.
fn push_at(scripts: &mut [Sequence<Act>], place: usize, act: Act) -> Result<(), AllocError>
    requires { place < length scripts.old }
    ensures ok { OnOk result
        (scripts.new ≡ slice_set scripts.old place
        (slice_index_or scripts.old place [] ++ act ∷ [])) }
    ensures err { OnErr result (scripts.new ≡ scripts.old) }
{
    let script = &mut scripts[place];
    script.push(act)?;
    Ok(())
}

/// The acts of each process of these streams, in order. The acts are taken over, so that they are
/// let go before the scripts are driven.
fn scripts_of(
    alloc: Global,
    streams: &Streams,
    acts: Sequence<Act>,
) -> Result<Vec<Sequence<Act>>, AllocError>
    ensures { IfOk result (λ scripts. scripts.items ≡ scripts_of (pids_of streams.now) acts) }
{
    let mut scripts = empty_scripts(alloc, streams.pids().len())?;
    for act in acts.as_slice() {
        if let Some(place) = streams.place_of(act.actor()) {
            push_at(&mut scripts, place, *act)?;
        }
    }
    Ok(scripts)
}

/// Writes why scripts weren't driven, and returns its status.
fn tell_undriven<W: ByteSink>(writer: &mut W, fault: DriveFault) -> u8
    requires { fault ≢ DriveFault.NotRising }
    ensures { Delivers (call W.ByteSink writer.old writer.new) (drive_refused fault) result }
{
    match fault {
        DriveFault::Memory => tell_fault(writer, ReadFault::Memory),
        DriveFault::Act(pid, n, _) => tell_line(writer, OutputLine::ActFault(pid, n), 1),
        DriveFault::Join(_) => tell_line(writer, OutputLine::JoinFault, 4),
        DriveFault::Thread => tell_line(writer, OutputLine::ThreadFault, 4),
        DriveFault::NotRising => unreachable!(),
    }
}

/// Drives the acts of the streams' processes, writes the record or why there is none, and returns
/// the status.
fn drive_acts<H: Threads + Wait + Sync, W: ByteSink>(
    rt: &H,
    alloc: Global,
    streams: &Streams,
    acts: Sequence<Act>,
    writer: &mut W,
) -> u8
    ensures { Tells (call W.ByteSink writer.old writer.new) (DrivesTo streams.now acts) result }
{
    let Ok(scripts) = scripts_of(alloc, streams, acts) else {
        return tell_fault(writer, ReadFault::Memory);
    };
    match drive::<TOP, RANKS, _, _>(rt, alloc, streams.pids(), scripts, &OpenGate) {
        Ok(record) => tell_bundle(writer, &record.streams, record.acts.as_slice()),
        Err(fault) => tell_undriven(writer, fault),
    }
}

/// Does what `drive_acts` does with a bundle's acts, or writes that it has none.
fn drive_bundle<H: Threads + Wait + Sync, W: ByteSink>(
    rt: &H,
    alloc: Global,
    bundle: Bundle,
    writer: &mut W,
) -> u8
    ensures { Tells (call W.ByteSink writer.old writer.new)
        (OfBundle DrivesTo (contents bundle)) result }
{
    let Bundle { streams, acts } = bundle;
    match acts {
        Some(acts) => drive_acts(rt, alloc, &streams, acts, writer),
        None => tell_line(writer, OutputLine::NoActs, 2),
    }
}

/// Reads a bundle within the standard limits, drives the acts of each process on a thread of its
/// own, and writes the bundle of the one run that they made, with status 0. Faulty input is 2; if
/// memory runs out, a thread can't be started, or a reader or a writer fails, it is 4. An act that
/// is refused would be status 1 (`MeansStray`). It waits for locks and for the threads.
pub fn run_drive<H: Threads + Wait + Sync, R: ByteSource, W: ByteSink>(
    rt: &H,
    alloc: Global,
    reader: &mut R,
    writer: &mut W,
) -> u8
    ensures { Performs standard (call R.ByteSource reader.old reader.new)
        (call W.ByteSink writer.old writer.new)
        (IsRecorded standard) (MeansDriven standard) (MeansStray standard) result }
{
    match read_within(alloc, reader, Limits::STANDARD) {
        Ok(bundle) => drive_bundle(rt, alloc, bundle, writer),
        Err(fault) => tell_fault(writer, fault),
    }
}
