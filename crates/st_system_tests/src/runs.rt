//! Scripts that act on one another's processes are driven on threads, and `check` says that their
//! record is one run. A clause of `drive` says that a record is one run with each script in it; no
//! clause says that there is a record.

mod meetings;
mod scripts;

use scripts::{Places, processes, scripts};
use st_check::{CheckFault, Verdict, check};
use st_runtime::{OpenGate, Record, drive};
use std::alloc::Global;
use std::process::Abort;
use std::sync::Wait;
use std::test::Fail;
use std::thread::Threads;

/// The greatest clock and rank of the program.
const MOST: u64 = u64::MAX;

/// Returns whether `check` says yes of the record.
fn is_one_run(alloc: Global, record: &Record) -> Result<bool, CheckFault> {
    let verdict = check::<MOST>(alloc, &record.streams, record.acts.as_slice())?;
    Ok(matches!(verdict, Verdict::Yes(_)))
}

/// Drives busy processes, asserts that they made one run, and returns how many events it reported.
fn assert_driven<R: Threads + Wait + Sync + Abort>(
    rt: &R,
    alloc: Global,
    places: Places,
    acts: u64,
) -> Result<u64, Fail> {
    let pids = processes(alloc, places)?;
    let driven = scripts(alloc, pids.as_slice(), places, acts)?;
    assert_eq!(rt; driven.len(), pids.len());
    let record = drive::<MOST, MOST, R, OpenGate>(rt, alloc, &pids, driven, &OpenGate)?;
    assert!(rt; is_one_run(alloc, &record)?);
    Ok(record.streams.total())
}

#[test]
fn twelve_scripts_of_thousands_of_acts_are_one_run(rt: HostRuntime) -> Result<(), Fail> {
    let places = Places {
        nodes: 2,
        on_each: 6,
    };
    let events = assert_driven(&rt, rt.alloc(), places, 3_000)?;
    // The number of events depends on when the resets and the changes of the tracer came.
    assert!(rt; events > 0);
    Ok(())
}

#[test]
fn four_scripts_of_fifty_acts_are_one_run_each_time(rt: HostRuntime) -> Result<(), Fail> {
    let places = Places {
        nodes: 1,
        on_each: 4,
    };
    for _ in 0..20 {
        assert_driven(&rt, rt.alloc(), places, 50)?;
    }
    Ok(())
}

// No clause says that there is memory for a hundred thousand acts.
#[test]
fn two_scripts_of_fifty_thousand_acts_are_one_run(rt: HostRuntime) -> Result<(), Fail> {
    let places = Places {
        nodes: 2,
        on_each: 1,
    };
    let events = assert_driven(&rt, rt.alloc(), places, 50_000)?;
    assert!(rt; events > 0);
    Ok(())
}
