//! Refusals if memory runs out, after which the next try may succeed. A test shows something only
//! if an allocation fails: `rt try --test --fail-alloc N` fails the N-th of each test.

use super::{MANY, print};
use crate::helpers::sink_at_last;
use st_core::{AddFault, ByteSink, Draft, MemorySink, OpenFault, Pid, Recorder, Sequence};

#[test]
fn a_refused_push_gives_its_item_back(rt: HostRuntime) {
    let mut numbers = Sequence::new(rt.alloc());
    for n in 0..MANY {
        let before = numbers.len();
        if let Err(failed) = numbers.push(n) {
            assert!(rt; failed.value == n && numbers.len() == before);
            assert!(rt; numbers.push(n).is_ok());
        }
    }
    assert!(rt; numbers.len() as u64 == MANY);
}

#[test]
fn a_refused_process_or_event_may_be_added_again(rt: HostRuntime) {
    let mut draft = Draft::new(rt.alloc());
    for number in 0..100 {
        let pid = Pid::new(number);
        if let Err(fault) = draft.open(pid) {
            assert!(rt; fault == OpenFault::Memory);
            assert!(rt; draft.open(pid).is_ok());
        }
        if let Err(fault) = draft.add(pid, print(pid)) {
            assert!(rt; fault == AddFault::Memory && draft.events(pid).is_empty());
            assert!(rt; draft.add(pid, print(pid)).is_ok());
        }
    }
    assert!(rt; draft.pids().len() == 100);
}

#[test]
fn a_sink_without_memory_is_refused(rt: HostRuntime) {
    assert!(rt; MemorySink::new(rt.alloc(), usize::MAX, None).is_err());
}

#[test]
fn a_recorder_lets_nothing_through_unrecorded(rt: HostRuntime) {
    let sink = sink_at_last(&rt, rt.alloc(), 100);
    let mut recorder = Recorder::new(rt.alloc(), sink);
    let passed = recorder.put(b"yes\n").is_ok();
    assert!(rt; recorder.bytes().is_empty() != passed);
    assert!(rt; recorder.put(b"").is_ok() == passed);
}
