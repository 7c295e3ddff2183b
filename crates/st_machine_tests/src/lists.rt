//! Lists after memory ran out.

ghost use Rattle.std.specs.Prelude.{◌≡◌, ◌<◌, length, IfOk};

use crate::helpers::same;
use st_arena::Lists;
use std::alloc::{AllocError, Global};
use std::process::Abort;
use std::test::Fail;

/// Makes two empty lists. If memory runs out, the second try succeeds.
fn two_at_last(alloc: Global) -> Result<Lists<u64>, AllocError>
    ensures { IfOk result (λ arena. length arena.lists ≡ 2) }
{
    match Lists::new(alloc, 2) {
        Ok(lists) => Ok(lists),
        Err(_) => Lists::new(alloc, 2),
    }
}

// Adds an item to list 1. If memory runs out, the second try succeeds.
fn push_at_last<R: Abort>(rt: &R, lists: &mut Lists<u64>, item: u64)
    requires { 1 < length lists.old.lists }
    ensures { length lists.new.lists ≡ length lists.old.lists }
{
    if let Err(refused) = lists.push_back(1, item) {
        assert!(rt; lists.push_back(1, refused.value).is_ok());
    }
}

// No machine has room for `usize::MAX` items. The test shows that a push that failed may be asked
// again if it runs with an allocation that fails.
#[test]
fn a_push_without_memory_may_be_asked_again(rt: HostRuntime) -> Result<(), Fail> {
    let mut lists = two_at_last(rt.alloc())?;
    assert!(rt; lists.reserve(usize::MAX).is_err());
    for item in 0..100 {
        push_at_last(&rt, &mut lists, item);
    }
    same(&rt, &(lists.len(0), lists.len(1)), &(0, 100));
    Ok(())
}

/// Pushes the items 0, 1 and so on, `count` in all, onto list 1.
fn fill<R: Abort>(rt: &R, lists: &mut Lists<u64>, count: u64)
    requires { 1 < length lists.old.lists }
    ensures { length lists.new.lists ≡ length lists.old.lists }
{
    for item in 0..count {
        assert!(rt; lists.push_back(1, item).is_ok());
    }
}

// The lists have room for the items before the first push, so only memory for a ladder can be
// refused, if the test runs with an allocation that fails.
#[test]
fn a_list_without_memory_keeps_its_items(rt: HostRuntime) -> Result<(), Fail> {
    let mut lists = two_at_last(rt.alloc())?;
    if lists.reserve(1000).is_err() {
        lists.reserve(1000)?;
    }
    fill(&rt, &mut lists, 1000);
    for item in 0..300 {
        same(&rt, &lists.take_at(1, 400), &Some(400 + item));
    }
    fill(&rt, &mut lists, 300);
    same(&rt, &lists.get(1, 999).copied(), &Some(299));
    same(&rt, &lists.get(1, 450).copied(), &Some(750));
    Ok(())
}
