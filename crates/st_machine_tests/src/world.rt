//! A world after memory ran out. Clauses say what a step returns and leaves.

use crate::helpers::same;
use st_core::{Act, Component, Label};
use st_samples::{p30, p31};
use st_world::{NewFault, World};
use std::alloc::Global;
use std::process::Abort;
use std::test::Fail;

/// Makes a world of two processes, the first with a token. If memory runs out, the first try says
/// so and the second one succeeds.
fn two_at_last(rt: &impl Abort, alloc: Global) -> Result<World<9>, Fail> {
    let pids = [p30(), p31()];
    let mut world = match World::new(alloc, &pids) {
        Ok(world) => world,
        Err(fault) => {
            same(rt, &fault, &NewFault::Memory);
            World::new(alloc, &pids)?
        }
    };
    world.step(&Act::Set(p30(), Component::Label(Label(1))))?;
    Ok(world)
}

/// Sends a message. If memory runs out, the second try succeeds.
fn send_at_last(rt: &impl Abort, world: &mut World<9>) {
    let act = Act::Send(p30(), p31(), 7);
    if world.step(&act).is_err() {
        assert!(rt; world.step(&act).is_ok());
    }
}

// Shows that a step may be asked again, if the test runs with an allocation that fails.
#[test]
fn a_step_without_memory_may_be_asked_again(rt: HostRuntime) -> Result<(), Fail> {
    let mut world = two_at_last(&rt, rt.alloc())?;
    for _ in 0..9 {
        send_at_last(&rt, &mut world);
    }
    same(&rt, &world.clock(p30()), &Some(9));
    Ok(())
}
