//! Ranks of as many slots as a long queue has, and of more slots than there is memory for.

use crate::helpers::same;
use st_arena::Ranks;
use std::test::Fail;

#[test]
fn a_hundred_thousand_slots_are_live(rt: HostRuntime) -> Result<(), Fail> {
    let ranks = Ranks::new(rt.alloc(), 100_000, 100_000)?;
    same(&rt, &ranks.live(), &100_000);
    Ok(())
}

// No machine has memory for more than 2^58 slots.
#[test]
fn too_many_slots_are_refused(rt: HostRuntime) {
    assert!(rt; Ranks::new(rt.alloc(), usize::MAX, 0).is_err());
    assert!(rt; Ranks::new(rt.alloc(), (1 << 58) + 1, 0).is_err());
}
