//! Ranks on threads turn side by side, and absorb during the exchange.
use crate::gates::TestGate;
use crate::watched::{Deed, Hands, Watch, is_counted};
use rank_group::Via;
use std::sync::atomic::Ordering;
use std::test::Fail;

#[test]
fn absorbs_while_ranks_turn(rt: HostRuntime) -> Result<(), Fail> {
    let watch = Watch::new();
    let lists: [&[u32]; 2] = [&[1, 1], &[]];
    let counted = is_counted(
        &rt,
        rt.alloc(),
        &lists,
        &watch,
        Deed::Absorbs,
        &TestGate::Holds(&watch),
        Hands::Threads,
        Via::Convey,
        &[0, 2],
    )?;
    assert!(rt; counted);
    assert!(rt; !watch.noted.load(Ordering::SeqCst));
    Ok(())
}

#[test]
fn two_ranks_look_for_each_other(rt: HostRuntime) -> Result<(), Fail> {
    let watch = Watch::new();
    let lists: [&[u32]; 2] = [&[1], &[0]];
    let counted = is_counted(
        &rt,
        rt.alloc(),
        &lists,
        &watch,
        Deed::Looks,
        &TestGate::Open,
        Hands::Threads,
        Via::Convey,
        &[1, 1],
    )?;
    assert!(rt; counted);
    assert!(rt; !watch.noted.load(Ordering::SeqCst));
    Ok(())
}
