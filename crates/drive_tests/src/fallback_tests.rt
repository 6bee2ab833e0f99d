//! More workers than processors. They fall back to the caller, and a rank that the gate holds is
//! still served.
use crate::gates::TestGate;
use crate::watched::{Deed, Hands, Watch, is_counted};
use rank_group::Via;
use std::sync::atomic::Ordering;
use std::test::Fail;

/// The gate holds rank 0 until rank 1 was polled, and then until rank 1 absorbed, which may be
/// after the fallback.
#[test]
fn held_rank_after_the_fallback(rt: HostRuntime) -> Result<(), Fail> {
    let sends: &[u32] = &[1, 1];
    let none: &[u32] = &[];
    let lists = [
        sends, none, none, none, none, none, none, none, none, none, none, none, none, none, none,
        none,
    ];
    let watch = Watch::new();
    let counted = is_counted(
        &rt,
        rt.alloc(),
        &lists,
        &watch,
        Deed::Absorbs,
        &TestGate::Holds(&watch),
        Hands::Workers(16, 16),
        Via::Convey,
        &[0, 2, 0, 0, 0, 0, 0, 0, 0, 0, 0, 0, 0, 0, 0, 0],
    )?;
    assert!(rt; counted);
    assert!(rt; !watch.noted.load(Ordering::SeqCst));
    Ok(())
}
