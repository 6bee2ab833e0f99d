//! The gate is told of each turn of a rank on a thread before it is made, by its number.
use crate::asking_thread_tests::by_hand;
use crate::gates::TestGate;
use crate::watched::{Deed, Hands, Watch, is_counted};
use rank_group::Via;
use std::sync::atomic::Ordering;
use std::test::Fail;

/// Whether both turns were announced, and neither waited without success.
fn both_went(watch: &Watch) -> bool {
    watch.announced.load(Ordering::SeqCst)
        && watch.let_go.load(Ordering::SeqCst)
        && !watch.noted.load(Ordering::SeqCst)
}

#[test]
fn held_gate(rt: HostRuntime) -> Result<(), Fail> {
    let lists: [&[u32]; 2] = [&[1], &[0, 1]];
    for (held, via) in [
        (0, Via::Convey),
        (1, Via::Convey),
        (0, Via::Exstack),
        (1, Via::Exstack),
    ] {
        let watch = Watch::new();
        let gate = TestGate::Held(&watch, held);
        let counted = is_counted(
            &rt,
            rt.alloc(),
            &lists,
            &watch,
            Deed::Counts,
            &gate,
            Hands::Threads,
            via,
            &[1, 2],
        )?;
        assert!(rt; counted);
        assert!(rt; both_went(&watch));
    }
    Ok(())
}

#[test]
fn held_gate_of_askers(rt: HostRuntime) -> Result<(), Fail> {
    for held in [0, 1] {
        let watch = Watch::new();
        let gate = TestGate::Held(&watch, held);
        assert_eq!(rt; by_hand(&rt, rt.alloc(), &gate)?, Some((1, 2)));
        assert!(rt; both_went(&watch));
    }
    Ok(())
}

/// A run has an epoch of work and one of votes, so that the numbers go on over an epoch's end.
#[test]
fn numbers_over_two_epochs(rt: HostRuntime) -> Result<(), Fail> {
    let all: &[u32] = &[0, 1, 2, 3, 3];
    let lists = [all; 4];
    for (hands, via) in [
        (Hands::Threads, Via::Convey),
        (Hands::Threads, Via::Exstack),
        (Hands::Workers(2, 2), Via::Convey),
        (Hands::Workers(3, 1), Via::Exstack),
    ] {
        let watch = Watch::new();
        let gate = TestGate::counts(rt.alloc(), 4)?;
        let counted = is_counted(
            &rt,
            rt.alloc(),
            &lists,
            &watch,
            Deed::Counts,
            &gate,
            hands,
            via,
            &[4, 4, 4, 8],
        )?;
        assert!(rt; counted);
        assert!(rt; gate.has_counted(2));
    }
    Ok(())
}
