//! Runs on threads by both transports, and ranks that have no thread.
use crate::gates::TestGate;
use crate::watched::{Deed, Hands, Watch, is_counted};
use rank_group::Via;
use std::test::Fail;

/// Ranks that each name every column, kept by the caller or not.
#[test]
fn the_caller_drives_what_has_no_thread(rt: HostRuntime) -> Result<(), Fail> {
    let all: &[u32] = &[0, 1, 2, 3, 3];
    let lists = [all; 4];
    for (hands, via) in [
        (Hands::Workers(1, 0), Via::Convey),
        (Hands::Workers(4, 0), Via::Convey),
        (Hands::Workers(4, 1), Via::Exstack),
        (Hands::Workers(4, 3), Via::Convey),
        (Hands::Workers(3, 2), Via::Exstack),
        (Hands::Workers(3, 3), Via::Convey),
        (Hands::Workers(2, 2), Via::Exstack),
        (Hands::Workers(2, 1), Via::Convey),
        (Hands::Threads, Via::Convey),
        (Hands::Threads, Via::Exstack),
    ] {
        let watch = Watch::new();
        let counted = is_counted(
            &rt,
            rt.alloc(),
            &lists,
            &watch,
            Deed::Counts,
            &TestGate::Open,
            hands,
            via,
            &[4, 4, 4, 8],
        )?;
        assert!(rt; counted);
    }
    Ok(())
}

/// The ranks of a worker have their turns in alternation: ranks 0 and 2 are one worker's, and ranks
/// 1 and 3 another's.
#[test]
fn ranks_of_a_worker_alternate(rt: HostRuntime) -> Result<(), Fail> {
    let all: &[u32] = &[0, 1, 2, 3, 3];
    let lists = [all; 4];
    for (threads, via) in [
        (2, Via::Convey),
        (2, Via::Exstack),
        (1, Via::Convey),
        (0, Via::Convey),
    ] {
        let watch = Watch::new();
        let gate = TestGate::alternates(rt.alloc())?;
        let counted = is_counted(
            &rt,
            rt.alloc(),
            &lists,
            &watch,
            Deed::Counts,
            &gate,
            Hands::Workers(2, threads),
            via,
            &[4, 4, 4, 8],
        )?;
        assert!(rt; counted);
        assert!(rt; gate.has_counted(2));
    }
    Ok(())
}

/// A run that is asked for no thread starts none: whatever the gate waits for, no other rank is
/// polled meanwhile.
#[test]
fn no_thread_is_started_unasked(rt: HostRuntime) -> Result<(), Fail> {
    let all: &[u32] = &[0, 1, 2, 3, 3];
    let lists = [all; 4];
    for workers in [1, 2, 4] {
        let watch = Watch::new();
        let gate = TestGate::alone(rt.alloc(), 4)?;
        let counted = is_counted(
            &rt,
            rt.alloc(),
            &lists,
            &watch,
            Deed::Counts,
            &gate,
            Hands::Workers(workers, 0),
            Via::Convey,
            &[4, 4, 4, 8],
        )?;
        assert!(rt; counted);
        assert!(rt; gate.has_counted(2));
    }
    Ok(())
}
