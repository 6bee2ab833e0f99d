//! Askers on threads, by hand, and with ranks that have no thread.

ghost use Rattle.std.specs.Prelude.{◌<◌};
ghost use Rattle.rank_node.specs.Fits.{FitsGrid};

use crate::asking_tests::{Told, adders_of, have_heard};
use crate::gates::TestGate;
use bale_items::NoMemory;
use biconvey::{bi_threads, thread_with};
use rank_group::{Finished, Gate, ThreadLimit, Workers};
use route_tensor::Grid;
use std::alloc::Global;
use std::sync::Wait;
use std::test::Fail;
use std::thread::Threads;

/// Rank 0 asks rank 1, each on a thread.
pub(crate) fn by_hand<R: Threads + Wait + Sync, G: Gate + Sync>(
    rt: &R,
    alloc: Global,
    gate: &G,
) -> Result<Option<Told>, NoMemory> {
    let Ok(grid) = Grid::new(&[2]) else {
        return Ok(None);
    };
    let askers = adders_of(alloc, grid.ranks(), 1)?;
    let Finished { progs, rounds } = bi_threads(rt, alloc, &grid, 1, 1, false, askers, gate)?;
    Ok(Some((have_heard(&progs), rounds.len())))
}

/// All ranks ask, with so many workers, of which the first have a thread each.
fn ask_here<const CAP: usize, const HOPS: usize, R: Threads + Wait + Sync>(
    rt: &R,
    alloc: Global,
    grid: &Grid,
    workers: Workers,
    threads: ThreadLimit,
) -> Result<Told, NoMemory>
    requires fits { FitsGrid CAP HOPS grid.now }
{
    let askers = adders_of(alloc, grid.ranks(), grid.ranks())?;
    let Finished { progs, rounds } = thread_with::<CAP, HOPS, R, _, TestGate<'_>>(
        rt,
        alloc,
        grid,
        2,
        true,
        askers,
        &TestGate::Open,
        workers,
        threads,
    )?;
    Ok((have_heard(&progs), rounds.len()))
}

/// The gate is notified of each rank's turns in their order.
#[test]
fn askers_by_hand_on_threads(rt: HostRuntime) -> Result<(), Fail> {
    let gate = TestGate::counts(rt.alloc(), 2)?;
    let told = by_hand(&rt, rt.alloc(), &gate)?;
    assert_eq!(rt; told, Some((1, 2)));
    assert!(rt; gate.has_counted(1));
    Ok(())
}

#[test]
fn askers_kept_by_the_caller(rt: HostRuntime) -> Result<(), Fail> {
    let Ok(grid) = Grid::new(&[2, 2, 2]) else {
        return Err(Fail::new("no grid"));
    };
    let workers = Workers { number: 3 };
    let threads = ThreadLimit { number: 2 };
    let told = ask_here::<64, 3, HostRuntime>(&rt, rt.alloc(), &grid, workers, threads)?;
    assert_eq!(rt; told, (8, 2));
    Ok(())
}
