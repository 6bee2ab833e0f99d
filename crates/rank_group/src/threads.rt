//! One call that drives all ranks of a grid on threads.
ghost use Rattle.std.specs.Prelude.{◌<◌, true, IfOk, OnOk};
ghost use Rattle.port_bank.specs.Port.{IsSlots};
ghost use Rattle.rank_node.specs.Movers.{manner_of};
ghost use Rattle.rank_group.specs.DrivePromises.{MayRun, HasFinished, NotifiedOfTurns};
ghost use Rattle.rank_node.specs.Fits.{FitsGrid};

use crate::closed_round::{ClosedRound, Rounds};
use crate::closes::closes_laws;
use crate::drive::Finished;
use crate::ranks::{ranks_of, take_progs};
use crate::seating::{gather_all, seat_all};
use crate::thread_count::threads_for;
use bale_items::NoMemory;
use link_slots::SlotBank;
use rank_crews::{Gate, ThreadLimit, Workers, run_together};
use rank_node::Via;
use round_program::{Program, Progs};
use route_tensor::Grid;
use std::alloc::Global;
use std::sync::Wait;
use std::thread::Threads;

/// Drives the programs of all ranks, from their first round to their last, over one slot bank with
/// parcels of `CAP` entries and `slots` (1, 2, 4 or 8) parcels on a link at a time. With no more
/// ranks than the machine has processors each rank has a thread of its own; else there are as many
/// threads T as processors, and rank r is polled by thread r mod T, in turn with its other ranks.
/// The threads are up over all rounds. The gate is notified of each turn of a rank before it is
/// made. If a thread can't be started, the caller polls its ranks. If other work keeps the threads
/// from their processors, all ranks fall back to the caller, which polls those of each thread as
/// soon as that returns.
///
/// It waits for its threads, and returns when they do.
///
/// # Errors
/// `NoMemory` if a program, a node, the bank or the result found none. The programs are dropped.
pub fn drive_threads<
    const CAP: usize,
    const HOPS: usize,
    R: Threads + Wait + Sync,
    Q: Program + Send,
    G: Gate + Sync,
>(
    rt: &R,
    alloc: Global,
    grid: &Grid,
    via: Via,
    slots: u32,
    steady: bool,
    progs: Progs<Q>,
    gate: &G,
) -> Result<Finished<Q>, NoMemory>
    requires fits { FitsGrid CAP HOPS grid.now }
    requires slots { IsSlots slots }
    requires run { MayRun Q.rules grid.now via progs }
    ensures finished { IfOk result (HasFinished Q.rules progs
        (record { dims = grid.now; cap = CAP; slots = slots; by_slots = true }) (manner_of via steady)) }

    // This gate was notified of the turns of each rank.
    ensures notified { OnOk result (NotifiedOfTurns Q.rules progs grid.now (G.notified gate.now)) }
{
    let number = threads_for(rt, grid.ranks());
    drive_with::<CAP, HOPS, R, Q, G>(
        rt,
        alloc,
        grid,
        via,
        slots,
        steady,
        progs,
        gate,
        Workers { number },
        ThreadLimit { number },
    )
}

/// `drive_threads` with so many workers, of which the first have a thread each, as many as
/// `threads` says. The caller polls the ranks of the others.
///
/// # Errors
/// As those of `drive_threads`.
pub fn drive_with<
    const CAP: usize,
    const HOPS: usize,
    R: Threads + Wait + Sync,
    Q: Program + Send,
    G: Gate + Sync,
>(
    rt: &R,
    alloc: Global,
    grid: &Grid,
    via: Via,
    slots: u32,
    steady: bool,
    progs: Progs<Q>,
    gate: &G,
    workers: Workers,
    threads: ThreadLimit,
) -> Result<Finished<Q>, NoMemory>
    requires fits { FitsGrid CAP HOPS grid.now }
    requires slots { IsSlots slots }
    requires run { MayRun Q.rules grid.now via progs }
    ensures finished { IfOk result (HasFinished Q.rules progs
        (record { dims = grid.now; cap = CAP; slots = slots; by_slots = true }) (manner_of via steady)) }
    ensures notified { OnOk result (NotifiedOfTurns Q.rules progs grid.now (G.notified gate.now)) }
{
    closes_laws();
    grid.known();
    let all = ranks_of::<CAP, HOPS, Q>(alloc, grid, via, steady, progs)?;
    let (bank, mut gather) = SlotBank::<CAP>::new(alloc, grid, slots)?;
    let seated = seat_all(alloc, &bank, &mut gather, all)?;
    let ended = run_together(rt, alloc, gate, workers, threads, seated)?;
    let over = gather_all(alloc, &bank, &mut gather, ended)?;
    let mut rounds = Rounds::new(alloc);
    rounds.add(ClosedRound::Slots(bank.close(gather)))?;
    let progs = take_progs::<CAP, HOPS, Q>(alloc, over)?;
    Ok(Finished { progs, rounds })
}
