//! One call that drives an exchange of queries and replies on threads.

ghost use Rattle.std.specs.Prelude.{◌≡◌, ℕ, ◌<◌, true, IfOk, OnOk};
ghost use Rattle.route_tensor.specs.Grid.{ranks};
ghost use Rattle.port_bank.specs.Port.{IsSlots};
ghost use Rattle.biconvey.specs.Drives.{AreAskers};
ghost use Rattle.biconvey.specs.DrivePromises.{HasExchanged};
ghost use Rattle.rank_node.specs.Fits.{FitsGrid};

use crate::nodes::{nodes_of, take_askers};
use crate::seating::{gather_all, seat_all};
use bale_items::NoMemory;
use convey::closes_law;
use link_slots::SlotBank;
use rank_group::{
    ClosedRound, Finished, Gate, Rounds, ThreadLimit, Workers, run_together, threads_for,
};
use round_program::{Asker, Progs};
use route_tensor::Grid;
use std::alloc::Global;
use std::sync::Wait;
use std::thread::Threads;

/// Drives the askers of all ranks on threads, as many as `drive_threads` takes and with the ranks
/// assigned as there, over two slot banks, of queries and of replies, with parcels of `CAP` entries
/// and `slots` (1, 2, 4 or 8) parcels on a link at a time. The gate is notified of each turn of a
/// rank before it is made.
///
/// It waits for its threads, and returns when they do.
///
/// # Errors
/// `NoMemory` if a rank, a bank or the result found none. The askers are dropped.
pub fn thread_both<
    const CAP: usize,
    const HOPS: usize,
    R: Threads + Wait + Sync,
    A: Asker + Send,
    G: Gate + Sync,
>(
    rt: &R,
    alloc: Global,
    grid: &Grid,
    slots: u32,
    steady: bool,
    askers: Progs<A>,
    gate: &G,
) -> Result<Finished<A>, NoMemory>
    requires fits { FitsGrid CAP HOPS grid.now }
    requires slots { IsSlots slots }
    requires askers { AreAskers A.talk (ranks grid.now) askers }
    ensures exchanged { IfOk result (HasExchanged A.talk askers
        (record { dims = grid.now; cap = CAP; slots = slots; by_slots = true }) steady) }

    // This gate was notified of the turns of each rank, which made one at least.
    ensures notified { OnOk result ((r : ℕ) → r < ranks grid.now → G.notified gate.now r 0 ≡ true) }
{
    let number = threads_for(rt, grid.ranks());
    thread_with::<CAP, HOPS, R, A, G>(
        rt,
        alloc,
        grid,
        slots,
        steady,
        askers,
        gate,
        Workers { number },
        ThreadLimit { number },
    )
}

/// `thread_both` with so many workers, of which the first have a thread each, as many as `threads`
/// says. The caller polls the ranks of the others.
///
/// # Errors
/// As those of `thread_both`.
pub fn thread_with<
    const CAP: usize,
    const HOPS: usize,
    R: Threads + Wait + Sync,
    A: Asker + Send,
    G: Gate + Sync,
>(
    rt: &R,
    alloc: Global,
    grid: &Grid,
    slots: u32,
    steady: bool,
    askers: Progs<A>,
    gate: &G,
    workers: Workers,
    threads: ThreadLimit,
) -> Result<Finished<A>, NoMemory>
    requires fits { FitsGrid CAP HOPS grid.now }
    requires slots { IsSlots slots }
    requires askers { AreAskers A.talk (ranks grid.now) askers }
    ensures exchanged { IfOk result (HasExchanged A.talk askers
        (record { dims = grid.now; cap = CAP; slots = slots; by_slots = true }) steady) }
    ensures notified { OnOk result ((r : ℕ) → r < ranks grid.now → G.notified gate.now r 0 ≡ true) }
{
    closes_law();
    grid.known();
    let all = nodes_of::<CAP, HOPS, A>(alloc, grid, steady, askers)?;
    let (queries, mut of_queries) = SlotBank::<CAP>::new(alloc, grid, slots)?;
    let (replies, mut of_replies) = SlotBank::<CAP>::new(alloc, grid, slots)?;
    let seated = seat_all(
        alloc,
        &queries,
        &mut of_queries,
        &replies,
        &mut of_replies,
        all,
    )?;
    let ended = run_together(rt, alloc, gate, workers, threads, seated)?;
    let over = gather_all(
        alloc,
        &queries,
        &mut of_queries,
        &replies,
        &mut of_replies,
        ended,
    )?;
    let mut rounds = Rounds::new(alloc);
    rounds.add(ClosedRound::Slots(queries.close(of_queries)))?;
    rounds.add(ClosedRound::Slots(replies.close(of_replies)))?;
    let progs = take_askers::<CAP, HOPS, A>(alloc, over)?;
    Ok(Finished { progs, rounds })
}
