//! The drives on threads, by capacity and hops.
ghost use Rattle.std.specs.Prelude.{◌≡◌, true, length, IfOk, OnOk};
ghost use Rattle.port_bank.specs.Port.{IsSlots};
ghost use Rattle.rank_node.specs.Movers.{manner_of};
ghost use Rattle.rank_group.specs.DrivePromises.{MayRun, HasFinished, NotifiedOfTurns};
ghost use Rattle.item_buffer.specs.Capacity.{IsCapacity};

use bale_items::NoMemory;
use item_buffer::by_capacity;
use rank_group::{Finished, Gate, Via, drive_threads};
use round_program::{Program, Progs};
use route_tensor::{Grid, by_hops};
use std::alloc::Global;
use std::sync::Wait;
use std::thread::Threads;

/// Drives the programs of all ranks, on threads, as `drive_threads` does, over parcels of `cap`
/// entries (a power of two from 1 to 1,024) and routes of as many hops as the grid has numbers.
///
/// # Errors
/// `NoMemory` if a program, a node, the bank or the result found none. The programs are dropped.
pub fn case_threads<R: Threads + Wait + Sync, Q: Program + Send, G: Gate + Sync>(
    rt: &R,
    alloc: Global,
    grid: &Grid,
    cap: u32,
    via: Via,
    slots: u32,
    steady: bool,
    progs: Progs<Q>,
    gate: &G,
) -> Result<Finished<Q>, NoMemory>
    requires capacity { IsCapacity cap }
    requires slots { IsSlots slots }
    requires run { MayRun Q.rules grid.now via progs }
    ensures finished { IfOk result (HasFinished Q.rules progs
        (record { dims = grid.now; cap = cap; slots = slots; by_slots = true }) (manner_of via steady)) }

    // This gate was notified of the turns of each rank.
    ensures notified { OnOk result (NotifiedOfTurns Q.rules progs grid.now (G.notified gate.now)) }
{
    by_hops!(
        grid.hops(),
        over_hops::<R, Q, G>,
        (rt, alloc, grid, cap, via, slots, steady, progs, gate)
    )
}

/// Chooses among the eleven cases of `HOPS` hops by the capacity.
#[tactic(auto, unfolding(item_buffer::specs::Capacity::IsCapacity))]
fn over_hops<const HOPS: usize, R: Threads + Wait + Sync, Q: Program + Send, G: Gate + Sync>(
    rt: &R,
    alloc: Global,
    grid: &Grid,
    cap: u32,
    via: Via,
    slots: u32,
    steady: bool,
    progs: Progs<Q>,
    gate: &G,
) -> Result<Finished<Q>, NoMemory>
    requires hops { length grid.now ≡ HOPS }
    requires capacity { IsCapacity cap }
    requires slots { IsSlots slots }
    requires run { MayRun Q.rules grid.now via progs }
    ensures finished { IfOk result (HasFinished Q.rules progs
        (record { dims = grid.now; cap = cap; slots = slots; by_slots = true }) (manner_of via steady)) }
    ensures notified { OnOk result (NotifiedOfTurns Q.rules progs grid.now (G.notified gate.now)) }
{
    by_capacity!(
        cap,
        drive_threads::<HOPS, R, Q, G>,
        (rt, alloc, grid, via, slots, steady, progs, gate)
    )
}
