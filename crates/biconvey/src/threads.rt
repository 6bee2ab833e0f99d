//! The drive on threads, by capacity and hops.

ghost use Rattle.std.specs.Prelude.{◌≡◌, ℕ, ◌<◌, true, length, IfOk, OnOk};
ghost use Rattle.route_tensor.specs.Grid.{ranks};
ghost use Rattle.port_bank.specs.Port.{IsSlots};
ghost use Rattle.item_buffer.specs.Capacity.{IsCapacity};
ghost use Rattle.biconvey.specs.Drives.{AreAskers};
ghost use Rattle.biconvey.specs.DrivePromises.{HasExchanged};

use crate::on_threads::thread_both;
use bale_items::NoMemory;
use item_buffer::by_capacity;
use rank_group::{Finished, Gate};
use round_program::{Asker, Progs};
use route_tensor::{Grid, by_hops};
use std::alloc::Global;
use std::sync::Wait;
use std::thread::Threads;

/// Drives the askers of all ranks, on threads, as `thread_both` does, over parcels of `cap` entries
/// (a power of two from 1 to 1,024) and routes of as many hops as the grid has numbers. It waits
/// for its threads, and returns when they do.
///
/// # Errors
/// `NoMemory` if a rank, a bank or the result found none. The askers are dropped.
pub fn bi_threads<R: Threads + Wait + Sync, A: Asker + Send, G: Gate + Sync>(
    rt: &R,
    alloc: Global,
    grid: &Grid,
    cap: u32,
    slots: u32,
    steady: bool,
    askers: Progs<A>,
    gate: &G,
) -> Result<Finished<A>, NoMemory>
    requires capacity { IsCapacity cap }
    requires slots { IsSlots slots }
    requires askers { AreAskers A.talk (ranks grid.now) askers }
    ensures exchanged { IfOk result (HasExchanged A.talk askers
        (record { dims = grid.now; cap = cap; slots = slots; by_slots = true }) steady) }

    // This gate was notified of the turns of each rank, which made one at least.
    ensures notified { OnOk result ((r : ℕ) → r < ranks grid.now → G.notified gate.now r 0 ≡ true) }
{
    by_hops!(
        grid.hops(),
        over_hops::<R, A, G>,
        (rt, alloc, grid, cap, slots, steady, askers, gate)
    )
}

/// Chooses among the eleven cases of `HOPS` hops by the capacity.
#[tactic(auto, unfolding(item_buffer::specs::Capacity::IsCapacity))]
fn over_hops<const HOPS: usize, R: Threads + Wait + Sync, A: Asker + Send, G: Gate + Sync>(
    rt: &R,
    alloc: Global,
    grid: &Grid,
    cap: u32,
    slots: u32,
    steady: bool,
    askers: Progs<A>,
    gate: &G,
) -> Result<Finished<A>, NoMemory>
    requires hops { length grid.now ≡ HOPS }
    requires capacity { IsCapacity cap }
    requires slots { IsSlots slots }
    requires askers { AreAskers A.talk (ranks grid.now) askers }
    ensures exchanged { IfOk result (HasExchanged A.talk askers
        (record { dims = grid.now; cap = cap; slots = slots; by_slots = true }) steady) }
    ensures notified { OnOk result ((r : ℕ) → r < ranks grid.now → G.notified gate.now r 0 ≡ true) }
{
    by_capacity!(
        cap,
        thread_both::<HOPS, R, A, G>,
        (rt, alloc, grid, slots, steady, askers, gate)
    )
}
