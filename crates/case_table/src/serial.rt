//! The drives on one thread, by capacity and hops.
ghost use Rattle.std.specs.Prelude.{◌≡◌, false, length, IfOk};
ghost use Rattle.route_tensor.specs.Grid.{ranks};
ghost use Rattle.port_bank.specs.Port.{IsSlots};
ghost use Rattle.rank_node.specs.Movers.{manner_of};
ghost use Rattle.rank_group.specs.Ranks.{IsOrder};
ghost use Rattle.rank_group.specs.DrivePromises.{MayRun, HasFinished, HasSwept, WithinTurns};
ghost use Rattle.item_buffer.specs.Capacity.{IsCapacity};

use bale_items::NoMemory;
use item_buffer::by_capacity;
use rank_group::{Finished, Steps, Via, drive_serial};
use round_program::{Program, Progs};
use route_tensor::{Grid, by_hops};
use std::alloc::Global;
use std::sync::ledger::Ledger;

/// Drives the programs of all ranks on one thread, as `drive_serial` does, over parcels of `cap`
/// entries (a power of two from 1 to 1,024) and routes of as many hops as the grid has numbers.
///
/// # Errors
/// `NoMemory` if a program, a node, the bank or the result found none. The programs are dropped.
pub fn case_serial<Q: Program, L: Ledger>(
    alloc: Global,
    grid: &Grid,
    cap: u32,
    via: Via,
    slots: u32,
    steady: bool,
    order: &[u32],
    progs: Progs<Q>,
    steps: &mut Steps<L>,
) -> Result<Finished<Q>, NoMemory>
    requires capacity { IsCapacity cap }
    requires slots { IsSlots slots }
    requires order { IsOrder (ranks grid.now) order.now }
    requires run { MayRun Q.rules grid.now via progs }
    ensures finished { IfOk result (HasFinished Q.rules progs
        (record { dims = grid.now; cap = cap; slots = slots; by_slots = false }) (manner_of via steady)) }
    ensures swept { IfOk result (HasSwept Q.rules progs
        (record { dims = grid.now; cap = cap; slots = slots; by_slots = false }) (manner_of via steady)
        order.now steps.old steps.new) }

    // The turns are bounded before the run, also if it ends in `NoMemory`.
    ensures steps { WithinTurns Q.rules progs (manner_of via steady) grid.now steps.old steps.new }
{
    by_hops!(
        grid.hops(),
        over_hops::<Q, L>,
        (alloc, grid, cap, via, slots, steady, order, progs, steps)
    )
}

/// Chooses among the eleven cases of `HOPS` hops by the capacity.
#[tactic(auto, unfolding(item_buffer::specs::Capacity::IsCapacity))]
fn over_hops<const HOPS: usize, Q: Program, L: Ledger>(
    alloc: Global,
    grid: &Grid,
    cap: u32,
    via: Via,
    slots: u32,
    steady: bool,
    order: &[u32],
    progs: Progs<Q>,
    steps: &mut Steps<L>,
) -> Result<Finished<Q>, NoMemory>
    requires hops { length grid.now ≡ HOPS }
    requires capacity { IsCapacity cap }
    requires slots { IsSlots slots }
    requires order { IsOrder (ranks grid.now) order.now }
    requires run { MayRun Q.rules grid.now via progs }
    ensures finished { IfOk result (HasFinished Q.rules progs
        (record { dims = grid.now; cap = cap; slots = slots; by_slots = false }) (manner_of via steady)) }
    ensures swept { IfOk result (HasSwept Q.rules progs
        (record { dims = grid.now; cap = cap; slots = slots; by_slots = false }) (manner_of via steady)
        order.now steps.old steps.new) }
    ensures steps { WithinTurns Q.rules progs (manner_of via steady) grid.now steps.old steps.new }
{
    by_capacity!(
        cap,
        drive_serial::<HOPS, Q, L>,
        (alloc, grid, via, slots, steady, order, progs, steps)
    )
}
