//! The drive on one thread, by capacity and hops.

ghost use Rattle.std.specs.Prelude.{◌≡◌, ◌+◌, ◌≤◌, false, length, IfOk};
ghost use Rattle.std.specs.List.{sum_by};
ghost use Rattle.route_tensor.specs.Grid.{ranks};
ghost use Rattle.port_bank.specs.Port.{IsSlots};
ghost use Rattle.rank_group.specs.Ranks.{IsOrder};
ghost use Rattle.item_buffer.specs.Capacity.{IsCapacity};
ghost use Rattle.biconvey.specs.RanksOverBanks.{bi_turns_of};
ghost use Rattle.biconvey.specs.Drives.{AreAskers};
ghost use Rattle.biconvey.specs.DrivePromises.{HasExchanged, HasSweptBoth};

use crate::drive::drive_both;
use bale_items::{NoMemory, Steps};
use item_buffer::by_capacity;
use rank_group::Finished;
use round_program::{Asker, Progs};
use route_tensor::{Grid, by_hops};
use std::alloc::Global;
use std::sync::ledger::Ledger;

/// Drives the askers of all ranks on one thread, as `drive_both` does, over parcels of `cap`
/// entries (a power of two from 1 to 1,024) and routes of as many hops as the grid has numbers.
///
/// # Errors
/// `NoMemory` if a rank, a bank or the result found none. The askers are dropped.
pub fn bi_serial<A: Asker, L: Ledger>(
    alloc: Global,
    grid: &Grid,
    cap: u32,
    slots: u32,
    steady: bool,
    order: &[u32],
    askers: Progs<A>,
    steps: &mut Steps<L>,
) -> Result<Finished<A>, NoMemory>
    requires capacity { IsCapacity cap }
    requires slots { IsSlots slots }
    requires order { IsOrder (ranks grid.now) order.now }
    requires askers { AreAskers A.talk (ranks grid.now) askers }
    ensures exchanged { IfOk result (HasExchanged A.talk askers
        (record { dims = grid.now; cap = cap; slots = slots; by_slots = false }) steady) }
    ensures swept { IfOk result (HasSweptBoth A.talk askers
        (record { dims = grid.now; cap = cap; slots = slots; by_slots = false }) steady
        order.now steps.old steps.new) }

    // The turns are bounded before the exchange, also if it ends in `NoMemory`.
    ensures steps { steps.new ≤ steps.old + bi_turns_of grid.now (sum_by (λ s. length (A.talk.queries s)) askers) }
{
    by_hops!(
        grid.hops(),
        over_hops::<A, L>,
        (alloc, grid, cap, slots, steady, order, askers, steps)
    )
}

/// Chooses among the eleven cases of `HOPS` hops by the capacity.
#[tactic(auto, unfolding(item_buffer::specs::Capacity::IsCapacity))]
fn over_hops<const HOPS: usize, A: Asker, L: Ledger>(
    alloc: Global,
    grid: &Grid,
    cap: u32,
    slots: u32,
    steady: bool,
    order: &[u32],
    askers: Progs<A>,
    steps: &mut Steps<L>,
) -> Result<Finished<A>, NoMemory>
    requires hops { length grid.now ≡ HOPS }
    requires capacity { IsCapacity cap }
    requires slots { IsSlots slots }
    requires order { IsOrder (ranks grid.now) order.now }
    requires askers { AreAskers A.talk (ranks grid.now) askers }
    ensures exchanged { IfOk result (HasExchanged A.talk askers
        (record { dims = grid.now; cap = cap; slots = slots; by_slots = false }) steady) }
    ensures swept { IfOk result (HasSweptBoth A.talk askers
        (record { dims = grid.now; cap = cap; slots = slots; by_slots = false }) steady
        order.now steps.old steps.new) }
    ensures steps { steps.new ≤ steps.old + bi_turns_of grid.now (sum_by (λ s. length (A.talk.queries s)) askers) }
{
    by_capacity!(
        cap,
        drive_both::<HOPS, A, L>,
        (alloc, grid, slots, steady, order, askers, steps)
    )
}
