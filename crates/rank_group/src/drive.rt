//! One call that drives all ranks of a grid on one thread.
ghost use Rattle.std.specs.Prelude.{◌<◌, false, IfOk};
ghost use Rattle.route_tensor.specs.Grid.{ranks};
ghost use Rattle.port_bank.specs.Port.{IsSlots};
ghost use Rattle.rank_node.specs.Movers.{manner_of};
ghost use Rattle.rank_group.specs.Ranks.{IsOrder};
ghost use Rattle.rank_group.specs.DrivePromises.{MayRun, HasFinished, HasSwept, WithinTurns};
ghost use Rattle.rank_node.specs.Fits.{FitsGrid};

use crate::closed_round::{ClosedRound, Rounds};
use crate::closes::closes_laws;
use crate::ranks::{ranks_of, take_progs};
use crate::sweeps::run_all;
use bale_items::{NoMemory, Steps};
use port_bank::PlainBank;
use rank_node::Via;
use round_program::{Program, Progs};
use route_tensor::Grid;
use std::alloc::Global;
use std::sync::ledger::Ledger;

/// What a run leaves: the programs after their last round, by rank, and what they exchanged.
#[derive(Drop)]
pub struct Finished<Q> {
    pub progs: Progs<Q>,
    pub rounds: Rounds,
}

/// Drives the programs of all ranks, from their first round to their last, by conveyors or, on a
/// grid of one number, by exstacks, over one bank with parcels of `CAP` entries and `slots` (1, 2,
/// 4 or 8) parcels on a link at a time. Each sweep turns the ranks in the order given, until no
/// epoch follows for any. Each turn raises `steps` by one.
///
/// # Errors
/// `NoMemory` if a program, a node, the bank or the result found none. The programs are dropped.
pub fn drive_serial<const CAP: usize, const HOPS: usize, Q: Program, L: Ledger>(
    alloc: Global,
    grid: &Grid,
    via: Via,
    slots: u32,
    steady: bool,
    order: &[u32],
    progs: Progs<Q>,
    steps: &mut Steps<L>,
) -> Result<Finished<Q>, NoMemory>
    requires fits { FitsGrid CAP HOPS grid.now }
    requires slots { IsSlots slots }
    requires order { IsOrder (ranks grid.now) order.now }
    requires run { MayRun Q.rules grid.now via progs }
    ensures finished { IfOk result (HasFinished Q.rules progs
        (record { dims = grid.now; cap = CAP; slots = slots; by_slots = false }) (manner_of via steady)) }
    ensures swept { IfOk result (HasSwept Q.rules progs
        (record { dims = grid.now; cap = CAP; slots = slots; by_slots = false }) (manner_of via steady)
        order.now steps.old steps.new) }

    // The turns are bounded before the run, also if it ends in `NoMemory`.
    ensures steps { WithinTurns Q.rules progs (manner_of via steady) grid.now steps.old steps.new }
{
    closes_laws();
    let mut all = ranks_of::<CAP, HOPS, Q>(alloc, grid, via, steady, progs)?;
    let bank = PlainBank::<CAP>::new(alloc, grid, slots)?;
    let bank = run_all(bank, &mut all, order, steps)?;
    let mut rounds = Rounds::new(alloc);
    rounds.add(ClosedRound::Plain(bank.close()))?;
    let progs = take_progs::<CAP, HOPS, Q>(alloc, all)?;
    Ok(Finished { progs, rounds })
}
