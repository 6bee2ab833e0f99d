//! What carries the items of a rank.
ghost use Rattle.std.specs.Prelude.{◌≡◌, ◌^◌, ◌<◌, true, false, length, IfOk, IsOk, OnOk, Ok};
ghost use Rattle.route_tensor.specs.Grid.{ranks};
ghost use Rattle.rank_node.specs.Movers.{mover_state, mover_dims, mover_rank, epoch_in, manner_of, has_completed, IsNew, GoesToNextEpoch};
ghost use Rattle.rank_node.specs.Runs.{running};
ghost use Rattle.rank_node.specs.Moves.{MayTurn};
ghost use Rattle.rank_node.specs.Turns.{Turns, TurnsInFull};
ghost use Rattle.rank_node.specs.Fits.{FitsGrid, IsGridRank};

use crate::conveying::{new_conveyor, reset_conveyor, turn_conveyor};
use crate::run::Run;
use crate::stacking::{new_exstack, reset_exstack, turn_exstack};
use crate::turn::Turn;
use crate::via::Via;
use bale_items::NoMemory;
use convey::Conveyor;
use exstack::Exstack;
use port_bank::Port;
use round_program::Program;
use route_tensor::Grid;
use std::alloc::Global;

/// A rank's conveyor, or its exstack.
#[derive(Drop)]
pub enum Mover<const CAP: usize, const HOPS: usize> {
    Convey(Conveyor<CAP, HOPS>),
    Exstack(Exstack<CAP>),
}

impl<const CAP: usize, const HOPS: usize> Mover<CAP, HOPS> {
    /// The mover of `rank`, which has begun its first epoch.
    pub(crate) fn new(
        alloc: Global,
        grid: &Grid,
        via: Via,
        rank: u32,
        steady: bool,
    ) -> Result<Self, NoMemory>
        requires fits { FitsGrid CAP HOPS grid.now }
        requires one_hop { via ≡ Via.Exstack → length grid.now ≡ 1 }
        requires rank { rank < ranks grid.now }
        ensures { IfOk result (λ m. IsNew grid.now rank (manner_of via steady) (mover_state m)) }
    {
        match via {
            Via::Convey => Ok(Mover::Convey(new_conveyor(alloc, grid, rank, steady)?)),
            Via::Exstack => Ok(Mover::Exstack(new_exstack(alloc, grid, rank)?)),
        }
    }

    /// Does nothing, and states whose it is.
    pub(crate) fn known(&self)
        ensures { IsGridRank (mover_dims (mover_state self.now)) (mover_rank (mover_state self.now)) }
    {
        match self {
            Mover::Convey(conveyor) => conveyor.known(),
            Mover::Exstack(exstack) => exstack.known(),
        }
    }

    /// One turn of a rank.
    pub(crate) fn turn<Q: Program, P: Port<CAP>>(
        &mut self,
        run: &mut Run<Q>,
        port: &mut P,
    ) -> Result<Turn, NoMemory>
        requires turns { MayTurn Q.rules (record { run = running run.old; mover = mover_state self.old })
            (P.view port.old) }
        ensures turns { Turns CAP Q.rules (record { run = running run.old; mover = mover_state self.old })
            (record { run = running run.new; mover = mover_state self.new }) (P.view port.old) (P.view port.new) }
        ensures in_full { OnOk result (TurnsInFull Q.rules
            (record { run = running run.old; mover = mover_state self.old })
            (record { run = running run.new; mover = mover_state self.new }) (P.view port.old) (P.view port.new)) }
        ensures memory { P.Memory.GROWS ≡ false → IsOk result }
        ensures ended { result ≡ Ok Turn.Ended → has_completed (mover_state self.new) ≡ true }
        ensures going { result ≡ Ok Turn.Going → has_completed (mover_state self.new) ≡ false }
    {
        match self {
            Mover::Convey(conveyor) => turn_conveyor(run, conveyor, port),
            Mover::Exstack(exstack) => turn_exstack(run, exstack, port),
        }
    }

    /// Goes from an epoch that is over to the next.
    pub(crate) fn reset(&mut self)
        requires completed { has_completed (mover_state self.old) ≡ true }
        requires epochs { epoch_in (mover_state self.old) < 2 ^ 63 }
        ensures { GoesToNextEpoch (mover_state self.old) (mover_state self.new) }
    {
        match self {
            Mover::Convey(conveyor) => reset_conveyor(conveyor),
            Mover::Exstack(exstack) => reset_exstack(exstack),
        }
    }
}
