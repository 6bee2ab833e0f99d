//! A rank whose items travel by a conveyor.
ghost use Rattle.std.specs.Prelude.{◌≡◌, ◌≢◌, ◌^◌, ◌<◌, false, IfOk, IsOk, OnOk, Ok};
ghost use Rattle.route_tensor.specs.Grid.{ranks};
ghost use Rattle.rank_node.specs.Movers.{IsNew, GoesToNextEpoch};
ghost use Rattle.rank_node.specs.Movers.Manner.{ByConveyor};
ghost use Rattle.rank_node.specs.Movers.MoverState.{Conveying};
ghost use Rattle.rank_node.specs.Runs.{running};
ghost use Rattle.rank_node.specs.Moves.{MayTurn};
ghost use Rattle.rank_node.specs.Turns.{Turns, TurnsInFull};
ghost use Rattle.rank_node.specs.Fits.{FitsGrid};

use crate::run::Run;
use crate::sending::push_all;
use crate::sends::{count_of, votes_now};
use crate::taking::take_all;
use crate::turn::Turn;
use bale_items::NoMemory;
use convey::{Conveyor, Phase, Progress};
use port_bank::Port;
use round_program::Program;
use route_tensor::Grid;
use std::alloc::Global;

/// One turn: pushes what is left to send, in order, until a push is refused or all is pushed;
/// advances once; and takes in what came, until nothing is left.
pub(crate) fn turn_conveyor<const CAP: usize, const HOPS: usize, Q: Program, P: Port<CAP>>(
    run: &mut Run<Q>,
    conveyor: &mut Conveyor<CAP, HOPS>,
    port: &mut P,
) -> Result<Turn, NoMemory>
    requires turns { MayTurn Q.rules (record { run = running run.old; mover = Conveying conveyor.old })
        (P.view port.old) }
    ensures turns { Turns CAP Q.rules (record { run = running run.old; mover = Conveying conveyor.old })
        (record { run = running run.new; mover = Conveying conveyor.new }) (P.view port.old) (P.view port.new) }
    ensures in_full { OnOk result (TurnsInFull Q.rules
        (record { run = running run.old; mover = Conveying conveyor.old })
        (record { run = running run.new; mover = Conveying conveyor.new }) (P.view port.old) (P.view port.new)) }
    ensures memory { P.Memory.GROWS ≡ false → IsOk result }
    ensures ended { result ≡ Ok Turn.Ended → conveyor.new.phase ≡ Phase.Complete }
    ensures going { result ≡ Ok Turn.Going → conveyor.new.phase ≢ Phase.Complete }
{
    run.next = push_all(&run.prog, run.sends, conveyor, run.next);
    let done = run.next == count_of(&run.prog, run.sends);
    let progress = conveyor.advance(port, done);
    let voting = votes_now(run.sends);
    run.taken = take_all(&mut run.prog, conveyor, voting, run.taken);
    conveyor.known();
    Ok(turn_of(progress?))
}

/// What a turn tells, by how far its advance came.
fn turn_of(progress: Progress) -> Turn
    ensures ended { result ≡ Turn.Ended → progress ≡ Progress.Complete }
    ensures going { result ≡ Turn.Going → progress ≢ Progress.Complete }
{
    match progress {
        Progress::More | Progress::Near => Turn::Going,
        Progress::Complete => Turn::Ended,
    }
}

/// The conveyor of `rank`, which has begun its first epoch.
pub(crate) fn new_conveyor<const CAP: usize, const HOPS: usize>(
    alloc: Global,
    grid: &Grid,
    rank: u32,
    steady: bool,
) -> Result<Conveyor<CAP, HOPS>, NoMemory>
    requires fits { FitsGrid CAP HOPS grid.now }
    requires rank { rank < ranks grid.now }
    ensures { IfOk result (λ c. IsNew grid.now rank (ByConveyor steady) (Conveying c)) }
{
    let mut conveyor = Conveyor::new(alloc, grid, rank, steady)?;
    conveyor.begin();
    conveyor.known();
    Ok(conveyor)
}

/// Goes from an epoch that is over to the next.
pub(crate) fn reset_conveyor<const CAP: usize, const HOPS: usize>(
    conveyor: &mut Conveyor<CAP, HOPS>,
)
    requires complete { conveyor.old.phase ≡ Phase.Complete }
    requires epochs { conveyor.old.epoch < 2 ^ 63 }
    ensures { GoesToNextEpoch (Conveying conveyor.old) (Conveying conveyor.new) }
{
    conveyor.reset();
    conveyor.begin();
    conveyor.known();
}
