//! All ranks of a grid, over slot links, in turn on one thread.
ghost use Rattle.std.specs.Prelude.{◌≡◌, ◌<◌, ℕ, true, false, slice_index_or};
ghost use Rattle.route_tensor.specs.Grid.{ranks};

use crate::rows::Job;
use crate::shape::Shape;
use crate::side::Side;
use bale_items::NoMemory;
use link_slots::{GatherSeat, SlotBank, SlotPort};
use std::alloc::Global;
use std::marker::Model;

/// A rank and its port, which agree. Contracts see its number.
#[derive(Drop)]
struct AtSeat<'a, const CAP: usize, const HOPS: usize> {
    side: Side<CAP, HOPS>,
    port: SlotPort<'a, CAP>,
}

impl<'a, const CAP: usize, const HOPS: usize> Model for AtSeat<'a, CAP, HOPS> {
    ghost use Rattle.std.specs.Prelude.{◌≡◌, ℕ};
    ghost use Rattle.link_slots.specs.SeatView.{posted_on, collected_from};
    ghost use Rattle.convey.specs.Conveyors.{AgreesWith};

    ghost Value = { ℕ };

    ghost view = { λ a. a.port.seat.rank };

    ghost invariant = { λ a. (a.port.seat.shape.dims ≡ a.side.conveyor.dims)
        × (a.port.seat.rank ≡ a.side.conveyor.rank)
        × AgreesWith a.side.conveyor (posted_on a.port.seat) (collected_from a.port.seat) };
}

/// Sends items between all ranks of a grid.
#[tactic(auto, unfolding(port_bank::specs::Port::IsSlots))]
pub(crate) fn over_slots<const CAP: usize, const HOPS: usize>(
    alloc: Global,
    job: Job,
    shape: &Shape<CAP, HOPS>,
) -> Result<u64, NoMemory> {
    let (bank, mut gather) = SlotBank::<CAP>::new(alloc, &shape.grid, 2)?;
    let mut sides = sides_of(alloc, shape, &bank, &mut gather)?;
    for _ in 0..job.epochs {
        run_epoch(&mut sides, job.items)?;
    }
    Ok(sum_of(&sides))
}

/// The conveyors of all ranks, over the ports of their seats, none of which was given out.
fn sides_of<'a, const CAP: usize, const HOPS: usize>(
    alloc: Global,
    shape: &Shape<CAP, HOPS>,
    bank: &'a SlotBank<CAP>,
    gather: &mut GatherSeat<CAP>,
) -> Result<Vec<AtSeat<'a, CAP, HOPS>>, NoMemory>
    requires { (bank.now.shape.dims ≡ shape.now.grid) × (gather.old.id ≡ bank.now.id)
        × (gather.old.shape ≡ bank.now.shape)
        × ((k : ℕ) → k < ranks shape.now.grid → slice_index_or gather.old.given k true ≡ false) }
{
    let mut sides = Vec::new(alloc);
    for rank in 0..shape.grid.ranks() {
        let port = bank.port(bank.seat(gather, rank));
        let side = Side::new(alloc, shape, rank)?;
        let at = AtSeat { side, port };
        sides.push(at)?;
    }
    Ok(sides)
}

/// Begins an epoch for each rank, and turns each in order, sweep after sweep, until the epoch is
/// over for each.
fn run_epoch<const CAP: usize, const HOPS: usize>(
    sides: &mut Vec<AtSeat<'_, CAP, HOPS>>,
    items: u64,
) -> Result<(), NoMemory> {
    let mut begins = true;
    for _ in 0..u64::MAX {
        if sweep(sides, begins, items)? {
            return Ok(());
        }
        begins = false;
    }
    Ok(())
}

/// Turns each rank once, and answers whether the epoch is over for each.
fn sweep<const CAP: usize, const HOPS: usize>(
    sides: &mut Vec<AtSeat<'_, CAP, HOPS>>,
    begins: bool,
    items: u64,
) -> Result<bool, NoMemory> {
    let mut over = true;
    for at in sides.iter_mut() {
        let ended = at.side.turn(&mut at.port, begins, items)?;
        over = over && ended;
    }
    Ok(over)
}

/// The sum of what came to all ranks.
fn sum_of<const CAP: usize, const HOPS: usize>(sides: &[AtSeat<'_, CAP, HOPS>]) -> u64 {
    let mut sum: u64 = 0;
    for at in sides {
        sum = sum.wrapping_add(at.side.sum());
    }
    sum
}
