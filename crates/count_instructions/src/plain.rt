//! All ranks of a grid, over a plain bank, in turn on one thread.
ghost use Rattle.std.specs.Prelude.{◌<◌, length};

use crate::rows::Job;
use crate::shape::Shape;
use crate::side::Side;
use bale_items::NoMemory;
use convey::exchange_law;
use port_bank::PlainBank;
use std::alloc::Global;
use std::marker::Model;

/// Sends items between all ranks of a grid.
pub(crate) fn over_plain<const CAP: usize, const HOPS: usize>(
    alloc: Global,
    job: Job,
    shape: &Shape<CAP, HOPS>,
) -> Result<u64, NoMemory> {
    let mut all = OverPlain::new(alloc, shape)?;
    for _ in 0..job.epochs {
        all = all.run_epoch(job.items)?;
    }
    Ok(all.sum())
}

/// All ranks, whose conveyors agree with the bank's logs. Contracts see how many there are.
#[derive(Drop)]
struct OverPlain<const CAP: usize, const HOPS: usize> {
    sides: Vec<Side<CAP, HOPS>>,
    bank: PlainBank<CAP>,
}

impl<const CAP: usize, const HOPS: usize> Model for OverPlain<CAP, HOPS> {
    ghost use Rattle.std.specs.Prelude.{◌≡◌, ℕ, length, slice_index_or};
    ghost use Rattle.route_tensor.specs.Grid.{ranks};
    ghost use Rattle.port_bank.specs.Plain.{sent_of, got_of};
    ghost use Rattle.convey.specs.Buffers.{buffers_of};
    ghost use Rattle.convey.specs.Law.{AgreeTogether};

    ghost Value = { ℕ };

    ghost view = { λ a. length a.sides.items };

    ghost invariant = { λ a. (length a.sides.items ≡ ranks a.bank.dims) × ((d : _) → AgreeTogether a.bank.dims CAP
        a.bank.slots (λ r. buffers_of (slice_index_or a.sides.items r d).conveyor) (sent_of a.bank) (got_of a.bank)) };
}

impl<const CAP: usize, const HOPS: usize> OverPlain<CAP, HOPS> {
    #[tactic(auto, unfolding(port_bank::specs::Port::IsSlots))]
    fn new(alloc: Global, shape: &Shape<CAP, HOPS>) -> Result<Self, NoMemory> {
        let bank = PlainBank::new(alloc, &shape.grid, 2)?;
        let mut sides = Vec::with_capacity(alloc, shape.grid.ranks() as usize)?;
        for rank in 0..shape.grid.ranks() {
            sides.push(Side::new(alloc, shape, rank)?)?;
        }
        Ok(OverPlain { sides, bank })
    }

    /// Begins an epoch for each rank, and turns each in order, sweep after sweep, until the epoch
    /// is over for each.
    fn run_epoch(self, items: u64) -> Result<Self, NoMemory> {
        let mut all = self;
        let mut begins = true;
        for _ in 0..u64::MAX {
            let (after, over) = all.sweep(begins, items)?;
            all = after;
            if over {
                return Ok(all);
            }
            begins = false;
        }
        Ok(all)
    }

    /// Turns each rank once, and answers whether the epoch is over for each.
    fn sweep(self, begins: bool, items: u64) -> Result<(Self, bool), NoMemory> {
        let mut all = self;
        let mut over = true;
        for rank in 0..all.sides.len() as u32 {
            let (after, ended) = all.turn_one(rank, begins, items)?;
            all = after;
            over = over && ended;
        }
        Ok((all, over))
    }

    /// Turns a rank at its port of the bank, and answers whether its epoch is over.
    fn turn_one(self, rank: u32, begins: bool, items: u64) -> Result<(Self, bool), NoMemory> {
        let OverPlain { mut sides, bank } = self;
        if rank as usize >= sides.len() {
            return Ok((OverPlain { sides, bank }, true));
        }
        exchange_law();
        let mut port = bank.port(rank);
        let over = sides[rank as usize].turn(&mut port, begins, items)?;
        let bank = port.into_bank();
        Ok((OverPlain { sides, bank }, over))
    }

    /// The sum of what came to all ranks.
    fn sum(&self) -> u64 {
        let mut sum: u64 = 0;
        for side in &self.sides {
            sum = sum.wrapping_add(side.sum());
        }
        sum
    }
}
