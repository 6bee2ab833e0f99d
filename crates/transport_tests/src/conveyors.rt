//! The conveyors of all ranks, over a plain bank, in a test.
ghost use Rattle.std.specs.Prelude.{◌≡◌, ◌<◌, length};
ghost use Rattle.item_buffer.specs.Capacity.{IsCap};
ghost use Rattle.port_bank.specs.Port.{IsSlots};

use crate::conveyor_side::{Answer, Call, Side};
use bale_items::NoMemory;
use convey::exchange_law;
use port_bank::PlainBank;
use route_tensor::Grid;
use std::alloc::Global;
use std::marker::Model;

/// The conveyors of all ranks, which agree with the bank's logs. Contracts see how many there are.
#[derive(Drop)]
pub(crate) struct Conveyors<const CAP: usize, const HOPS: usize> {
    sides: Vec<Side<CAP, HOPS>>,
    bank: PlainBank<CAP>,
}

impl<const CAP: usize, const HOPS: usize> Model for Conveyors<CAP, HOPS> {
    ghost use Rattle.std.specs.Prelude.{◌≡◌, ℕ, length, slice_index_or};
    ghost use Rattle.route_tensor.specs.Grid.{ranks};
    ghost use Rattle.port_bank.specs.Plain.{sent_of, got_of};
    ghost use Rattle.convey.specs.Buffers.{buffers_of};
    ghost use Rattle.convey.specs.Law.{AgreeTogether};

    ghost Value = { ℕ };

    ghost view = { λ a. length a.sides.items };

    ghost invariant = { λ a. (length a.sides.items ≡ ranks a.bank.dims) × ((d : _) → AgreeTogether a.bank.dims CAP
        a.bank.slots (λ r. buffers_of (slice_index_or a.sides.items r d).conveyor) (sent_of a.bank) (got_of a.bank)) };
}

impl<const CAP: usize, const HOPS: usize> Conveyors<CAP, HOPS> {
    /// The conveyors of a grid, with nothing pushed, over a bank of so many slots per link.
    pub(crate) fn new(
        alloc: Global,
        grid: &Grid,
        slots: u32,
        steady: bool,
    ) -> Result<Self, NoMemory>
        requires cap { IsCap CAP }
        requires hops { length grid.now ≡ HOPS }
        requires slots { IsSlots slots }
    {
        let bank = PlainBank::new(alloc, grid, slots)?;
        let mut sides = Vec::with_capacity(alloc, grid.ranks() as usize)?;
        for rank in 0..grid.ranks() {
            sides.push(Side::new(alloc, grid, rank, steady)?)?;
        }
        Ok(Conveyors { sides, bank })
    }

    /// Makes a call on the conveyor of a rank, over the rank's port of the bank.
    pub(crate) fn call(self, rank: u32, call: Call) -> Result<(Self, Answer), NoMemory> {
        let Conveyors { mut sides, bank } = self;
        if rank as usize >= sides.len() {
            return Ok((Conveyors { sides, bank }, Answer::NotMade));
        }
        exchange_law();
        let mut port = bank.port(rank);
        let answer = sides[rank as usize].make(&mut port, call)?;
        let bank = port.into_bank();
        Ok((Conveyors { sides, bank }, answer))
    }

    /// Makes the calls of ranks, up to the first that answers otherwise than wanted, and tells how
    /// many came before that.
    pub(crate) fn make_calls(
        self,
        calls: &[(u32, Call, Answer)],
    ) -> Result<(Self, usize), NoMemory> {
        let mut all = self;
        for (made, (rank, call, wanted)) in calls.iter().enumerate() {
            let (after, answer) = all.call(*rank, *call)?;
            all = after;
            if answer != *wanted {
                return Ok((all, made));
            }
        }
        Ok((all, calls.len()))
    }

    /// How many epochs the bank has ended.
    pub(crate) fn close(self) -> u64 {
        let Conveyors { sides: _, bank } = self;
        bank.close().epochs()
    }
}
