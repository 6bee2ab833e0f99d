//! The exstacks of all ranks, over a plain bank, in a test.
ghost use Rattle.std.specs.Prelude.{◌≡◌, ◌<◌, length};
ghost use Rattle.item_buffer.specs.Capacity.{IsCap};
ghost use Rattle.port_bank.specs.Port.{IsSlots};

use crate::exstack_side::{Answer, Call, Side};
use bale_items::NoMemory;
use exstack::exchange_law;
use port_bank::PlainBank;
use route_tensor::Grid;
use std::alloc::Global;
use std::marker::Model;

/// The exstacks of all ranks, which agree with the bank's logs. Contracts see how many there are.
#[derive(Drop)]
pub(crate) struct Exstacks<const CAP: usize> {
    sides: Vec<Side<CAP>>,
    bank: PlainBank<CAP>,
}

impl<const CAP: usize> Model for Exstacks<CAP> {
    ghost use Rattle.std.specs.Prelude.{◌≡◌, ◌∷◌, ℕ, [], length, slice_index_or};
    ghost use Rattle.port_bank.specs.Plain.{sent_of, got_of};
    ghost use Rattle.exstack.specs.Law.{StacksAgree};

    ghost Value = { ℕ };

    ghost view = { λ a. length a.sides.items };

    ghost invariant = { λ a. (a.bank.dims ≡ length a.sides.items ∷ []) × ((d : _) → StacksAgree
        (length a.sides.items) CAP a.bank.slots (λ r. (slice_index_or a.sides.items r d).stack)
        (sent_of a.bank) (got_of a.bank)) };
}

impl<const CAP: usize> Exstacks<CAP> {
    /// The exstacks of a grid of one number, with nothing pushed, over a bank of so many slots per
    /// link.
    pub(crate) fn new(alloc: Global, grid: &Grid, slots: u32) -> Result<Self, NoMemory>
        requires cap { IsCap CAP }
        requires one_hop { length grid.now ≡ 1 }
        requires slots { IsSlots slots }
    {
        let bank = PlainBank::new(alloc, grid, slots)?;
        let mut sides = Vec::with_capacity(alloc, grid.ranks() as usize)?;
        for rank in 0..grid.ranks() {
            sides.push(Side::new(alloc, grid, rank)?)?;
        }
        Ok(Exstacks { sides, bank })
    }

    /// Makes a call on the exstack of a rank, over the rank's port of the bank.
    fn call(self, rank: u32, call: Call) -> Result<(Self, Answer), NoMemory> {
        let Exstacks { mut sides, bank } = self;
        if rank as usize >= sides.len() {
            return Ok((Exstacks { sides, bank }, Answer::NotMade));
        }
        exchange_law();
        let mut port = bank.port(rank);
        let answer = sides[rank as usize].make(&mut port, call)?;
        let bank = port.into_bank();
        Ok((Exstacks { sides, bank }, answer))
    }

    /// Makes the calls of ranks, up to the first that answers otherwise than wanted, and tells how
    /// many came before that.
    pub(crate) fn make_calls(self, calls: &[(u32, Call, Answer)]) -> Result<usize, NoMemory> {
        let mut all = self;
        for (made, (rank, call, wanted)) in calls.iter().enumerate() {
            let (after, answer) = all.call(*rank, *call)?;
            all = after;
            if answer != *wanted {
                return Ok(made);
            }
        }
        Ok(calls.len())
    }
}
