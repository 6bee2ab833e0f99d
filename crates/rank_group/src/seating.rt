//! The ranks of a drive get their seats at a slot bank and go to their ports, and leave them.
ghost use Rattle.std.specs.Prelude.{◌≡◌, ◌<◌, ◌^◌, false, List, map, length, replicate, slice_index_or, Some, None, IfOk, OnOk};
ghost use Rattle.std.specs.List.{All};
ghost use Rattle.list_laws.specs.Lists.{EachAt};
ghost use Rattle.route_tensor.specs.Grid.{ranks};
ghost use Rattle.rank_node.specs.Movers.{Manner};
ghost use Rattle.rank_group.specs.Drives.{AreFresh};
ghost use Rattle.rank_group.specs.Seats.{bank_of, AreSeated};

use crate::at_port::AtPort;
use crate::list_parts::one_by_one;
use crate::noting::NotingPort;
use crate::sweep::Rank;
use bale_items::NoMemory;
use link_slots::{GatherSeat, SlotBank};
use round_program::Program;
use std::alloc::Global;

/// Gives each rank its seat, with which it goes to its port.
pub(crate) fn seat_all<'a, const CAP: usize, const HOPS: usize, Q: Program>(
    alloc: Global,
    bank: &'a SlotBank<CAP>,
    gather: &mut GatherSeat<CAP>,
    all: Vec<Rank<Q, CAP, HOPS>>,
) -> Result<Vec<AtPort<'a, Q, CAP, HOPS>>, NoMemory>
    requires bank { (gather.old.id ≡ bank.now.id) × (gather.old.shape ≡ bank.now.shape) }
    requires none { gather.old.given ≡ replicate (ranks bank.now.shape.dims) false }
    requires size { length all.items ≡ ranks bank.now.shape.dims }
    requires few { ranks bank.now.shape.dims < 2 ^ 32 }
    requires fresh { (manner : Manner) × (starts : List Q)
        × AreFresh Q.rules bank.now.shape.dims CAP manner starts all.items }
    ensures bank { (gather.new.id ≡ bank.now.id) × (gather.new.shape ≡ bank.now.shape) }
    ensures ranks { IfOk result (λ xs. map (λ x. x.rank) xs.items ≡ all.items) }
    ensures seated { (manner : Manner) (starts : List Q)
        → AreFresh Q.rules bank.now.shape.dims CAP manner starts all.items
        → IfOk result (λ xs. AreSeated Q.rules CAP manner bank.now xs.items) }
{
    let Ok(mut seated) = Vec::with_capacity(alloc, all.len()) else {
        return Err(NoMemory);
    };
    let mut number = 0;
    let Ok(all) = one_by_one(alloc, all) else {
        return Err(NoMemory);
    };
    for rank in all {
        let seat = bank.seat(gather, number);
        let port = NotingPort::new(bank.port(seat));
        seated.push_reserved(AtPort {
            _before: [0; 8],
            rank,
            port,
            turns: 0,
            lost: false,
            _after: [0; 8],
        });
        number += 1;
    }
    Ok(seated)
}

/// Gathers the seats of ranks whose runs are over.
///
/// # Errors
/// `NoMemory` if memory ran out at the end of a rank's run, or for a list.
pub(crate) fn gather_all<'a, const CAP: usize, const HOPS: usize, Q: Program>(
    alloc: Global,
    bank: &SlotBank<CAP>,
    gather: &mut GatherSeat<CAP>,
    ended: Vec<AtPort<'a, Q, CAP, HOPS>>,
) -> Result<Vec<Rank<Q, CAP, HOPS>>, NoMemory>
    requires bank { (gather.old.id ≡ bank.now.id) × (gather.old.shape ≡ bank.now.shape) }
    requires same { All (λ y. bank_of y ≡ bank.now) ended.items }
    requires number { EachAt (λ r y. y.seat.rank ≡ r) ended.items }
    ensures bank { (gather.new.id ≡ bank.now.id) × (gather.new.shape ≡ bank.now.shape) }
    ensures ranks { IfOk result (λ rs. rs.items ≡ map (λ y. y.rank) ended.entry.items) }
    ensures none_lost { OnOk result (All (λ y. y.lost ≡ false) ended.entry.items) }
    ensures there { OnOk result (EachAt (λ r y. slice_index_or gather.new.lists r None
        ≡ Some y.seat.lists) ended.entry.items) }
{
    let Ok(mut ranks) = Vec::with_capacity(alloc, ended.len()) else {
        return Err(NoMemory);
    };
    let Ok(ended) = one_by_one(alloc, ended) else {
        return Err(NoMemory);
    };
    for seated in ended {
        let AtPort {
            _before: _,
            rank,
            port,
            turns: _,
            lost,
            _after: _,
        } = seated;
        if lost {
            return Err(NoMemory);
        }
        bank.gather(gather, port.into_seat());
        ranks.push_reserved(rank);
    }
    Ok(ranks)
}
