//! Two epochs of an exchange by calls on conveyors: three hops, parcels of one entry.
ghost use Rattle.std.specs.Prelude.{◌<◌};
ghost use Rattle.port_bank.specs.Port.{IsSlots};

use crate::conveyor_side::{Answer, Call};
use crate::conveyors::Conveyors;
use Answer::{Advanced, Begun, Pulled};
use Call::{Advance, Begin, Pull, Push, Reset};
use bale_items::{Item, NoMemory};
use convey::{Progress, Pushed};
use route_tensor::Grid;
use std::alloc::Global;
use std::test::Fail;

/// Which rank sends what to which.
const SENT: [(u32, Item, u32); 4] = [
    (0, Item { a: 0, b: 1, c: 0 }, 0),
    (1, Item { a: 2, b: 1, c: 0 }, 2),
    (2, Item { a: 2, b: 1, c: 0 }, 2),
    (3, Item { a: 2, b: 1, c: 0 }, 2),
];

/// More sweeps than the items need to arrive.
const SWEEPS: u32 = 16;

/// An item that was pulled: the epoch, its sender, itself, and the rank that pulled it.
type Got = (u64, u32, Item, u32);

/// The conveyors of eight ranks.
type Ranks = Conveyors<1, 3>;

/// A call of each of the eight ranks, and its answer.
fn of_each(call: Call, answer: Answer) -> [(u32, Call, Answer); 8] {
    let mut all = [(0, call, answer); 8];
    for rank in 1..8 {
        all[rank as usize].0 = rank;
    }
    all
}

/// A push of each item that is sent.
fn pushes() -> [(u32, Call, Answer); 4] {
    SENT.map(|(from, item, to)| (from, Push(item, to), Answer::Pushed(Pushed::Accepted)))
}

/// One epoch: all that was pulled in it, and whether all ranks came to its end and each call before
/// answered as it should.
/// It sweeps so often, with an advance and some pulls of each rank, that all that was pushed comes
/// to its destination.
fn epoch(ranks: Ranks, number: u64, pulled: &mut Vec<Got>) -> Result<(Ranks, bool), NoMemory> {
    let (ranks, begun) = ranks.make_calls(&of_each(Begin, Begun))?;
    let (mut ranks, pushed) = ranks.make_calls(&pushes())?;
    for turn in 0..SWEEPS * 8 {
        let rank = turn % 8;
        let (after, _) = ranks.call(rank, Advance(true))?;
        ranks = after;
        for _ in 0..SENT.len() {
            let (after, answer) = ranks.call(rank, Pull)?;
            ranks = after;
            if let Pulled(Some((from, item))) = answer {
                pulled.push((number, from, item, rank))?;
            }
        }
    }
    let over = of_each(Advance(true), Advanced(Progress::Complete));
    let (ranks, over) = ranks.make_calls(&over)?;
    let (ranks, reset) = ranks.make_calls(&of_each(Reset, Answer::Reset))?;
    Ok((ranks, (begun, pushed, over, reset) == (8, SENT.len(), 8, 8)))
}

/// Two epochs, with so many slots per link: how many the bank has ended, if no call answers
/// otherwise than it should.
fn exchange(alloc: Global, slots: u32, pulled: &mut Vec<Got>) -> Result<Option<u64>, NoMemory>
    requires slots { IsSlots slots }
{
    let Ok(grid) = Grid::new(&[2, 2, 2]) else {
        return Ok(None);
    };
    let ranks = Conveyors::new(alloc, &grid, slots, false)?;
    let (ranks, first) = epoch(ranks, 0, pulled)?;
    let (ranks, second) = epoch(ranks, 1, pulled)?;
    if first && second {
        Ok(Some(ranks.close()))
    } else {
        Ok(None)
    }
}

#[tactic(auto, unfolding(port_bank::specs::Port::IsSlots))]
#[test]
fn three_hops_by_calls(rt: HostRuntime) -> Result<(), Fail> {
    for slots in [1, 2] {
        let mut pulled = Vec::new(rt.alloc());
        assert_eq!(rt;
            exchange(rt.alloc(), slots, &mut pulled)?,
            Some(2),
            "{slots} slots"
        );
        assert_eq!(rt; pulled.len(), 2 * SENT.len(), "{slots} slots");
        for epoch in 0..2 {
            for (from, item, to) in SENT {
                assert!(rt;
                    pulled.contains(&(epoch, from, item, to)),
                    "{slots} slots, epoch {epoch} from {from} to {to}"
                );
            }
        }
    }
    Ok(())
}
