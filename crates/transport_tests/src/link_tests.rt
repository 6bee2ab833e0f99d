//! The slot bank and the plain bank by hand, by the same rows.
ghost use Rattle.std.specs.Prelude.{◌<◌};
ghost use Rattle.port_bank.specs.Port.{IsSlots};

use crate::hand::{Answer, Call, Hand};
use Answer::{Got, NoRoom, Nothing, Sent};
use Call::{Collect, Post};
use bale_items::NoMemory;
use link_slots::SlotBank;
use port_bank::{PlainBank, Port};
use route_tensor::Grid;
use std::alloc::Global;
use std::test::Fail;

/// Makes the calls, and tells how many came before the first that answered otherwise than wanted.
fn answered<P: Port<1>>(hand: Hand<P>, calls: &[(Call, Answer)]) -> Result<usize, NoMemory> {
    let mut hand = hand;
    for (made, (call, wanted)) in calls.iter().enumerate() {
        let (after, answer) = hand.make(*call)?;
        hand = after;
        if answer != *wanted {
            return Ok(made);
        }
    }
    Ok(calls.len())
}

/// Makes the calls at the one rank of the grid 1, over the slot bank.
fn answered_by_slots(alloc: Global, slots: u32, calls: &[(Call, Answer)]) -> Result<usize, NoMemory>
    requires slots { IsSlots slots }
{
    let Ok(grid) = Grid::new(&[1]) else {
        return Ok(0);
    };
    if grid.links() == 0 {
        return Ok(0);
    }
    let (_hop, rank, _reader) = grid.ends(0);
    let (bank, mut gather) = SlotBank::<1>::new(alloc, &grid, slots)?;
    let hand = Hand::new(alloc, &grid, bank.port(bank.seat(&mut gather, rank)))?;
    answered(hand, calls)
}

/// And at the plain bank.
fn answered_by_plain(alloc: Global, slots: u32, calls: &[(Call, Answer)]) -> Result<usize, NoMemory>
    requires slots { IsSlots slots }
{
    let Ok(grid) = Grid::new(&[1]) else {
        return Ok(0);
    };
    if grid.links() == 0 {
        return Ok(0);
    }
    let (_hop, rank, _reader) = grid.ends(0);
    let plain = PlainBank::<1>::new(alloc, &grid, slots)?.port(rank);
    answered(Hand::new(alloc, &grid, plain)?, calls)
}

/// And at each of the two.
fn both_answered(
    alloc: Global,
    slots: u32,
    calls: &[(Call, Answer)],
) -> Result<[usize; 2], NoMemory>
    requires slots { IsSlots slots }
{
    Ok([
        answered_by_slots(alloc, slots, calls)?,
        answered_by_plain(alloc, slots, calls)?,
    ])
}

/// And slots_by_hand: with one slot and with four.
#[test]
#[tactic(auto, unfolding(port_bank::specs::Port::IsSlots))]
fn slot_bank_by_hand(rt: HostRuntime) -> Result<(), Fail> {
    let two = [
        (Post(0, 1), Sent),
        (Post(0, 2), Sent),
        (Post(0, 3), NoRoom),
        (Collect(0), Got(1)),
        (Post(0, 3), Sent),
        (Collect(0), Got(2)),
        (Collect(0), Got(3)),
        (Collect(0), Nothing),
    ];
    let one = [
        (Post(0, 1), Sent),
        (Post(0, 2), NoRoom),
        (Collect(0), Got(1)),
        (Post(0, 2), Sent),
        (Collect(0), Got(2)),
        (Collect(0), Nothing),
    ];
    let four = [
        (Post(0, 1), Sent),
        (Post(0, 2), Sent),
        (Post(0, 3), Sent),
        (Post(0, 4), Sent),
        (Post(0, 5), NoRoom),
    ];
    assert_eq!(rt; both_answered(rt.alloc(), 2, &two)?, [8, 8]);
    assert_eq!(rt; both_answered(rt.alloc(), 1, &one)?, [6, 6]);
    assert_eq!(rt; both_answered(rt.alloc(), 4, &four)?, [5, 5]);
    Ok(())
}
