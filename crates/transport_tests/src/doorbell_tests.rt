//! The doorbells by hand: two ranks of the grid 2, and what the second collects. What each collect
//! hears and looks in is said by the clauses of `SlotSeat::collect`.
ghost use Rattle.std.specs.Prelude.{◌<◌};

use crate::hand::{Answer, Call, Hand};
use Answer::{Got, Nothing, Sent};
use Call::{Collect, Post};
use bale_items::NoMemory;
use link_slots::SlotBank;
use port_bank::Port;
use route_tensor::Grid;
use std::alloc::Global;
use std::test::Fail;

/// Makes the calls, each post at the first port and each collect at the second, and tells how many
/// came before the first that answered otherwise than wanted.
fn answered<P: Port<1>>(
    posts: Hand<P>,
    collects: Hand<P>,
    calls: &[(Call, Answer)],
) -> Result<usize, NoMemory> {
    let (mut posts, mut collects) = (posts, collects);
    for (made, (call, wanted)) in calls.iter().enumerate() {
        let answer = match call {
            Post(_, _) => {
                let (after, answer) = posts.make(*call)?;
                posts = after;
                answer
            }
            Collect(_) => {
                let (after, answer) = collects.make(*call)?;
                collects = after;
                answer
            }
        };
        if answer != *wanted {
            return Ok(made);
        }
    }
    Ok(calls.len())
}

/// Makes the calls at a bank of the grid 2 with two slots, if rank 0 posts and rank 1 collects.
#[tactic(auto, unfolding(port_bank::specs::Port::IsSlots))]
fn answered_by_slots(alloc: Global, calls: &[(Call, Answer)]) -> Result<usize, NoMemory> {
    let Ok(grid) = Grid::new(&[2]) else {
        return Ok(0);
    };
    if grid.links() != 4 {
        return Ok(0);
    }
    let (_hop, from, to) = grid.ends(1);
    if from == to {
        return Ok(0);
    }
    let (bank, mut gather) = SlotBank::<1>::new(alloc, &grid, 2)?;
    let zero = Hand::new(alloc, &grid, bank.port(bank.seat(&mut gather, from)))?;
    let one = Hand::new(alloc, &grid, bank.port(bank.seat(&mut gather, to)))?;
    answered(zero, one, calls)
}

#[test]
fn doorbells_by_hand(rt: HostRuntime) -> Result<(), Fail> {
    let calls = [
        // By a hear, which finds nothing.
        (Collect(1), Nothing),
        (Post(1, 7), Sent),
        // Without a step: the first hear was of this link's hop too.
        (Collect(3), Nothing),
        // Its hear marks link 1.
        (Collect(3), Nothing),
        // By a look in without a hear.
        (Collect(1), Got(7)),
        // By a hear.
        (Collect(1), Nothing),
        (Post(1, 8), Sent),
        // Its ring finds the bit set.
        (Post(1, 9), Sent),
        // By one hear and one look in for both parcels.
        (Collect(1), Got(8)),
        // Without a step of looking.
        (Collect(1), Got(9)),
        // By a hear.
        (Collect(1), Nothing),
    ];
    assert_eq!(rt; answered_by_slots(rt.alloc(), &calls)?, calls.len());
    Ok(())
}
