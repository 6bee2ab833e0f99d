//! Calls on conveyors in a worked order, each with its answer.
ghost use Rattle.std.specs.Prelude.{◌<◌};

use crate::conveyor_side::{Answer, Call};
use crate::conveyor_slots::answered_over_slots;
use crate::conveyors::Conveyors;
use Answer::{Advanced, Begun, Pulled, Unpulled};
use Call::{Advance, Begin, Pull, Push, Unpull};
use Progress::{Complete, More, Near};
use Pushed::{Accepted, Full};
use bale_items::{Item, NoMemory};
use convey::{Progress, Pushed};
use route_tensor::Grid;
use std::alloc::Global;
use std::test::Fail;

const X: Item = Item { a: 1, b: 0, c: 0 };

const Y: Item = Item { a: 2, b: 0, c: 0 };

const Z: Item = Item { a: 3, b: 0, c: 0 };

/// Makes the calls of ranks on the conveyors of grid 2 and capacity 2, over a plain bank with 2
/// slots per link, and tells how many came before the first that answered otherwise.
#[tactic(auto, unfolding(port_bank::specs::Port::IsSlots))]
fn answered(alloc: Global, steady: bool, calls: &[(u32, Call, Answer)]) -> Result<usize, NoMemory> {
    let Ok(grid) = Grid::new(&[2]) else {
        return Ok(0);
    };
    let ranks = Conveyors::<2, 1>::new(alloc, &grid, 2, steady)?;
    let (_ranks, made) = ranks.make_calls(calls)?;
    Ok(made)
}

/// The worked order of calls.
const WORKED: [(u32, Call, Answer); 22] = [
    (0, Begin, Begun),
    (1, Begin, Begun),
    (0, Push(X, 1), Answer::Pushed(Accepted)),
    (0, Push(Y, 1), Answer::Pushed(Accepted)),
    (0, Push(Z, 1), Answer::Pushed(Full)),
    (0, Advance(false), Advanced(More)),
    (0, Push(Z, 1), Answer::Pushed(Accepted)),
    (1, Advance(false), Advanced(More)),
    (1, Pull, Pulled(Some((0, X)))),
    (1, Pull, Pulled(Some((0, Y)))),
    (1, Unpull, Unpulled(true)),
    (1, Unpull, Unpulled(false)),
    (1, Pull, Pulled(Some((0, Y)))),
    (1, Pull, Pulled(None)),
    (1, Unpull, Unpulled(false)),
    (0, Advance(true), Advanced(Near)),
    (1, Advance(true), Advanced(Near)),
    (1, Pull, Pulled(Some((0, Z)))),
    (1, Advance(true), Advanced(Complete)),
    (0, Advance(true), Advanced(Complete)),
    (0, Call::Reset, Answer::Reset),
    (1, Call::Reset, Answer::Reset),
];

#[test]
fn conveyor_calls(rt: HostRuntime) -> Result<(), Fail> {
    assert_eq!(rt; answered(rt.alloc(), false, &WORKED)?, WORKED.len());
    assert_eq!(rt; answered_over_slots(rt.alloc(), &WORKED)?, WORKED.len());
    Ok(())
}

/// A steady conveyor sends a parcel that is not full.
#[test]
fn steady_by_hand(rt: HostRuntime) -> Result<(), Fail> {
    for (steady, pulled) in [(true, Some((0, X))), (false, None)] {
        let calls = [
            (0, Begin, Begun),
            (1, Begin, Begun),
            (0, Push(X, 1), Answer::Pushed(Accepted)),
            (0, Advance(false), Advanced(More)),
            (1, Advance(false), Advanced(More)),
            (1, Pull, Pulled(pulled)),
        ];
        assert_eq!(rt;
            answered(rt.alloc(), steady, &calls)?,
            calls.len(),
            "steady {steady}"
        );
    }
    Ok(())
}
