//! Calls on exstacks in a worked order, each with its answer.
ghost use Rattle.std.specs.Prelude.{◌<◌};

use crate::exstack_side::{Answer, Call};
use crate::exstacks::Exstacks;
use Answer::{Exchanged, Popped, Proceeded, Pushed, Unpopped};
use Call::{Exchange, Pop, Push, Unpop};
use Poll::Ready;
use Proceed::{AllDone, GoOn};
use bale_items::{Item, NoMemory};
use exstack::{Poll, Proceed};
use route_tensor::Grid;
use std::alloc::Global;
use std::test::Fail;

const X: Item = Item { a: 1, b: 0, c: 0 };

const Y: Item = Item { a: 2, b: 0, c: 0 };

const Z: Item = Item { a: 3, b: 0, c: 0 };

/// Makes the calls of so many ranks on their exstacks of capacity 2, over a plain bank with 2 slots
/// per link, and tells how many came before the first that answered otherwise.
#[tactic(auto, unfolding(port_bank::specs::Port::IsSlots))]
fn answered(alloc: Global, ranks: u32, calls: &[(u32, Call, Answer)]) -> Result<usize, NoMemory> {
    let Ok(grid) = Grid::new(&[ranks]) else {
        return Ok(0);
    };
    Exstacks::<2>::new(alloc, &grid, 2)?.make_calls(calls)
}

/// The worked order of calls.
const WORKED: [(u32, Call, Answer); 23] = [
    (0, Call::Proceed(false), Proceeded(Proceed::NotYet(2))),
    (1, Call::Proceed(true), Proceeded(GoOn)),
    (0, Call::Proceed(false), Proceeded(GoOn)),
    (0, Push(X, 1), Pushed(2)),
    (0, Push(Y, 1), Pushed(1)),
    (0, Push(Z, 1), Pushed(0)),
    (0, Exchange, Exchanged(Ready)),
    (1, Exchange, Exchanged(Ready)),
    (1, Pop, Popped(Some((0, X)))),
    (1, Pop, Popped(Some((0, Y)))),
    (1, Pop, Popped(None)),
    (1, Unpop, Unpopped(false)),
    (0, Call::Proceed(false), Proceeded(GoOn)),
    (0, Push(Z, 1), Pushed(2)),
    (0, Exchange, Exchanged(Ready)),
    (0, Call::Proceed(true), Proceeded(Proceed::NotYet(1))),
    (1, Call::Proceed(true), Proceeded(GoOn)),
    (1, Exchange, Exchanged(Ready)),
    (1, Pop, Popped(Some((0, Z)))),
    (0, Call::Proceed(true), Proceeded(AllDone)),
    (1, Call::Proceed(true), Proceeded(AllDone)),
    (0, Call::Reset, Answer::Reset),
    (1, Call::Reset, Answer::Reset),
];

/// Rank 0 waits for the parcel of rank 2, while rank 1 has the one of the next cycle posted: that
/// stays where it is.
const AHEAD: [(u32, Call, Answer); 13] = [
    (0, Call::Proceed(false), Proceeded(Proceed::NotYet(3))),
    (1, Call::Proceed(false), Proceeded(Proceed::NotYet(7))),
    (2, Call::Proceed(false), Proceeded(GoOn)),
    (0, Call::Proceed(false), Proceeded(GoOn)),
    (1, Call::Proceed(false), Proceeded(GoOn)),
    (1, Exchange, Exchanged(Poll::NotYet(1))),
    (0, Exchange, Exchanged(Poll::NotYet(6))),
    (2, Exchange, Exchanged(Ready)),
    (1, Exchange, Exchanged(Ready)),
    (1, Call::Proceed(false), Proceeded(Proceed::NotYet(1))),
    (0, Exchange, Exchanged(Ready)),
    // Not for link 3, whose parcel of this cycle is there.
    (0, Call::Proceed(false), Proceeded(Proceed::NotYet(6))),
    (2, Call::Proceed(false), Proceeded(GoOn)),
];

#[test]
fn exstack_calls(rt: HostRuntime) -> Result<(), Fail> {
    assert_eq!(rt; answered(rt.alloc(), 2, &WORKED)?, WORKED.len());
    assert_eq!(rt; answered(rt.alloc(), 3, &AHEAD)?, AHEAD.len());
    Ok(())
}

/// Two senders, and a reader that takes what came of each.
const BY_SENDER: [(u32, Call, Answer); 20] = [
    (0, Call::Proceed(false), Proceeded(Proceed::NotYet(2))),
    (1, Call::Proceed(false), Proceeded(GoOn)),
    (0, Call::Proceed(false), Proceeded(GoOn)),
    (0, Push(X, 1), Pushed(2)),
    (0, Call::Look(1), Answer::Seen(0, 1, 1)),
    (1, Push(Y, 1), Pushed(2)),
    (1, Push(Z, 1), Pushed(1)),
    (1, Call::Look(0), Answer::Seen(0, 2, 0)),
    (0, Exchange, Exchanged(Poll::NotYet(2))),
    (1, Exchange, Exchanged(Ready)),
    (1, Call::Look(1), Answer::Seen(3, 2, 2)),
    (1, Call::PopAll, Answer::PoppedAll(0, 1)),
    (1, Pop, Popped(Some((1, Y)))),
    (1, Unpop, Unpopped(true)),
    (1, Unpop, Unpopped(false)),
    (1, Call::PopAll, Answer::PoppedAll(1, 2)),
    (1, Unpop, Unpopped(true)),
    (1, Pop, Popped(Some((1, Z)))),
    (1, Call::PopAll, Popped(None)),
    (0, Exchange, Exchanged(Ready)),
];

/// Items of two senders, popped by sender, with what is unread and how much room there is.
#[test]
fn pops_by_sender(rt: HostRuntime) -> Result<(), Fail> {
    assert_eq!(rt; answered(rt.alloc(), 2, &BY_SENDER)?, BY_SENDER.len());
    Ok(())
}
