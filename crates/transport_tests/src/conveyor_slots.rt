//! The conveyors of two ranks over a slot bank, whose ports one thread turns.
ghost use Rattle.std.specs.Prelude.{◌<◌};
ghost use Rattle.transport_tests.specs.ByHand.{BeginsAt};

use crate::conveyor_side::{Answer, Call, Side};
use bale_items::NoMemory;
use link_slots::SlotBank;
use port_bank::Port;
use route_tensor::Grid;
use std::alloc::Global;
use std::marker::Model;

/// A rank's conveyor and its port, which agree. Contracts see its number.
#[derive(Drop)]
struct AtPort<P: Port<2>> {
    side: Side<2, 1>,
    port: P,
}

impl<P: Port<2>> Model for AtPort<P> {
    ghost use Rattle.std.specs.Prelude.{ℕ};
    ghost use Rattle.convey.specs.Advance.{IsAtPort};

    ghost Value = { ℕ };

    ghost view = { λ a. (P.view a.port).rank };

    ghost invariant = { λ a. IsAtPort a.side.conveyor (P.view a.port) };
}

impl<P: Port<2>> AtPort<P> {
    fn make(&mut self, call: Call) -> Result<Answer, NoMemory> {
        self.side.make(&mut self.port, call)
    }
}

/// A rank's conveyor at a port on which nothing was done.
fn at_port<P: Port<2>>(alloc: Global, grid: &Grid, port: P) -> Result<AtPort<P>, NoMemory>
    requires begins { BeginsAt (P.view port) grid.now }
{
    let side = Side::<2, 1>::new(alloc, grid, port.rank(), false)?;
    Ok(AtPort { side, port })
}

/// Makes the calls of two ranks, up to the first that answers otherwise than wanted, and tells how
/// many came before that.
fn make_calls<P: Port<2>>(
    zero: &mut AtPort<P>,
    one: &mut AtPort<P>,
    calls: &[(u32, Call, Answer)],
) -> Result<usize, NoMemory> {
    for (made, (rank, call, wanted)) in calls.iter().enumerate() {
        let answer = if *rank == 0 {
            zero.make(*call)?
        } else {
            one.make(*call)?
        };
        if answer != *wanted {
            return Ok(made);
        }
    }
    Ok(calls.len())
}

/// Makes the calls of ranks on the conveyors of grid 2 and capacity 2, over a slot bank with 2
/// slots per link, and tells how many came before the first that answered otherwise.
#[tactic(auto, unfolding(port_bank::specs::Port::IsSlots))]
pub(crate) fn answered_over_slots(
    alloc: Global,
    calls: &[(u32, Call, Answer)],
) -> Result<usize, NoMemory> {
    let Ok(grid) = Grid::new(&[2]) else {
        return Ok(0);
    };
    if grid.links() != 4 {
        return Ok(0);
    }
    let (_hop, from, to) = grid.ends(1);
    if from == to {
        return Ok(0);
    }
    let (bank, mut gather) = SlotBank::<2>::new(alloc, &grid, 2)?;
    let mut zero = at_port(alloc, &grid, bank.port(bank.seat(&mut gather, from)))?;
    let mut one = at_port(alloc, &grid, bank.port(bank.seat(&mut gather, to)))?;
    make_calls(&mut zero, &mut one, calls)
}
