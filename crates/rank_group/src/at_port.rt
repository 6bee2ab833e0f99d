//! A rank of a run of programs at its port of a slot bank.
ghost use Rattle.std.specs.Prelude.{◌<◌, ◌^◌};

use crate::noting::NotingPort;
use crate::rank_turn::turn_over;
use crate::sweep::Rank;
use bale_items::{NoMemory, Steps};
use port_bank::Port;
use rank_crews::{GateLog, Seated};
use round_program::Program;
use std::marker::Model;
use std::sync::Wait;
use std::sync::ledger::Ledger;
use std::thread;

/// More turns than a rank can make in a hundred years.
const TURNS: u64 = 1 << 63;

/// A rank and its port. There are 64 unused bytes on each side, so no other thread's rank is on a
/// cache line with it.
#[derive(Drop)]
#[repr(C)]
pub struct AtPort<'a, Q: Program, const CAP: usize, const HOPS: usize> {
    pub(crate) _before: [u64; 8],
    pub(crate) rank: Rank<Q, CAP, HOPS>,
    pub(crate) port: NotingPort<'a, CAP>,
    /// How many turns it has made.
    pub(crate) turns: u64,
    /// Its run is over, and memory ran out.
    pub(crate) lost: bool,
    pub(crate) _after: [u64; 8],
}

impl<'a, Q: Program, const CAP: usize, const HOPS: usize> Model for AtPort<'a, Q, CAP, HOPS> {
    ghost use Rattle.rank_group.specs.Seats.{SeatedState, HasSomeRun};

    ghost Value = { SeatedState Q };

    ghost view = { λ s. record { rank = s.rank; seat = s.port.port.seat; turns = s.turns; lost = s.lost } };

    ghost invariant = { λ s. HasSomeRun Q.rules CAP
        (record { rank = s.rank; seat = s.port.port.seat; turns = s.turns; lost = s.lost }) };
}

impl<'a, Q: Program, const CAP: usize, const HOPS: usize> Seated for AtPort<'a, Q, CAP, HOPS> {
    ghost use Rattle.std.specs.Prelude.{◌||◌};
    ghost use Rattle.rank_group.specs.Seats.{TookTurns, MadeNoProgress};
    ghost use Rattle.rank_group.specs.laws.SeatLaws.{ran_laws, none_laws};

    ghost ran = { λ notified x y. TookTurns Q.rules CAP notified x y };

    ghost number = { λ x. x.seat.rank };

    ghost turns = { λ x. x.turns };

    ghost over = { λ x. x.rank.over || x.lost };

    ghost still = { λ x y. MadeNoProgress x y };

    ghost laws = { λ notified. ran_laws Q.rules CAP notified };

    ghost still_laws = { none_laws };

    fn rank(&self) -> u32 {
        self.port.rank()
    }

    fn turn_count(&self) -> u64 {
        self.turns
    }

    fn is_over(&self) -> bool {
        self.rank.over || self.lost
    }

    fn turn<R: Wait, J: GateLog, L: Ledger>(&mut self, rt: &R, steps: &mut Steps<L>) -> bool {
        await_turn(rt, self.turns);
        self.turns += 1;
        self.port.watch();
        match turn_over(&mut self.rank, &mut self.port, steps) {
            Ok(got_on) => got_on || self.port.moved(),
            Err(NoMemory) => {
                self.lost = true;
                true
            }
        }
    }
}

/// Returns when a rank may make its next turn. One that made 2^63 turns waits for ever.
pub fn await_turn<R: Wait>(rt: &R, turns: u64)
    ensures { turns < 2 ^ 63 }
{
    if turns >= TURNS {
        for _ in rt.forever() {
            thread::yield_now();
        }
        unreachable!()
    }
}
