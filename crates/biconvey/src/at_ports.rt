//! A rank of an exchange at its two ports, of two slot banks.

use bale_items::Steps;
use port_bank::Port;
use query_node::BiNode;
use rank_group::{GateLog, NotingPort, Seated, await_turn};
use round_program::Asker;
use std::marker::Model;
use std::sync::Wait;
use std::sync::ledger::Ledger;

/// A rank, its port of queries and its port of replies. There are 64 unused bytes on each side,
/// so no other thread's rank is on a cache line with it.
#[derive(Drop)]
#[repr(C)]
pub struct AtPorts<'a, A: Asker, const CAP: usize, const HOPS: usize> {
    pub(crate) _before: [u64; 8],
    pub(crate) node: BiNode<A, CAP, HOPS>,
    pub(crate) queries: NotingPort<'a, CAP>,
    pub(crate) replies: NotingPort<'a, CAP>,
    /// How many turns it has made.
    pub(crate) turns: u64,
    pub(crate) _after: [u64; 8],
}

impl<'a, A: Asker, const CAP: usize, const HOPS: usize> Model for AtPorts<'a, A, CAP, HOPS> {
    ghost use Rattle.biconvey.specs.Seats.{BiSeatedState, HasSomeBiRun};

    ghost Value = { BiSeatedState A };

    ghost view = { λ s. record {
      node = s.node;
      queries = s.queries.port.seat;
      replies = s.replies.port.seat;
      turns = s.turns;
    } };

    ghost invariant = { λ s. HasSomeBiRun A.talk CAP
        (record { node = s.node; queries = s.queries.port.seat; replies = s.replies.port.seat; turns = s.turns }) };
}

impl<'a, A: Asker, const CAP: usize, const HOPS: usize> Seated for AtPorts<'a, A, CAP, HOPS> {
    ghost use Rattle.biconvey.specs.Seats.{TookBiTurns, AskerMadeNoProgress};
    ghost use Rattle.biconvey.specs.laws.SeatLaws.{bi_ran_laws, asker_none_laws};
    ghost use Rattle.biconvey.specs.RanksOverBanks.{is_over};

    ghost ran = { λ notified x y. TookBiTurns A.talk CAP notified x y };

    ghost number = { λ x. x.queries.rank };

    ghost turns = { λ x. x.turns };

    ghost over = { λ x. is_over x.node };

    ghost still = { λ x y. AskerMadeNoProgress x y };

    ghost laws = { λ notified. bi_ran_laws A.talk CAP notified };

    ghost still_laws = { asker_none_laws };

    fn rank(&self) -> u32 {
        self.queries.rank()
    }

    fn turn_count(&self) -> u64 {
        self.turns
    }

    fn is_over(&self) -> bool {
        self.node.is_over()
    }

    fn turn<R: Wait, J: GateLog, L: Ledger>(&mut self, rt: &R, steps: &mut Steps<L>) -> bool {
        await_turn(rt, self.turns);
        self.turns += 1;
        self.queries.watch();
        self.replies.watch();
        let asked = self.node.asked();
        let Ok(_turn) = self.node.turn(&mut self.queries, &mut self.replies, steps) else {
            unreachable!()
        };
        let has_asked = self.node.asked() != asked;
        let has_ended = self.node.is_over();
        has_asked | has_ended | self.queries.moved() | self.replies.moved()
    }
}
