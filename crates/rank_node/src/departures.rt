//! A conveyor and an exstack, as what takes the items that a rank sends.
ghost use Rattle.std.specs.Prelude.{◌≡◌};
ghost use Rattle.rank_node.specs.Pushes.{MayPush, AfterConveyorPush, MayFill, FillsOne};
ghost use Rattle.rank_node.specs.laws.PushLaws.{push_stays, fill_stays};

use bale_items::Item;
use convey::{Conveyor, Pushed};
use exstack::Exstack;
use round_program::Departures;

/// A conveyor: it takes an item until an open parcel is full.
#[derive(Drop)]
pub(crate) struct OnConveyor<'a, const CAP: usize, const HOPS: usize> {
    pub(crate) conveyor: &'a mut Conveyor<CAP, HOPS>,
}

impl<'a, const CAP: usize, const HOPS: usize> Departures for OnConveyor<'a, CAP, HOPS> {
    ghost may = { λ s to. MayPush s.conveyor.now to };

    ghost hands = { λ s to x accepted t. (t.conveyor.ghost_name ≡ s.conveyor.ghost_name)
        × AfterConveyorPush CAP s.conveyor.now to x accepted t.conveyor.now };

    ghost stays = { λ s t to other x accepted h. push_stays CAP s.conveyor.now t.conveyor.now to other x accepted h.1 };

    fn push(&mut self, to: u32, item: Item) -> bool {
        match self.conveyor.push(item, to) {
            Pushed::Accepted => true,
            Pushed::Full => false,
        }
    }
}

/// An exstack: it takes an item until a buffer is full.
#[derive(Drop)]
pub(crate) struct OnExstack<'a, const CAP: usize> {
    pub(crate) exstack: &'a mut Exstack<CAP>,
}

impl<'a, const CAP: usize> Departures for OnExstack<'a, CAP> {
    ghost may = { λ s to. MayFill s.exstack.now to };

    ghost hands = { λ s to x accepted t. (t.exstack.ghost_name ≡ s.exstack.ghost_name)
        × FillsOne CAP s.exstack.now to x accepted t.exstack.now };

    ghost stays = { λ s t to other x accepted h. fill_stays CAP s.exstack.now t.exstack.now to other x accepted h.1 };

    fn push(&mut self, to: u32, item: Item) -> bool {
        if self.exstack.push(item, to) == 0 {
            return false;
        }
        true
    }
}
