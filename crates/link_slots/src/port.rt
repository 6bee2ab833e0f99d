//! A rank's port: its seat, with the bank.
ghost use Rattle.atomic_table.specs.Seated.{TableId};
ghost use Rattle.link_slots.specs.SeatView.{table_name};
ghost use Rattle.std.specs.Prelude.{◌≡◌, ◌++◌, ◌∷◌, []};
ghost use Rattle.port_bank.specs.Calls.{calls_of};
ghost use Rattle.port_bank.specs.Calls.Call.{Post, Collect};

use crate::seat::SlotSeat;
use crate::slot_bank::SlotBank;
use bale_items::NoMemory;
use item_buffer::Parcel;
use port_bank::{Calls, Collected, Fixed, Memory, Port, Posted};
use std::mem;
use std::snapshot::Snapshot;

/// The port of one rank at a slot bank. It takes no memory, and no call on it waits.
#[derive(Drop)]
pub struct SlotPort<'a, const CAP: usize> {
    bank: &'a SlotBank<CAP>,
    seat: SlotSeat<CAP>,
    /// The calls on the port, which contracts alone see: none of them is kept.
    calls: Snapshot<Calls>,
    pub ghost own: { (seat.id ≡ bank.now.id) × (seat.shape ≡ bank.now.shape) },
}

impl<const CAP: usize> SlotBank<CAP> {
    /// The port of the rank whose seat it is.
    pub fn port(&self, seat: SlotSeat<CAP>) -> SlotPort<'_, CAP>
        requires bank { (seat.id ≡ self.now.id) × (seat.shape ≡ self.now.shape) }
        ensures seat { result.seat ≡ seat.entry }
    {
        SlotPort {
            bank: self,
            seat,
            calls: Snapshot::of(&Calls::None),
        }
    }
}

impl<'a, const CAP: usize> SlotPort<'a, CAP> {
    /// The seat, with what this rank sent and got.
    pub fn into_seat(self) -> SlotSeat<CAP>
        ensures seat { result ≡ self.entry.seat }
        ensures one_bank { (id : TableId) → table_name self.entry.seat.id ≡ table_name id → self.entry.seat.id ≡ id }
    {
        let SlotPort {
            bank: _,
            seat,
            calls: _,
        } = self;
        seat
    }
}

impl<'a, const CAP: usize> Port<CAP> for SlotPort<'a, CAP> {
    ghost use Rattle.link_slots.specs.PortCalls.{DidPost, DidCollect};
    ghost use Rattle.link_slots.specs.SeatView.{port_view};
    ghost use Rattle.port_bank.specs.Calls.{calls_of};

    type Memory = Fixed;

    ghost view = { λ p. port_view p.seat (calls_of p.calls.value) };

    ghost post_does = { λ old l p result new. DidPost old.seat new.seat l p result };

    ghost collect_does = { λ old l p result new. DidCollect old.seat new.seat l result };

    fn rank(&self) -> u32 {
        self.seat.rank()
    }

    fn post(&mut self, link: u32, p: &mut Parcel<CAP>) -> Result<Posted, NoMemory> {
        note_post(&mut self.calls, link);
        Ok(self.seat.post(self.bank, link, p))
    }

    #[inline]
    fn collect(&mut self, link: u32, p: &mut Parcel<CAP>) -> Collected {
        note_collect(&mut self.calls, link);
        self.seat.collect(self.bank, link, p)
    }
}

/// Notes a post on a link.
#[inline]
fn note_post(calls: &mut Snapshot<Calls>, link: u32)
    ensures { calls_of calls.new.value ≡ calls_of calls.old.value ++ Post link ∷ [] }
{
    let before = mem::replace(calls, Snapshot::of(&Calls::None));
    let all = Calls::Post(before, Snapshot::of(&link));
    *calls = Snapshot::of(&all);
}

/// Notes a collect from a link.
#[inline]
fn note_collect(calls: &mut Snapshot<Calls>, link: u32)
    ensures { calls_of calls.new.value ≡ calls_of calls.old.value ++ Collect link ∷ [] }
{
    let before = mem::replace(calls, Snapshot::of(&Calls::None));
    let all = Calls::Collect(before, Snapshot::of(&link));
    *calls = Snapshot::of(&all);
}

// Callers depend on it: no call on a slot port takes memory.
const _: () = prove!(!<<SlotPort<'static, 1> as Port<1>>::Memory as Memory>::GROWS);
