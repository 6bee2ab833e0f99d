//! A port that notes whether a parcel moved.
ghost use Rattle.std.specs.Prelude.{◌≡◌, true, false};
ghost use Rattle.rank_group.specs.TurnNotes.{HasSame, NoLess};

use bale_items::NoMemory;
use item_buffer::Parcel;
use link_slots::{SlotPort, SlotSeat};
use port_bank::{Collected, Fixed, Port, Posted};
use std::snapshot::Snapshot;

/// A rank's port at a slot bank, and whether a parcel was posted or collected there since `watch`.
#[derive(Drop)]
pub struct NotingPort<'a, const CAP: usize> {
    port: SlotPort<'a, CAP>,
    moved: bool,
    /// The port as it was at the latest `watch`, for contracts alone.
    first: Snapshot<SlotPort<'a, CAP>>,
    pub ghost noted: { moved ≡ false → HasSame first.value.seat port.seat },
    pub ghost grew: { NoLess first.value.seat port.seat },
    pub ghost went: { moved ≡ true → HasSame first.value.seat port.seat → ⊥ },
}

impl<'a, const CAP: usize> NotingPort<'a, CAP> {
    /// The port, which begins to watch.
    pub fn new(port: SlotPort<'a, CAP>) -> NotingPort<'a, CAP>
        ensures seat { result.port.seat ≡ port.entry.seat }
    {
        let first = Snapshot::of(&port);
        NotingPort {
            port,
            moved: false,
            first,
        }
    }

    /// Forgets what it noted.
    pub fn watch(&mut self)
        ensures port { self.new.port ≡ self.old.port }
        ensures first { self.new.first.value ≡ self.old.port }
    {
        self.first = Snapshot::of(&self.port);
        self.moved = false;
    }

    /// Whether a parcel was posted or collected since the latest `watch`.
    pub fn moved(&self) -> bool
        ensures none { result ≡ false → HasSame self.now.first.value.seat self.now.port.seat }
        ensures some { result ≡ true → HasSame self.now.first.value.seat self.now.port.seat → ⊥ }
    {
        self.moved
    }

    /// The seat.
    pub fn into_seat(self) -> SlotSeat<CAP>
        ensures seat { result ≡ self.entry.port.seat }
    {
        let NotingPort {
            port,
            moved: _,
            first: _,
        } = self;
        port.into_seat()
    }
}

impl<'a, const CAP: usize> Port<CAP> for NotingPort<'a, CAP> {
    ghost use Rattle.link_slots.specs.PortCalls.{DidPost, DidCollect};
    ghost use Rattle.link_slots.specs.SeatView.{port_view, posted_on, collected_from, table_name};
    ghost use Rattle.port_bank.specs.Calls.{calls_of};

    type Memory = Fixed;

    // No call changes what it had at the latest `watch`: that belongs to its others.
    ghost view = { λ p. record (port_view p.port.seat (calls_of p.port.calls.value)) {
      others = record {
        bank = table_name p.port.seat.id;
        sent = posted_on p.first.value.seat;
        got = collected_from p.first.value.seat;
      };
    } };

    ghost post_does = { λ old l p result new. DidPost old.port.seat new.port.seat l p result };

    ghost collect_does = { λ old l p result new. DidCollect old.port.seat new.port.seat l result };

    fn rank(&self) -> u32 {
        self.port.rank()
    }

    fn post(&mut self, link: u32, p: &mut Parcel<CAP>) -> Result<Posted, NoMemory> {
        let posted = self.port.post(link, p)?;
        match posted {
            Posted::Sent => self.moved = true,
            Posted::NoRoom => {}
        }
        Ok(posted)
    }

    #[inline]
    fn collect(&mut self, link: u32, p: &mut Parcel<CAP>) -> Collected {
        let collected = self.port.collect(link, p);
        match collected {
            Collected::Got => self.moved = true,
            Collected::Nothing => {}
        }
        collected
    }
}
