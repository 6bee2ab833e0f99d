//! What a rank sent and received, counted as its buffers go out and come in.
ghost use Rattle.std.specs.Prelude.{◌≡◌};
ghost use Rattle.list_laws.specs.Counts.{saturated_count};
ghost use Rattle.rank_handles.specs.Statistics.{no_statistics, sent_one, received_one, statistics_on};

use bale_items::NoMemory;
use item_buffer::Parcel;
use link_slots::{SlotPort, SlotSeat};
use port_bank::{Collected, Fixed, Port, Posted};

/// What a rank sent and received since it was made, in all its epochs. A number that would be 2^64
/// or more stays at 2^64 - 1.
#[repr(C)]
#[derive(Clone, Copy, PartialEq, Eq, Debug)]
pub struct BaleStatistics {
    pub buffers_sent: u64,
    pub items_sent: u64,
    pub buffers_received: u64,
    pub items_received: u64,
}

impl BaleStatistics {
    /// Of a rank that sent and received nothing.
    pub(crate) fn none() -> BaleStatistics
        ensures { result ≡ no_statistics }
    {
        BaleStatistics {
            buffers_sent: 0,
            items_sent: 0,
            buffers_received: 0,
            items_received: 0,
        }
    }

    /// Once one buffer more is sent, with so many items.
    fn sent(&mut self, items: u32)
        ensures { self.new ≡ sent_one items self.old }
    {
        self.buffers_sent = self.buffers_sent.saturating_add(1);
        self.items_sent = self.items_sent.saturating_add(u64::from(items));
    }

    /// Once one buffer more is received, with so many items.
    #[inline]
    fn received(&mut self, items: u32)
        ensures { self.new ≡ received_one items self.old }
    {
        self.buffers_received = self.buffers_received.saturating_add(1);
        self.items_received = self.items_received.saturating_add(u64::from(items));
    }
}

/// A rank's port at a slot bank, with what the rank sent and received.
#[derive(Drop)]
pub(crate) struct CountingPort<'a, const CAP: usize> {
    port: SlotPort<'a, CAP>,
    statistics: BaleStatistics,
    pub ghost counted: { statistics ≡ statistics_on port.seat },
}

impl<'a, const CAP: usize> CountingPort<'a, CAP> {
    /// The port, with what the rank sent and received so far.
    pub(crate) fn new(port: SlotPort<'a, CAP>, statistics: BaleStatistics) -> CountingPort<'a, CAP>
        requires counted { statistics ≡ statistics_on port.seat }
        ensures port { result.port ≡ port.entry }
    {
        CountingPort { port, statistics }
    }

    /// The port, and what the rank sent and received.
    pub(crate) fn into_parts(self) -> (SlotPort<'a, CAP>, BaleStatistics)
        ensures port { result.0 ≡ self.entry.port }
        ensures counted { result.1 ≡ statistics_on self.entry.port.seat }
    {
        let CountingPort { port, statistics } = self;
        (port, statistics)
    }
}

impl<'a, const CAP: usize> Port<CAP> for CountingPort<'a, CAP> {
    ghost use Rattle.link_slots.specs.PortCalls.{DidPost, DidCollect};
    ghost use Rattle.link_slots.specs.SeatView.{port_view};
    ghost use Rattle.port_bank.specs.Calls.{calls_of};

    type Memory = Fixed;

    ghost view = { λ p. port_view p.port.seat (calls_of p.port.calls.value) };

    ghost post_does = { λ old l p result new. DidPost old.port.seat new.port.seat l p result };

    ghost collect_does = { λ old l p result new. DidCollect old.port.seat new.port.seat l result };

    fn rank(&self) -> u32 {
        self.port.rank()
    }

    fn post(&mut self, link: u32, p: &mut Parcel<CAP>) -> Result<Posted, NoMemory> {
        let items = p.len();
        let posted = self.port.post(link, p)?;
        match posted {
            Posted::Sent => self.statistics.sent(items),
            Posted::NoRoom => {}
        }
        Ok(posted)
    }

    #[inline]
    fn collect(&mut self, link: u32, p: &mut Parcel<CAP>) -> Collected {
        let collected = self.port.collect(link, p);
        match collected {
            Collected::Got => self.statistics.received(p.len()),
            Collected::Nothing => {}
        }
        collected
    }
}
