//! The plain bank: the links of all ranks on one thread.
ghost use Rattle.std.specs.Prelude.{◌≡◌, ◌≢◌, ◌+◌, ◌<◌, ◌≤◌, length, IfOk, Ok};
ghost use Rattle.bale_items.specs.Counters.{RoseOrFull};
ghost use Rattle.item_buffer.specs.Capacity.{IsCap};
ghost use Rattle.item_buffer.specs.Contents.{as_shipped, as_arrived, blank};
ghost use Rattle.route_tensor.specs.Grid.{ranks};
ghost use Rattle.route_tensor.specs.Link.{links};
ghost use Rattle.route_tensor.specs.Ends.{sender_at};
ghost use Rattle.port_bank.specs.Logs.{lasts, with_parcel, starting_at, ending_at};
ghost use Rattle.port_bank.specs.Relay.{RelayLaw};
ghost use Rattle.port_bank.specs.Port.{IsSlots};
ghost use Rattle.port_bank.specs.Round.{IsRound};
ghost use Rattle.port_bank.specs.Plain.{IsBank, BankPosted, BankCollected, channel_at, sent_of, got_of, empty_bank, round_of_bank};
ghost use Rattle.port_bank.specs.code.PlainLink.{IsNextOn};

use crate::plain_link::PlainLink;
use crate::plain_port::PlainPort;
use crate::plain_round::PlainRound;
use crate::ring::Ring;
use crate::{Collected, Posted};
use bale_items::NoMemory;
use item_buffer::Parcel;
use route_tensor::Grid;
use std::alloc::Global;
use std::marker::Model;

/// The links of a grid, with the parcels of capacity `CAP` that are in transit on each.
#[derive(Drop)]
pub struct PlainBank<const CAP: usize> {
    grid: Grid,
    /// How many parcels of a link may be posted and not collected.
    slots: u32,
    /// By the number of the link.
    links: Vec<PlainLink>,
    /// By the number of the link: the places of the parcels in transit.
    rings: Vec<Ring<CAP>>,
}

impl<const CAP: usize> Model for PlainBank<CAP> {
    ghost use Rattle.port_bank.specs.Plain.{Bank, IsBank, HaveRings};

    ghost Value = { Bank };

    ghost view = { λ b. record { dims = b.grid; slots = b.slots; channels = b.links.items } };

    ghost invariant = { λ b. IsBank CAP (record { dims = b.grid; slots = b.slots; channels = b.links.items })
        × HaveRings b.links.items b.rings.items };
}

impl<const CAP: usize> PlainBank<CAP> {
    /// A bank on which nothing was posted, with so many slots per link: 1, 2, 4 or 8.
    pub fn new(alloc: Global, grid: &Grid, slots: u32) -> Result<Self, NoMemory>
        requires cap { IsCap CAP }
        requires slots { IsSlots slots }
        ensures made { IfOk result (λ b. b ≡ empty_bank grid.now slots) }
        ensures lawful { IfOk result (λ b. IsBank CAP b) }
    {
        let count = grid.links();
        let mut links = Vec::with_capacity(alloc, count as usize)?;
        let mut rings = Vec::with_capacity(alloc, count as usize)?;
        for _ in 0..count {
            if links.push(PlainLink::new()).is_err() || rings.push(Ring::new(alloc)).is_err() {
                return Err(NoMemory);
            }
        }
        Ok(PlainBank {
            grid: *grid,
            slots,
            links,
            rings,
        })
    }

    /// The port of a rank, which owns the bank until it gives it back.
    pub fn port(self, rank: u32) -> PlainPort<CAP>
        requires { rank < ranks self.dims }
        ensures bank { result.bank ≡ self.entry }
        ensures rank { result.rank ≡ rank }
        ensures lawful { IsBank CAP self.entry }
    {
        PlainPort::new(self, rank)
    }

    /// Ends the exchange: what each rank pulled is a prefix of what the others pushed toward it,
    /// and all of it in each epoch that every link has ended.
    pub fn close(self) -> PlainRound
        ensures round { result ≡ round_of_bank CAP self.entry }
        ensures in_order { IsRound result }
    {
        let PlainBank {
            grid,
            slots,
            links,
            rings: _,
        } = self;
        PlainRound::new(grid, CAP as u32, slots, links)
    }

    /// Does nothing, and states that the bank keeps the laws of a round at every moment, and not
    /// only when it is closed.
    pub fn live_law(&self)
        ensures { IsRound (round_of_bank CAP self.now) }
    {
        let _slots = self.slots;
    }

    /// Does nothing, and states what a bank keeps.
    pub(crate) fn known(&self)
        ensures { IsBank CAP self.now }
    {
        let _slots = self.slots;
    }

    /// Posts a parcel on a link, for the rank at which the link starts.
    pub(crate) fn post(&mut self, link: u32, p: &mut Parcel<CAP>) -> Result<Posted, NoMemory>
        requires link { link < links self.old.dims }
        requires fresh { p.old.taken ≡ 0 }
        requires epoch { p.old.epoch ≡ lasts (sent_of self.old link) }
        requires law { let rank = sender_at self.old.dims link in RelayLaw self.old.dims rank
            (with_parcel (starting_at self.old.dims rank (sent_of self.old)) link (as_shipped p.old))
            (ending_at self.old.dims rank (got_of self.old)) }
        ensures does { BankPosted self.old self.new link (as_shipped p.old) result }
        ensures emptied { result ≡ Ok Posted.Sent → p.new ≡ blank p.old.epoch }
        ensures room { result ≡ Ok Posted.Sent → length (sent_of self.old link) < length (got_of self.old link)
            + self.old.slots }
        ensures full { result ≡ Ok Posted.NoRoom → length (sent_of self.old link)
            ≡ length (got_of self.old link) + self.old.slots }
        ensures kept { result ≢ Ok Posted.Sent → p.new ≡ p.old }
        ensures looks { (channel_at self.old link).looks_out ≤ (channel_at self.new link).looks_out }
    {
        p.known();
        let at = link as usize;
        self.links[at].post(&mut self.rings[at], self.slots, p)
    }

    /// Collects the next parcel of a link, for the rank at which the link ends.
    pub(crate) fn collect(&mut self, link: u32, p: &mut Parcel<CAP>) -> Collected
        requires link { link < links self.old.dims }
        requires empty { p.old ≡ blank (lasts (got_of self.old link)) }
        ensures does { BankCollected self.old self.new link (as_shipped p.new) result }
        ensures arrived { result ≡ Collected.Got → p.new ≡ as_arrived (as_shipped p.new) }
        ensures next { result ≡ Collected.Got → IsNextOn CAP self.old link p.new }
        ensures all { result ≡ Collected.Nothing → length (got_of self.old link) ≡ length (sent_of self.old link) }
        ensures kept { result ≡ Collected.Nothing → p.new ≡ p.old }
        ensures heard { RoseOrFull (channel_at self.old link).noted (channel_at self.new link).listens }
        ensures listens { (channel_at self.old link).listens ≤ (channel_at self.new link).listens }
        ensures looks { (channel_at self.old link).looks_in ≤ (channel_at self.new link).looks_in }
    {
        let at = link as usize;
        self.links[at].collect(&mut self.rings[at], p)
    }
}
