//! One link of a plain bank: what was done on it.
ghost use Rattle.std.specs.Prelude.{◌≡◌, ◌≢◌, ◌+◌, ◌≤◌, ◌++◌, length, Ok};
ghost use Rattle.item_buffer.specs.Contents.{as_shipped, as_arrived, blank};
ghost use Rattle.list_laws.specs.Counts.{saturated_count};
ghost use Rattle.port_bank.specs.Logs.{lasts};
ghost use Rattle.port_bank.specs.Plain.{unused_channel};
ghost use Rattle.port_bank.specs.code.PlainLink.{PostedOn, CollectedOn};

use crate::log::Log;
use crate::ring::Ring;
use crate::{Collected, Posted};
use bale_items::NoMemory;
use item_buffer::Parcel;
use std::marker::Model;

/// The counts of a link, and for contracts alone the parcels that were posted on it and those that
/// were collected from it. Its ring has those that were posted and not collected.
#[derive(Drop)]
pub(crate) struct PlainLink {
    sent: Log,
    got: Log,
    /// How many epochs its reader has seen the end of; this count and those below saturate at
    /// their last number.
    ended: u64,
    /// How often the sender looked for room.
    looks_out: u64,
    /// How often the reader looked, and so listened for this link. It does both at each collect,
    /// and nowhere else.
    listens: u64,
}

impl Model for PlainLink {
    ghost use Rattle.std.specs.Prelude.{◌≡◌};
    ghost use Rattle.list_laws.specs.Counts.{saturated_count};
    ghost use Rattle.port_bank.specs.Logs.{lasts};
    ghost use Rattle.port_bank.specs.PassedParcels.{parcels_of};
    ghost use Rattle.port_bank.specs.Plain.{Channel};

    ghost Value = { Channel };

    ghost view = { λ c. record {
      sent = parcels_of c.sent;
      got = parcels_of c.got;
      looks_out = c.looks_out;
      looks_in = c.listens;
      listens = c.listens;
      noted = c.listens;
    } };

    ghost invariant = { λ c. c.ended ≡ saturated_count (lasts (parcels_of c.got)) };
}

impl PlainLink {
    /// A link on which nothing was done.
    pub(crate) fn new() -> Self
        ensures { result ≡ unused_channel }
    {
        PlainLink {
            sent: Log::Nothing,
            got: Log::Nothing,
            ended: 0,
            looks_out: 0,
            listens: 0,
        }
    }

    /// Looks for room below the number of slots, and posts the parcel there, which is then empty.
    pub(crate) fn post<const CAP: usize>(
        &mut self,
        ring: &mut Ring<CAP>,
        slots: u32,
        p: &mut Parcel<CAP>,
    ) -> Result<Posted, NoMemory>
        requires ring { self.old.sent ≡ self.old.got ++ ring.old }
        requires bound { length self.old.sent ≤ length self.old.got + slots }
        requires fresh { p.old ≡ as_arrived (as_shipped p.old) }
        ensures ring { self.new.sent ≡ self.new.got ++ ring.new }
        ensures does { PostedOn slots self.old self.new (as_shipped p.old) result }
        ensures emptied { result ≡ Ok Posted.Sent → p.new ≡ blank p.old.epoch }
        ensures full { result ≡ Ok Posted.NoRoom → length self.old.sent ≡ length self.old.got + slots }
        ensures kept { result ≢ Ok Posted.Sent → p.new ≡ p.old }
    {
        if ring.len() >= slots as usize {
            self.looks_out = self.looks_out.saturating_add(1);
            return Ok(Posted::NoRoom);
        }
        let sent = self.sent.with(p);
        ring.send(p)?;
        self.sent = sent;
        self.looks_out = self.looks_out.saturating_add(1);
        Ok(Posted::Sent)
    }

    /// Looks for the next parcel that is not collected, and takes it in exchange for the empty one.
    pub(crate) fn collect<const CAP: usize>(
        &mut self,
        ring: &mut Ring<CAP>,
        p: &mut Parcel<CAP>,
    ) -> Collected
        requires ring { self.old.sent ≡ self.old.got ++ ring.old }
        requires empty { p.old ≡ blank p.old.epoch }
        ensures ring { self.new.sent ≡ self.new.got ++ ring.new }
        ensures does { CollectedOn self.old self.new (as_shipped p.new) result }
        ensures arrived { result ≡ Collected.Got → p.new ≡ as_arrived (as_shipped p.new) }
        ensures all { result ≡ Collected.Nothing → length self.old.got ≡ length self.old.sent }
        ensures kept { result ≡ Collected.Nothing → p.new ≡ p.old }
    {
        self.listens = self.listens.saturating_add(1);
        if ring.len() == 0 {
            return Collected::Nothing;
        }
        ring.receive(p);
        self.got = self.got.with(p);
        if p.last() {
            self.ended = self.ended.saturating_add(1);
        }
        Collected::Got
    }

    /// How many epochs the reader has seen the end of.
    pub(crate) fn ended(&self) -> u64
        ensures { result ≡ saturated_count (lasts self.now.got) }
    {
        self.ended
    }
}
