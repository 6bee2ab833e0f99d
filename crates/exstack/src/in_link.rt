//! One link into a rank: the parcel that came over it and is being read.
ghost use Rattle.std.specs.Prelude.{◌≡◌, ◌++◌, ◌<◌, ◌≤◌, true, length, slice_get, None, IsSome, IfOk};
ghost use Rattle.list_laws.specs.Lists.{IsPrefix};
ghost use Rattle.item_buffer.specs.declared.capacity.TheConstants.{MOST_ENTRIES};
ghost use Rattle.item_buffer.specs.Capacity.{IsCap};
ghost use Rattle.route_tensor.specs.Link.{links};
ghost use Rattle.route_tensor.specs.Ends.{sender_at, reader_at};
ghost use Rattle.port_bank.specs.Port.{is_idle};
ghost use Rattle.port_bank.specs.Logs.{lasts};
ghost use Rattle.port_bank.specs.Calls.{once_if};
ghost use Rattle.port_bank.specs.Calls.Call.{Collect};
ghost use Rattle.port_bank.specs.Frames.{InsElsewhere};
ghost use Rattle.exstack.specs.Links.{no_stack_in, with_first_read, with_put_back, stack_read_on, begun_in, stack_in_in_new_epoch, has_unread};
ghost use Rattle.exstack.specs.Steps.{WasCollected, AskedWithoutSuccess, LeftByStackCollects};

use bale_items::{Entry, NoMemory};
use item_buffer::Parcel;
use port_bank::{Collected, Port};
use std::alloc::Global;
use std::marker::Model;

/// A link in. Contracts see what is unread of the parcel that came last.
#[derive(Drop)]
pub struct InLink<const CAP: usize> {
    parcel: Parcel<CAP>,
    /// Whether the last parcel of this epoch was collected.
    ended: bool,
    /// Whether the parcel of this round is still to be collected; then the one at hand is empty.
    due: bool,
}

impl<const CAP: usize> Model for InLink<CAP> {
    ghost use Rattle.std.specs.Prelude.{◌≡◌, true};
    ghost use Rattle.item_buffer.specs.Contents.{blank};
    ghost use Rattle.exstack.specs.Links.{StackIn};

    ghost Value = { StackIn };

    ghost view = { λ i. record { unread = i.parcel.untaken; back = i.parcel.back; ended = i.ended; due = i.due } };

    ghost invariant = { λ i. i.due ≡ true → i.parcel ≡ blank i.parcel.epoch };
}

impl<const CAP: usize> InLink<CAP> {
    /// A link on which nothing came.
    pub fn new(alloc: Global) -> Result<Self, NoMemory>
        requires cap { IsCap CAP }
        ensures { IfOk result (λ i. i ≡ no_stack_in) }
    {
        Ok(InLink {
            parcel: Parcel::new(alloc)?,
            ended: false,
            due: false,
        })
    }

    /// Reads the first unread entry.
    #[inline]
    pub fn take(&mut self) -> Option<Entry>
        ensures value { result ≡ slice_get self.old.unread 0 }
        ensures taken { IsSome result → self.new ≡ with_first_read self.old }
        ensures none { result ≡ None → self.new ≡ self.old }
    {
        self.parcel.take()
    }

    /// The unread entries, in order.
    #[inline]
    pub fn unread(&self) -> &[Entry]
        ensures { result.now ≡ self.now.unread }
    {
        self.parcel.untaken()
    }

    /// How many entries are unread.
    #[inline]
    pub fn len(&self) -> u32
        ensures value { result ≡ length self.now.unread }
        ensures fits { length self.now.unread ≤ MOST_ENTRIES }
    {
        self.parcel.known();
        self.parcel.len()
    }

    /// Whether an entry is unread.
    #[inline]
    pub fn has_unread(&self) -> bool
        ensures { result ≡ has_unread self.now }
    {
        self.parcel.len() != 0
    }

    /// Reads all unread entries.
    #[inline]
    pub fn read_all(&mut self)
        ensures { self.new ≡ stack_read_on (length self.old.unread) self.old }
    {
        let count = self.parcel.untaken().len();
        self.parcel.skip(count);
    }

    /// Makes the entry that was read last unread again.
    pub fn put_back(&mut self)
        requires back { IsSome self.old.back }
        ensures { self.new ≡ with_put_back self.old.back self.old }
    {
        self.parcel.untake();
    }

    /// Whether the last parcel of this epoch was collected.
    #[inline]
    pub fn has_ended(&self) -> bool
        ensures { result ≡ self.now.ended }
    {
        self.ended
    }

    /// Whether the parcel of this round is still to be collected.
    #[inline]
    pub fn is_due(&self) -> bool
        ensures { result ≡ self.now.due }
    {
        self.due
    }

    /// A round begins.
    pub fn begin(&mut self)
        ensures { self.new ≡ begun_in self.old }
    {
        self.parcel.clear();
        self.due = !self.ended;
    }

    /// A new epoch begins.
    pub fn resume(&mut self)
        ensures { self.new ≡ stack_in_in_new_epoch self.old }
    {
        self.ended = false;
    }

    /// Collects the parcel of this round if it is due. The entries of a proceed parcel are
    /// dropped: only a peer that is no exstack sends any.
    pub fn collect<P: Port<CAP>>(&mut self, port: &mut P, link: u32, epoch: u64, exchange: bool)
        requires link { link < links (P.view port.old).dims }
        requires ends_here { reader_at (P.view port.old).dims link ≡ (P.view port.old).rank }
        requires epoch { self.old.due ≡ true → lasts ((P.view port.old).got link) ≡ epoch }
        ensures moved { WasCollected exchange self.old self.new ((P.view port.old).got link)
            ((P.view port.new).got link) }
        ensures still_stuck { self.new.due ≡ true → AskedWithoutSuccess ((P.view port.old).noted link)
            ((P.view port.new).noted link)
            (is_idle (P.view port.new) link) }
        ensures calls { (P.view port.new).calls ≡ (P.view port.old).calls ++ once_if self.old.due (Collect link) }
        ensures elsewhere { InsElsewhere link (P.view port.old) (P.view port.new) }
        ensures own { sender_at (P.view port.old).dims link ≡ (P.view port.old).rank
            → IsPrefix ((P.view port.old).got link) ((P.view port.old).sent link)
            → IsPrefix ((P.view port.new).got link) ((P.view port.new).sent link) }
        ensures left { LeftByStackCollects (P.view port.old) (P.view port.new) }
    {
        if !self.due {
            return;
        }
        self.parcel.set_epoch(epoch);
        match port.collect(link, &mut self.parcel) {
            Collected::Got => {
                self.ended = self.parcel.last();
                self.due = false;
                if !exchange {
                    self.parcel.clear();
                }
            }
            Collected::Nothing => {}
        }
    }
}
