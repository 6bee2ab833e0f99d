//! One link out of a rank: the parcel that is filled for it, and posted once a round.
ghost use Rattle.std.specs.Prelude.{◌≡◌, ◌++◌, ◌-◌, ◌<◌, ◌≤◌, true, false, length, IfOk, OnOk, IsOk, IsErr};
ghost use Rattle.item_buffer.specs.Capacity.{IsCap};
ghost use Rattle.route_tensor.specs.Grid.{IsGrid};
ghost use Rattle.route_tensor.specs.Link.{links};
ghost use Rattle.route_tensor.specs.Ends.{sender_at};
ghost use Rattle.port_bank.specs.Port.{is_crowded};
ghost use Rattle.port_bank.specs.Logs.{lasts};
ghost use Rattle.port_bank.specs.Calls.{once_if};
ghost use Rattle.port_bank.specs.Calls.Call.{Post};
ghost use Rattle.port_bank.specs.Relay.{RelayLaw};
ghost use Rattle.port_bank.specs.Frames.{OutsElsewhere};
ghost use Rattle.exstack.specs.Links.{no_stack_out, no_tag, with_waiting_entry, headroom_of, begun_out, stack_out_in_new_epoch};
ghost use Rattle.exstack.specs.Steps.{WasPostedInRound, AskedWithoutSuccess, LeftByStackPosts};

use bale_items::{Entry, NoMemory};
use item_buffer::Parcel;
use port_bank::{Port, Posted};
use std::alloc::Global;
use std::marker::Model;

/// A link out. Contracts see the entries that wait on it; none of them has a tag.
#[derive(Drop)]
pub struct OutLink<const CAP: usize> {
    /// What is pushed next is at its end. Its marks are set just before it is posted.
    parcel: Parcel<CAP>,
    /// Whether the last parcel of this epoch was posted.
    closed: bool,
    /// Whether the parcel of this round is still to be posted.
    due: bool,
}

impl<const CAP: usize> Model for OutLink<CAP> {
    ghost use Rattle.std.specs.Prelude.{◌≡◌};
    ghost use Rattle.std.specs.List.{All};
    ghost use Rattle.exstack.specs.Links.{StackOut, no_tag};

    ghost Value = { StackOut };

    ghost view = { λ o. record { waiting = o.parcel.untaken; closed = o.closed; due = o.due } };

    ghost invariant = { λ o. (o.parcel.taken ≡ 0) × All (λ e. e.tag ≡ no_tag) o.parcel.untaken };
}

impl<const CAP: usize> OutLink<CAP> {
    /// A link on which nothing waits.
    pub fn new(alloc: Global) -> Result<Self, NoMemory>
        requires cap { IsCap CAP }
        ensures { IfOk result (λ o. o ≡ no_stack_out) }
    {
        Ok(OutLink {
            parcel: Parcel::new(alloc)?,
            closed: false,
            due: false,
        })
    }

    /// Appends `entry` if there is room. Answers how many entries could be appended before it.
    #[inline]
    pub fn push(&mut self, entry: Entry) -> u64
        requires { entry.tag ≡ no_tag }
        ensures headroom { result ≡ headroom_of CAP self.old }
        ensures pushed { 0 < result → self.new ≡ with_waiting_entry self.old entry }
        ensures full { result ≡ 0 → self.new ≡ self.old }
        ensures fits { length self.new.waiting ≤ CAP }
    {
        let room = self.parcel.cap() - self.parcel.len();
        let _pushed = self.parcel.try_push(entry);
        u64::from(room)
    }

    /// How many entries can be appended.
    #[inline]
    pub fn headroom(&self) -> u64
        ensures { result ≡ headroom_of CAP self.now }
    {
        u64::from(self.parcel.cap() - self.parcel.len())
    }

    /// Whether the parcel of this round is still to be posted.
    #[inline]
    pub fn is_due(&self) -> bool
        ensures { result ≡ self.now.due }
    {
        self.due
    }

    /// A round begins.
    pub fn begin(&mut self)
        ensures { self.new ≡ begun_out self.old }
    {
        self.due = !self.closed;
    }

    /// A new epoch begins.
    pub fn reopen(&mut self)
        ensures { self.new ≡ stack_out_in_new_epoch self.old }
    {
        self.closed = false;
    }

    /// Posts the parcel of this round if it is due.
    ///
    /// # Errors
    /// `NoMemory` changes nothing.
    pub fn post<P: Port<CAP>>(
        &mut self,
        port: &mut P,
        link: u32,
        epoch: u64,
        last: bool,
    ) -> Result<(), NoMemory>
        requires grid { IsGrid (P.view port.old).dims }
        requires one_hop { length (P.view port.old).dims ≡ 1 }
        requires link { link < links (P.view port.old).dims }
        requires starts_here { sender_at (P.view port.old).dims link ≡ (P.view port.old).rank }
        requires epoch { self.old.due ≡ true → lasts ((P.view port.old).sent link) ≡ epoch }
        requires law { RelayLaw (P.view port.old).dims (P.view port.old).rank (P.view port.old).sent
            (P.view port.old).got }
        ensures moved { WasPostedInRound last epoch self.old self.new ((P.view port.old).sent link)
            ((P.view port.new).sent link) }
        ensures still_stuck { IsOk result → self.new.due ≡ true
            → AskedWithoutSuccess ((P.view port.old).looks_out link) ((P.view port.new).looks_out link)
            (is_crowded (P.view port.new) link) }
        ensures calls { OnOk result ((P.view port.new).calls
            ≡ (P.view port.old).calls ++ once_if self.old.due (Post link)) }
        ensures elsewhere { OutsElsewhere link (P.view port.old) (P.view port.new) }
        ensures no_post { IsErr result → (P.view port.new).calls ≡ (P.view port.old).calls }
        ensures still_due { IsErr result → self.new.due ≡ true }
        ensures law { RelayLaw (P.view port.old).dims (P.view port.old).rank (P.view port.new).sent
            (P.view port.old).got }
        ensures memory { P.Memory.GROWS ≡ false → IsOk result }
        ensures left { LeftByStackPosts (P.view port.old) (P.view port.new) }
    {
        if !self.due {
            return Ok(());
        }
        self.parcel.set_epoch(epoch);
        self.parcel.set_last(last);
        match port.post(link, &mut self.parcel) {
            Ok(Posted::Sent) => {
                self.closed = last;
                self.due = false;
                Ok(())
            }
            Ok(Posted::NoRoom) => Ok(()),
            Err(fault) => Err(fault),
        }
    }
}
