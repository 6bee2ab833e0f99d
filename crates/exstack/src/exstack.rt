//! The exstack of one rank: what a program pushes and pops, and how far it is.
ghost use Rattle.std.specs.Prelude.{◌≡◌, ℕ, ◌^◌, ◌<◌, true, false, [], length, is_some, slice_get, Some, None, IfOk};
ghost use Rattle.item_buffer.specs.Capacity.{IsCap};
ghost use Rattle.route_tensor.specs.Grid.{ranks};
ghost use Rattle.port_bank.specs.Logs.{Logs};
ghost use Rattle.port_bank.specs.Machine.Step.{Push, Reset, Idle};
ghost use Rattle.exstack.specs.Links.{headroom_of};
ghost use Rattle.exstack.specs.State.{new_stack, stack_out_at, stack_in_at, stack_dims, least_headroom, stack_unread, lowest_unread_sender, pushed_on, pop_from, popped_from, pops, after_unpop, after_reset};
ghost use Rattle.exstack.specs.Agreement.{AgreesIn};
ghost use Rattle.exstack.specs.Parts.{IsStackStep, StackKeepsAgreement, PopGivesNext, IsPop, IsUnpop};
ghost use Rattle.exstack.specs.Standing.{IsStack};
ghost use Rattle.exstack.specs.Demands.{MayPushTo};

use crate::in_link::InLink;
use crate::out_link::OutLink;
use crate::rounds::{
    least_room, links_in, links_out, next_unread, reopen_all, resume_all, unread_in,
};
use crate::stage::Stage;
use bale_items::{Entry, Item, NoMemory, Tag};
use route_tensor::Grid;
use std::alloc::Global;
use std::marker::Model;

/// One rank's exstack, for parcels of `CAP` entries, on a grid of one hop. Contracts see its state.
#[derive(Drop)]
pub struct Exstack<const CAP: usize> {
    pub(crate) ranks: u32,
    pub(crate) rank: u32,
    pub(crate) stage: Stage,
    /// Whether the rank said in this epoch that it pushes nothing more.
    pub(crate) done: bool,
    pub(crate) epoch: u64,
    /// By the rank to which they lead.
    pub(crate) outs: Vec<OutLink<CAP>>,
    /// By the rank from which they come.
    pub(crate) ins: Vec<InLink<CAP>>,
    /// A rank below which no link in has an unread item.
    pub(crate) from: u32,
    /// The sender of the item that the latest call popped, if it popped one.
    pub(crate) popped: Option<u32>,
}

impl<const CAP: usize> Model for Exstack<CAP> {
    ghost use Rattle.exstack.specs.State.{Stack};

    ghost Value = { Stack };

    ghost use Rattle.exstack.specs.Standing.{IsKeptStack};

    ghost view = { λ s. record {
      ranks = s.ranks;
      rank = s.rank;
      stage = s.stage;
      done = s.done;
      epoch = s.epoch;
      outs = s.outs.items;
      ins = s.ins.items;
      popped = s.popped;
    } };

    ghost invariant = { λ s. IsKeptStack CAP (record {
      ranks = s.ranks;
      rank = s.rank;
      stage = s.stage;
      done = s.done;
      epoch = s.epoch;
      outs = s.outs.items;
      ins = s.ins.items;
      popped = s.popped;
    }) s.from };
}

impl<const CAP: usize> Exstack<CAP> {
    /// The exstack of `rank`, at the start of epoch 0, with nothing pushed and nothing come.
    pub fn new(alloc: Global, grid: &Grid, rank: u32) -> Result<Self, NoMemory>
        requires cap { IsCap CAP }
        requires one_hop { length grid.now ≡ 1 }
        requires rank { rank < ranks grid.now }
        ensures made { IfOk result (λ s. s ≡ new_stack (ranks grid.now) rank) }
        ensures grid { IfOk result (λ s. stack_dims s ≡ grid.now) }
        ensures agrees { IfOk result (λ s. AgreesIn 0 s (λ l. []) (λ l. [])) }
    {
        let ranks = grid.ranks();
        Ok(Exstack {
            ranks,
            rank,
            stage: Stage::Start,
            done: false,
            epoch: 0,
            outs: links_out(alloc, ranks)?,
            ins: links_in(alloc, ranks)?,
            from: 0,
            popped: None,
        })
    }

    /// How far the rank is in its epoch.
    #[inline]
    pub fn stage(&self) -> Stage
        ensures value { result ≡ self.now.stage }
        ensures standing { IsStack CAP self.now }
    {
        self.stage
    }

    /// Does nothing, and states what holds of an exstack at every moment.
    #[inline]
    pub fn known(&self)
        ensures standing { IsStack CAP self.now }
    {
        let _ranks = self.ranks;
    }

    /// How many items came and are unread.
    pub fn unread(&self) -> u64
        ensures { result ≡ stack_unread self.now }
    {
        unread_in(&self.ins)
    }

    /// How many items may be pushed toward `to` before its buffer is full.
    #[inline]
    pub fn headroom(&self, to: u32) -> u64
        requires { to < self.now.ranks }
        ensures { result ≡ headroom_of CAP (stack_out_at self.now to) }
    {
        self.outs[to as usize].headroom()
    }

    /// How many items may be pushed toward any rank before its buffer is full: the least headroom.
    pub fn min_headroom(&self) -> u64
        ensures { result ≡ least_headroom CAP self.now.outs }
    {
        least_room(&self.outs)
    }

    /// Puts `item` into the buffer toward `to`, if there is room. Answers the headroom that was
    /// there before: 0 is the refusal.
    #[inline]
    pub fn push(&mut self, item: Item, to: u32) -> u64
        requires may { MayPushTo self.old to }
        ensures headroom { result ≡ headroom_of CAP (stack_out_at self.old to) }
        ensures pushed { 0 < result → self.new ≡ pushed_on self.old item to }
        ensures full { result ≡ 0 → self.new ≡ record self.old { popped = None } }
        ensures kept { StackKeepsAgreement self.old self.new }
        ensures step_pushed { 0 < result → IsStackStep (Push to item) self.old self.new }
        ensures step_full { result ≡ 0 → IsStackStep Idle self.old self.new }
    {
        self.popped = None;
        let entry = Entry {
            tag: Tag {
                d1: 0,
                d2: 0,
                d3: 0,
            },
            item,
        };
        self.outs[to as usize].push(entry)
    }

    /// The first unread item of the lowest sender that has one, with that sender.
    #[inline]
    pub fn pop(&mut self) -> Option<(u32, Item)>
        ensures value { result ≡ pop_from self.old (lowest_unread_sender self.old) }
        ensures state { self.new ≡ popped_from self.old (lowest_unread_sender self.old) }
        ensures is { IsPop result self.old self.new }
    {
        self.popped = None;
        let Some(from) = next_unread(&self.ins, self.from) else {
            self.from = self.ranks;
            return None;
        };
        let entry = self.ins[from as usize].take()?;
        self.from = from;
        self.popped = Some(from);
        Some((from, entry.item))
    }

    /// The sender of the item that the next pop gives: the lowest that has an unread one.
    #[inline]
    pub fn next_sender(&mut self) -> Option<u32>
        ensures value { result ≡ lowest_unread_sender self.old }
        ensures state { self.new ≡ record self.old { popped = None } }
        ensures kept { StackKeepsAgreement self.old self.new }
        ensures step { IsStackStep Idle self.old self.new }
    {
        self.popped = None;
        let sender = next_unread(&self.ins, self.from)?;
        self.from = sender;
        Some(sender)
    }

    /// The unread entries of that sender, in order. As many pops give their items.
    #[inline]
    pub fn batch(&self, sender: u32) -> &[Entry]
        requires lowest { lowest_unread_sender self.now ≡ Some sender }
        ensures value { result.now ≡ (stack_in_at self.now sender).unread }
        ensures gives { (i : ℕ) (e : Entry) → slice_get result.now i ≡ Some e
            → PopGivesNext (pops i self.now) sender e.item }
    {
        self.ins[sender as usize].unread()
    }

    /// Pops all unread items of that sender.
    pub fn pop_all(&mut self, sender: u32)
        requires lowest { lowest_unread_sender self.old ≡ Some sender }
        ensures state { self.new ≡ pops (length (stack_in_at self.old sender).unread) self.old }
        ensures same { self.new ≡ record self.old { ins = self.new.ins; popped = self.new.popped } }
        ensures kept { StackKeepsAgreement self.old self.new }
    {
        self.ins[sender as usize].read_all();
        self.from = sender;
        self.popped = Some(sender);
    }

    /// Makes the item of the latest call unread again, if that was a pop that gave one.
    pub fn unpop(&mut self) -> bool
        ensures value { result ≡ is_some self.old.popped }
        ensures state { self.new ≡ after_unpop self.old self.old.popped }
        ensures is { IsUnpop result self.old self.new }
    {
        match self.popped {
            Some(from) => {
                self.ins[from as usize].put_back();
                self.from = self.from.min(from);
                self.popped = None;
                true
            }
            None => false,
        }
    }

    /// Ends an epoch in which all are done, and begins the next one.
    pub fn reset(&mut self)
        requires all_done { self.old.stage ≡ Stage.AllDone }
        requires epochs { self.old.epoch < 2 ^ 63 }
        ensures state { self.new ≡ after_reset self.old }
        ensures kept { (n : ℕ) (sent got : Logs) → AgreesIn n self.old sent got → AgreesIn 0 self.new sent got }
        ensures step { IsStackStep Reset self.old self.new }
    {
        self.popped = None;
        reopen_all(&mut self.outs);
        resume_all(&mut self.ins);
        self.done = false;
        self.stage = Stage::Start;
        self.epoch += 1;
    }
}
