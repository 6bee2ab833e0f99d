//! The state of one rank: what it has to send, what has come, and how far it is in its epoch.

ghost use Rattle.std.specs.Prelude.{◌≡◌, ◌-◌, ◌<◌, ◌==◌, length, sum, replicate, false, None, IfOk};
ghost use Rattle.item_buffer.specs.Capacity.{IsCap};
ghost use Rattle.route_tensor.specs.Grid.{ranks, coord};
ghost use Rattle.route_tensor.specs.Neighbour.{hop_to, neighbour};
ghost use Rattle.route_tensor.specs.Tag.{IsFair, tag_at};
ghost use Rattle.route_tensor.specs.Routes.{first_step};
ghost use Rattle.hop_core.specs.Lent.Lent.{Nothing};
ghost use Rattle.hop_core.specs.Link.{no_out, no_in};
ghost use Rattle.hop_core.specs.State.{out_at, at_end, with_pushed};

use crate::in_links::{InLink, links_in};
use crate::loan::Loan;
use crate::out_links::{OutLink, links_out};
use crate::phase::{Phase, Pushed};
use bale_items::{Entry, Item, NoMemory, Tag};
use item_buffer::Parcel;
use route_tensor::{Grid, MOST_HOPS, Onward, Routes};
use std::alloc::Global;
use std::marker::Model;

/// The buffers, marks and phase of one rank, for parcels of `CAP` entries and routes of `HOPS`
/// hops.
#[derive(Drop)]
pub struct RankState<const CAP: usize, const HOPS: usize> {
    pub(crate) routes: Routes,
    pub(crate) steady: bool,
    /// The links out and in, by the number of the neighbour.
    pub(crate) outs: Vec<OutLink<CAP>>,
    pub(crate) ins: Vec<InLink<CAP>>,
    pub(crate) done: bool,
    /// For each hop but the first, whether it has reached its end.
    pub(crate) ends: [bool; MOST_HOPS],
    pub(crate) phase: Phase,
    pub(crate) epoch: u64,
    pub(crate) loan: Loan<CAP>,
    /// Below it no link in of the last hop has an entry.
    pub(crate) from: u32,
    /// How many links out are not closed.
    pub(crate) still_open: u32,
    /// How many links in of the last hop have not ended.
    pub(crate) still_coming: u32,
    /// The link in from which the latest call pulled.
    pub(crate) pulled: Option<u32>,
}

impl<const CAP: usize, const HOPS: usize> Model for RankState<CAP, HOPS> {
    ghost use Rattle.std.specs.Prelude.{◌≡◌, length};
    ghost use Rattle.hop_core.specs.Lent.{lent_by};
    ghost use Rattle.hop_core.specs.State.{State};

    ghost Value = { State };

    ghost use Rattle.hop_core.specs.Standing.{IsKept};

    ghost view = { λ t. record {
      dims = t.routes.dims;
      rank = t.routes.rank;
      cap = CAP;
      steady = t.steady;
      outs = t.outs.items;
      ins = t.ins.items;
      done = t.done;
      phase = t.phase;
      epoch = t.epoch;
      lent = lent_by t.loan;
      pulled = t.pulled;
    } };

    ghost invariant = { λ t. (length t.routes.dims ≡ HOPS) × IsKept (record {
      dims = t.routes.dims;
      rank = t.routes.rank;
      cap = CAP;
      steady = t.steady;
      outs = t.outs.items;
      ins = t.ins.items;
      done = t.done;
      phase = t.phase;
      epoch = t.epoch;
      lent = lent_by t.loan;
      pulled = t.pulled;
    }) t.ends t.from t.still_open t.still_coming };
}

impl<const CAP: usize, const HOPS: usize> RankState<CAP, HOPS> {
    ghost use Rattle.hop_core.specs.Standing.{IsState};

    /// The state of `rank`, Dormant in epoch 0, with nothing pushed and nothing got.
    pub fn new(alloc: Global, grid: &Grid, rank: u32, steady: bool) -> Result<Self, NoMemory>
        requires cap { IsCap CAP }
        requires hops { length grid.now ≡ HOPS }
        requires rank { rank < ranks grid.now }
        ensures { IfOk result (λ st. st ≡ record {
          dims = grid.now;
          rank = rank;
          cap = CAP;
          steady = steady;
          outs = replicate (sum grid.now) no_out;
          ins = replicate (sum grid.now) no_in;
          done = false;
          phase = Phase.Dormant;
          epoch = 0;
          lent = Nothing;
          pulled = None;
        }) }
    {
        let routes = Routes::new(alloc, grid, rank)?;
        let neighbours = routes.neighbours();
        let from = routes.first_of(HOPS as u32);
        let ends = [false; MOST_HOPS];
        Ok(RankState {
            routes,
            steady,
            outs: links_out(alloc, neighbours)?,
            ins: links_in(alloc, neighbours)?,
            done: false,
            ends,
            phase: Phase::Dormant,
            epoch: 0,
            loan: Loan::Nothing(Parcel::new(alloc)?),
            from,
            still_open: neighbours,
            still_coming: neighbours - from,
            pulled: None,
        })
    }

    /// Does nothing, and states what holds of a state at every moment.
    #[inline]
    pub fn known(&self)
        ensures standing { IsState self.now }
        ensures cap { self.now.cap ≡ CAP }
    {
        let _state = &self.ends;
    }

    /// The tables of the rank's links, for whoever goes over all of them.
    #[inline]
    pub fn routes(&self) -> &Routes
        ensures { result.now ≡ record { dims = self.now.dims; rank = self.now.rank } }
    {
        &self.routes
    }

    /// The number of the epoch, from 0.
    #[inline]
    pub fn epoch(&self) -> u64
        ensures { result ≡ self.now.epoch }
    {
        self.epoch
    }

    /// Appends `item` to the open parcel toward `to`.
    #[inline]
    pub fn push(&mut self, item: Item, to: u32) -> Pushed
        requires working { self.old.phase ≡ Phase.Working }
        requires not_done { self.old.done ≡ false }
        requires to { to < ranks self.old.dims }
        ensures accepted { result ≡ Pushed.Accepted → self.new ≡ with_pushed item to self.old }
        ensures room { result ≡ Pushed.Accepted
            → length (out_at self.old (coord self.old.dims to 1)).parcel.untaken < self.old.cap }
        ensures full { result ≡ Pushed.Full → length (out_at self.old (coord self.old.dims to 1)).parcel.untaken
            ≡ self.old.cap }
        ensures unchanged { result ≡ Pushed.Full → self.new ≡ record self.old { pulled = None } }
    {
        self.pulled = None;
        let step = first_of::<HOPS>(&self.routes, to);
        let entry = entry_to::<HOPS>(&self.routes, to, item);
        if self.outs[step.out as usize].push(entry) {
            Pushed::Accepted
        } else {
            Pushed::Full
        }
    }

    /// Whether the hop on which this neighbour lies has reached its end.
    #[inline]
    pub(crate) fn at_end(&self, number: u32) -> bool
        requires { number < sum self.now.dims }
        ensures { result ≡ at_end self.now.dims self.now.ins self.now.done (hop_to self.now.dims number) }
    {
        if HOPS == 1 {
            return self.done;
        }
        let hop = self.routes.neighbour(number).hop as usize;
        if hop == 1 {
            self.done
        } else {
            self.ends[hop - 1]
        }
    }
}

/// The first link of an entry for `to`: on one hop to that rank itself, by no table and with a tag
/// of zeros.
#[inline]
fn first_of<const HOPS: usize>(routes: &Routes, to: u32) -> Onward
    requires hops { length routes.now.dims ≡ HOPS }
    requires to { to < ranks routes.now.dims }
    ensures value { result ≡ first_step routes.now.dims routes.now.rank to }
    ensures fair { IsFair routes.now.dims 1 result.tag }
    ensures below { result.out < sum routes.now.dims }
{
    if HOPS == 1 {
        straight_to(routes, to)
    } else {
        routes.first(to)
    }
}

/// On one hop an entry goes straight to its destination, and its tag has no digits.
#[inline]
fn straight_to(routes: &Routes, to: u32) -> Onward
    requires one { length routes.now.dims ≡ 1 }
    requires to { to < ranks routes.now.dims }
    ensures value { result ≡ first_step routes.now.dims routes.now.rank to }
    ensures fair { IsFair routes.now.dims 1 result.tag }
    ensures below { result.out < sum routes.now.dims }
{
    routes.known();
    Onward {
        out: to,
        tag: Tag {
            d1: 0,
            d2: 0,
            d3: 0,
        },
    }
}

/// The entry for `to` with this item, as it is sent first: on one hop by no table.
#[inline]
fn entry_to<const HOPS: usize>(routes: &Routes, to: u32, item: Item) -> Entry
    requires hops { length routes.now.dims ≡ HOPS }
    requires to { to < ranks routes.now.dims }
    ensures value { result ≡ record { tag = tag_at routes.now.dims routes.now.rank to 1; item = item } }
    ensures fair { IsFair routes.now.dims 1 result.tag }
{
    if HOPS == 1 {
        Entry {
            tag: straight_to(routes, to).tag,
            item,
        }
    } else {
        routes.entry(to, item)
    }
}
