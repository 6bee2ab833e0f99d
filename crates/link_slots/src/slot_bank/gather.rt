//! The gathering seat: it gives out the seat of each rank, and takes in what the ranks know at the
//! end.
ghost use Rattle.std.specs.Prelude.{◌≡◌, ◌≢◌, ℕ, ◌<◌, false, true, replicate, slice_index_or, slice_set, Some, None};
ghost use Rattle.route_tensor.specs.Grid.{ranks};
ghost use Rattle.route_tensor.specs.Link.{links};
ghost use Rattle.link_slots.specs.View.{no_logs};
ghost use Rattle.link_slots.specs.Shape.{IsBoard};

use crate::seat::SlotSeat;
use crate::seat::rank_ends::{EndedCounts, RankEnds};
use crate::slot_bank::SlotBank;
use crate::table::plays::{Gather, GiveOut, Leave, PickRank};
use crate::table::rule::{Place, Top};
use std::marker::Model;

/// The seat that has the lists of all ranks that have no seat of their own.
#[derive(Drop)]
pub struct GatherSeat<const CAP: usize> {
    pub(crate) place: Place<CAP>,
    /// What each rank counts whose seat was not given out.
    pub(crate) ends: Vec<Option<RankEnds>>,
    /// Of each rank that was gathered, how many epochs each of its links in has ended.
    pub(crate) ended: Vec<Option<EndedCounts>>,
}

impl<const CAP: usize> Model for GatherSeat<CAP> {
    ghost use Rattle.std.specs.Prelude.{map};
    ghost use Rattle.link_slots.specs.Gathering.{Gathering, IsGathering, is_gone};

    ghost Value = { Gathering };

    ghost view = { λ g. record {
      id = g.place.table_id;
      shape = g.place.me.0.shape;
      lists = g.place.me.0.lists;
      given = map is_gone g.ends.items;
    } };

    ghost invariant = { λ g. IsGathering g.place.me.0.shape g.place.me g.ends.items g.ended.items };
}

impl<const CAP: usize> GatherSeat<CAP> {
    /// The seat of a rank, which it has not given out before.
    fn give_out(&mut self, top: &Top<CAP>, rank: u32) -> SlotSeat<CAP>
        requires bank { (self.old.id ≡ top.now.table_id) × (self.old.shape ≡ top.now.key) }
        requires board { IsBoard top.now.key top.now.table_id }
        requires rank { rank < ranks top.now.key.dims }
        requires here { slice_index_or self.old.given rank true ≡ false }
        ensures seat { result ≡ record {
          id = top.now.table_id;
          shape = top.now.key;
          rank = rank;
          lists = no_logs (links top.now.key.dims);
          noted = replicate (links top.now.key.dims) 0;
          ended = replicate (links top.now.key.dims) 0;
        } }
        ensures gather { self.new ≡ record self.old {
          lists = slice_set self.old.lists rank None;
          given = slice_set self.old.given rank true;
        } }
    {
        let Some(ends) = self.ends[rank as usize].take() else {
            unreachable!()
        };
        let RankEnds {
            outs,
            ins,
            ears,
            ended,
        } = ends;
        self.ended[rank as usize] = None;
        top.load::<PickRank>(&mut self.place, rank as usize);
        let place = top.split_seat::<GiveOut>(&mut self.place);
        SlotSeat {
            place,
            rank,
            outs,
            ins,
            ears,
            ended,
        }
    }
}

impl<const CAP: usize> GatherSeat<CAP> {
    /// Takes in what a rank's seat knows.
    fn take_in(&mut self, top: &Top<CAP>, seat: SlotSeat<CAP>)
        requires bank { (self.old.id ≡ top.now.table_id) × (self.old.shape ≡ top.now.key) }
        requires seat { (seat.id ≡ top.now.table_id) × (seat.shape ≡ top.now.key) }
        requires board { IsBoard top.now.key top.now.table_id }
        ensures gather { self.new ≡ record self.old {
          lists = slice_set self.old.lists seat.entry.rank
              (Some seat.entry.lists);
          given = slice_set self.old.given seat.entry.rank true;
        } }
        ensures rank { seat.entry.rank < ranks top.now.key.dims }
        ensures there { slice_index_or self.new.lists seat.entry.rank None ≡ Some seat.entry.lists }
        ensures others { (r : ℕ) → r ≢ seat.entry.rank → slice_index_or self.new.lists r None
            ≡ slice_index_or self.old.lists r None }
    {
        let SlotSeat {
            mut place,
            rank,
            outs: _,
            ins: _,
            ears: _,
            ended,
        } = seat;
        let whole = top.split_seat::<Leave>(&mut place);
        top.join_seat::<Gather>(&mut self.place, whole);
        self.ends[rank as usize] = None;
        self.ended[rank as usize] = Some(EndedCounts { counts: ended });
    }
}

impl<const CAP: usize> SlotBank<CAP> {
    /// The gathering seat learns what the rank knows, and still knows what it knew of the others.
    /// The seat's slots stay where they are.
    pub fn gather(&self, g: &mut GatherSeat<CAP>, seat: SlotSeat<CAP>)
        requires bank { (g.old.id ≡ self.now.id) × (g.old.shape ≡ self.now.shape) }
        requires seat { (seat.id ≡ self.now.id) × (seat.shape ≡ self.now.shape) }
        ensures gather { g.new ≡ record g.old {
          lists = slice_set g.old.lists seat.entry.rank (Some seat.entry.lists);
          given = slice_set g.old.given seat.entry.rank true;
        } }
        ensures rank { seat.entry.rank < ranks self.now.shape.dims }
        ensures there { slice_index_or g.new.lists seat.entry.rank None ≡ Some seat.entry.lists }
        ensures others { (r : ℕ) → r ≢ seat.entry.rank → slice_index_or g.new.lists r None
            ≡ slice_index_or g.old.lists r None }
    {
        g.take_in(&self.board.shared, seat);
    }

    /// The seat of a rank, which was not given out before.
    pub fn seat(&self, g: &mut GatherSeat<CAP>, rank: u32) -> SlotSeat<CAP>
        requires bank { (g.old.id ≡ self.now.id) × (g.old.shape ≡ self.now.shape) }
        requires rank { rank < ranks self.now.shape.dims }
        requires here { slice_index_or g.old.given rank true ≡ false }
        ensures seat { result ≡ record {
          id = self.now.id;
          shape = self.now.shape;
          rank = rank;
          lists = no_logs (links self.now.shape.dims);
          noted = replicate (links self.now.shape.dims) 0;
          ended = replicate (links self.now.shape.dims) 0;
        } }
        ensures gather { g.new ≡ record g.old {
          lists = slice_set g.old.lists rank None;
          given = slice_set g.old.given rank true;
        } }
    {
        g.give_out(&self.board.shared, rank)
    }
}
