//! A rank's seat: what the rank knows of its links at the bank's table, and what it counts beside
//! it.
ghost use Rattle.std.specs.Prelude.{◌≡◌, ◌⊎◌, ◌<◌, ◌≤◌, [], length, slice_set, slice_index_or};
ghost use Rattle.item_buffer.specs.Contents.{blank};
ghost use Rattle.port_bank.specs.Port.{IsSlots};
ghost use Rattle.port_bank.specs.PortCalls.{MayPost, MayCollect};
ghost use Rattle.link_slots.specs.Logs.{out_of, with_out};
ghost use Rattle.link_slots.specs.Counts.{ended_after, HasPosted};
ghost use Rattle.link_slots.specs.PortCalls.{SeatCollects, DidCollect};
ghost use Rattle.link_slots.specs.SeatView.{port_view};

pub(crate) mod collect;
pub(crate) mod ear;
pub(crate) mod ends;
pub(crate) mod post;
pub(crate) mod rank_ends;

use crate::seat::collect::collect_on;
use crate::seat::ear::Ear;
use crate::seat::ends::{InEnd, OutEnd};
use crate::seat::post::post_on;
use crate::slot_bank::SlotBank;
use crate::table::rule::Place;
use item_buffer::Parcel;
use port_bank::{Collected, Posted};
use route_tensor::MOST_HOPS;
use std::marker::Model;

/// One rank's seat at a bank. It may go to another thread; a port is made of it if the rank's
/// parcels are.
#[derive(Drop)]
pub struct SlotSeat<const CAP: usize> {
    pub(crate) place: Place<CAP>,
    pub(crate) rank: u32,
    /// By the number of the link; those of other ranks' links are unused.
    pub(crate) outs: Vec<OutEnd>,
    pub(crate) ins: Vec<InEnd>,
    /// By the hop, from 0.
    pub(crate) ears: [Ear; MOST_HOPS],
    /// How many parcels marked last were collected of each link in; it saturates at the last
    /// number.
    pub(crate) ended: Vec<u64>,
}

impl<const CAP: usize> Model for SlotSeat<CAP> {
    ghost use Rattle.std.specs.Prelude.{map};
    ghost use Rattle.link_slots.specs.View.{own_logs};
    ghost use Rattle.link_slots.specs.SeatView.{SeatView};
    ghost use Rattle.link_slots.specs.Seat.{IsSeat};

    ghost Value = { SeatView };

    ghost view = { λ s. record {
      id = s.place.table_id;
      shape = s.place.me.0.shape;
      rank = s.rank;
      lists = own_logs s.place.me.0;
      noted = map (λ e. e.noted) s.ins.items;
      ended = s.ended.items;
    } };

    ghost invariant = { λ s. IsSeat CAP s.place.me.0.shape s.place.me s.rank s.outs.items s.ins.items s.ears
        s.ended.items };
}

impl<const CAP: usize> SlotSeat<CAP> {
    /// The rank whose seat this is.
    pub fn rank(&self) -> u32
        ensures value { result ≡ self.now.rank }
        ensures slots { IsSlots self.now.shape.slots }
    {
        self.rank
    }

    /// Posts the parcel on a link of this rank, and rings for it.
    pub fn post(&mut self, bank: &SlotBank<CAP>, link: u32, parcel: &mut Parcel<CAP>) -> Posted
        requires bank { (self.old.id ≡ bank.now.id) × (self.old.shape ≡ bank.now.shape) }
        requires may { MayPost (port_view self.old []) link parcel.old }
        ensures here { self.new ≡ record self.old {
          lists = with_out self.old.lists link
              (out_of self.new.lists link);
        } }
        ensures long { link < length self.old.lists.outs }
        ensures parcel { (result ≡ Posted.Sent → parcel.new ≡ blank parcel.old.epoch)
            × (result ≡ Posted.NoRoom → parcel.new ≡ parcel.old) }
        ensures room_is { ((out_of self.new.lists link).room ≡ 0)
            ⊎ (self.old.shape.slots ≤ (out_of self.new.lists link).room) }
        ensures within { length (out_of self.old.lists link).sent ≤ (out_of self.old.lists link).room }
        ensures link { HasPosted self.old.shape.slots (out_of self.old.lists link) (out_of self.new.lists link)
            parcel.old result }
    {
        parcel.known();
        let epoch = parcel.epoch();
        let end = &mut self.outs[link as usize];
        let wire = &bank.wires[link as usize];
        let answer = post_on(
            &bank.board.shared,
            &mut self.place,
            end,
            wire,
            bank.slots,
            link,
            parcel,
        );
        parcel.set_epoch(epoch);
        answer
    }

    /// Collects the next parcel of a link into this rank.
    ///
    /// If the rank knows of a parcel, that is all. Else it hears the doorbell of the link's hop
    /// if a hear is due, which marks every link whose bit it finds; and then it looks in if
    /// the link is marked.
    #[inline]
    pub fn collect(
        &mut self,
        bank: &SlotBank<CAP>,
        link: u32,
        parcel: &mut Parcel<CAP>,
    ) -> Collected
        requires bank { (self.old.id ≡ bank.now.id) × (self.old.shape ≡ bank.now.shape) }
        requires may { MayCollect (port_view self.old []) link parcel.old }
        ensures collects { SeatCollects CAP self.old self.new link parcel.old result parcel.new }
        ensures does { DidCollect self.old self.new link result }
    {
        let wire = &bank.wires[link as usize];
        let end = &mut self.ins[link as usize];
        let ear = &mut self.ears[wire.hop];
        let answer = collect_on(
            &bank.board.shared,
            &mut self.place,
            end,
            ear,
            wire,
            bank.slots,
            link,
            parcel,
        );
        note_last(&mut self.ended, link, answer, parcel.last());
        answer
    }
}

/// Counts an epoch that the link has ended, if the collect gave a parcel marked last.
#[inline]
fn note_last(ended: &mut Vec<u64>, link: u32, answer: Collected, last: bool)
    requires { link < length ended.old.items }
    ensures { ended.new.items
        ≡ slice_set ended.old.items link (ended_after answer last (slice_index_or ended.old.items link 0)) }
{
    if answer == Collected::Got && last {
        let count = &mut ended[link as usize];
        *count = count.saturating_add(1);
    }
}
