//! Parcels lent by a move, by the number of the link: an open parcel that is due, and an inbox that
//! is wanted. The rank's spare parcel is in the place of the one that is lent.

ghost use Rattle.std.specs.Prelude.{◌≡◌, ◌<◌, ◌&&◌, slice_set, true, false, None};
ghost use Rattle.std.specs.List.{All};
ghost use Rattle.item_buffer.specs.Contents.{IsFresh, blank};
ghost use Rattle.route_tensor.specs.Link.{links};
ghost use Rattle.route_tensor.specs.Ends.{hop_at, sender_at, reader_at};
ghost use Rattle.route_tensor.specs.Neighbour.{out_index, in_index};
ghost use Rattle.route_tensor.specs.Tag.{IsFair};
ghost use Rattle.hop_core.specs.Lent.{lent_parcel};
ghost use Rattle.hop_core.specs.Lent.Lent.{Nothing, ToSend, ToFill, Given};
ghost use Rattle.hop_core.specs.Lending.{IsLentToSend, IsLentToFill};
ghost use Rattle.hop_core.specs.Link.{is_due, is_wanted};
ghost use Rattle.hop_core.specs.State.{out_at, in_at, at_end};

use crate::loan::Loan;
use crate::state::RankState;
use item_buffer::Parcel;
use std::snapshot::Snapshot;

impl<const CAP: usize, const HOPS: usize> RankState<CAP, HOPS> {
    /// Gives the spare parcel away, for a caller that carries parcels with `take_out` and
    /// `take_in`. From now on nothing can be lent.
    pub fn take_spare(&mut self) -> Parcel<CAP>
        requires none_lent { self.old.lent ≡ Nothing }
        ensures parcel { result ≡ blank self.old.epoch }
        ensures state { self.new ≡ record self.old { lent = Given } }
    {
        let mut spare = self.loan.take_spare();
        spare.clear();
        spare.set_epoch(self.epoch);
        spare
    }

    /// Lends the open parcel of a link that is due, marked last if and only if its hop has reached
    /// its end. It comes back by `note_sent`, before any other call.
    pub fn lend_out(&mut self, link: u32) -> Parcel<CAP>
        requires link { link < links self.old.dims }
        requires starts_here { sender_at self.old.dims link ≡ self.old.rank }
        requires none_lent { self.old.lent ≡ Nothing }
        requires due { is_due self.old.cap self.old.steady
            (at_end self.old.dims self.old.ins self.old.done (hop_at self.old.dims link))
            (out_at self.old (out_index self.old.dims link)) ≡ true }
        ensures parcel { result ≡ record (out_at self.old (out_index self.old.dims link)).parcel {
          last = at_end self.old.dims self.old.ins self.old.done (hop_at self.old.dims link);
          epoch = self.old.epoch;
        } }
        ensures sound { IsFresh result
            × All (λ e. IsFair self.old.dims (hop_at self.old.dims link) e.tag) result.untaken }
        ensures lent { IsLentToSend self.new (out_index self.old.dims link) }
        ensures state { self.new ≡ record self.old {
          outs = slice_set self.old.outs (out_index self.old.dims link)
              (record { parcel = blank self.old.epoch; closed = false });
          lent = ToSend (out_index self.old.dims link) result;
          pulled = None;
        } }
    {
        let number = self.routes.number_to(link);
        let last = self.at_end(number);
        let mut parcel = self.take_spare();
        self.pulled = None;
        self.outs[number as usize].exchange(&mut parcel);
        parcel.set_last(last);
        parcel.set_epoch(self.epoch);
        self.loan = Loan::ToSend(number, last, Snapshot::of(&parcel));
        parcel
    }

    /// Takes back the open parcel of a link, or the empty one that a post left in its place if it
    /// was sent. The link is closed from now on if the parcel was sent and was marked last.
    pub fn note_sent(&mut self, link: u32, p: Parcel<CAP>, sent: bool)
        requires link { link < links self.old.dims }
        requires starts_here { sender_at self.old.dims link ≡ self.old.rank }
        requires lent { IsLentToSend self.old (out_index self.old.dims link) }
        requires kept { sent ≡ false → p ≡ lent_parcel self.old.lent }
        requires emptied { sent ≡ true → p ≡ blank self.old.epoch }
        ensures { self.new ≡ record self.old {
          outs = slice_set self.old.outs (out_index self.old.dims link) (record {
            parcel = p.entry;
            closed = sent && (lent_parcel self.old.lent).last;
          });
          lent = Nothing;
          pulled = None;
        } }
    {
        let number = self.routes.number_to(link);
        let mut parcel = p;
        self.put_in_place(number, &mut parcel);
        if sent && self.loan.is_last() {
            self.close(number);
        }
        self.loan = Loan::Nothing(parcel);
    }

    /// Lends the inbox of a link that is wanted, empty. It comes back by `note_got`, before any
    /// other call.
    pub fn lend_in(&mut self, link: u32) -> Parcel<CAP>
        requires link { link < links self.old.dims }
        requires ends_here { reader_at self.old.dims link ≡ self.old.rank }
        requires none_lent { self.old.lent ≡ Nothing }
        requires wanted { is_wanted (in_at self.old (in_index self.old.dims link)) ≡ true }
        ensures parcel { result ≡ blank self.old.epoch }
        ensures lent { IsLentToFill self.new (in_index self.old.dims link) }
        ensures state { self.new ≡ record self.old {
          ins = slice_set self.old.ins (in_index self.old.dims link)
              (record { parcel = blank self.old.epoch; ended = false });
          lent = ToFill (in_index self.old.dims link);
          pulled = None;
        } }
    {
        let number = self.routes.number_from(link);
        let mut parcel = self.take_spare();
        self.take_in(number, &mut parcel);
        self.loan = Loan::ToFill(number);
        parcel
    }

    /// Takes back the inbox of a link, filled if `got`, and empty otherwise. The link has ended
    /// from now on if a parcel came that is marked last.
    pub fn note_got(&mut self, link: u32, p: Parcel<CAP>, got: bool)
        requires link { link < links self.old.dims }
        requires ends_here { reader_at self.old.dims link ≡ self.old.rank }
        requires lent { IsLentToFill self.old (in_index self.old.dims link) }
        requires kept { got ≡ false → p ≡ blank self.old.epoch }
        requires fresh { got ≡ true → IsFresh p }
        requires epoch { got ≡ true → p.epoch ≡ self.old.epoch }
        requires fair { got ≡ true → All (λ e. IsFair self.old.dims (hop_at self.old.dims link) e.tag) p.untaken }
        ensures { self.new ≡ record self.old {
          ins = slice_set self.old.ins (in_index self.old.dims link) (record {
            parcel = p.entry;
            ended = got && p.entry.last;
          });
          lent = Nothing;
          pulled = None;
        } }
    {
        let number = self.routes.number_from(link);
        let mut parcel = p;
        self.take_in(number, &mut parcel);
        self.loan = Loan::Nothing(parcel);
    }
}
