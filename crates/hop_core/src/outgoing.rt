//! An open parcel that is taken out of a rank's state, until it is known whether it was sent.

ghost use Rattle.std.specs.Prelude.{◌≡◌, slice_set, false, None};
ghost use Rattle.item_buffer.specs.Contents.{blank};
ghost use Rattle.hop_core.specs.Lending.{IsTakenOut};

use crate::state::RankState;
use item_buffer::Parcel;
use std::snapshot::Snapshot;

/// What `take_out` leaves open: whether the parcel was sent. The state stays borrowed until `sent`
/// or `put_back` says so, and a value of this type cannot be dropped, so one of them is the next
/// call on the state.
pub struct Outgoing<'a, const CAP: usize, const HOPS: usize> {
    pub(crate) state: &'a mut RankState<CAP, HOPS>,
    pub(crate) number: u32,
    /// Whether it is marked last.
    pub(crate) last: bool,
    /// The parcel as it was handed over.
    pub(crate) lent: Snapshot<Parcel<CAP>>,
}

impl<'a, const CAP: usize, const HOPS: usize> Outgoing<'a, CAP, HOPS> {
    /// The parcel was sent. The link is closed from now on if it was marked last.
    #[inline]
    pub fn sent(self)
        requires taken { IsTakenOut self.state.now self.number self.lent.value }
        requires marked { self.last ≡ self.lent.value.last }
        ensures { self.exit.0.now ≡ record self.entry.state.now {
          outs = slice_set self.entry.state.now.outs self.entry.number
              (record { parcel = blank self.entry.state.now.epoch; closed = self.entry.lent.value.last });
        } }
    {
        let Outgoing {
            state,
            number,
            last,
            lent: _,
        } = self;
        if last {
            state.close(number);
        }
    }

    /// The parcel, which could not be sent, is put back as it was handed over, for the empty one in
    /// its place.
    #[inline]
    pub fn put_back(self, parcel: &mut Parcel<CAP>)
        requires taken { IsTakenOut self.state.now self.number self.lent.value }
        requires lent { parcel.old ≡ self.lent.value }
        ensures parcel { parcel.new ≡ blank self.entry.state.now.epoch }
        ensures state { self.exit.0.now ≡ record self.entry.state.now {
          outs = slice_set self.entry.state.now.outs self.entry.number
              (record { parcel = parcel.old; closed = false });
          pulled = None;
        } }
    {
        let Outgoing {
            state,
            number,
            last: _,
            lent: _,
        } = self;
        state.put_in_place(number, parcel);
    }
}
