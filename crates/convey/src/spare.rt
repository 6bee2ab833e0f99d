//! The parcel that a rank has at hand.
ghost use Rattle.std.specs.Prelude.{◌≡◌};
ghost use Rattle.item_buffer.specs.Contents.{blank};

use item_buffer::Parcel;

/// An empty parcel, which goes round: it is exchanged for each open parcel that is sent, and for
/// each parcel that came.
#[derive(Drop)]
pub(crate) struct Spare<const CAP: usize> {
    pub(crate) parcel: Parcel<CAP>,
    ghost empty: { parcel ≡ blank parcel.epoch },
}
