//! A slot of the bank's table: the place of one parcel in transit.
ghost use Rattle.std.specs.Prelude.{◌≡◌, ◌<◌, IfOk};
ghost use Rattle.item_buffer.specs.Capacity.{IsCap};
ghost use Rattle.item_buffer.specs.Contents.{blank};

use bale_items::NoMemory;
use item_buffer::Parcel;
use std::alloc::Global;
use std::marker::Model;

/// The place of one parcel. A post and a collect exchange the parcel in it for the one at hand.
#[derive(Drop)]
pub struct Slot<const CAP: usize> {
    pub(crate) parcel: Parcel<CAP>,
    /// Fills a slot up to 128 bytes, so that it shares no cache line with a slot that another
    /// thread is at.
    _filler: [u64; 13],
}

impl<const CAP: usize> Model for Slot<CAP> {
    ghost use Rattle.item_buffer.specs.Contents.{Contents};

    ghost Value = { Contents };

    ghost view = { λ s. s.parcel };
}

impl<const CAP: usize> Slot<CAP> {
    /// A slot with an empty parcel.
    pub(crate) fn new(alloc: Global) -> Result<Self, NoMemory>
        requires cap { IsCap CAP }
        ensures { IfOk result (λ s. s ≡ blank 0) }
    {
        Ok(Slot {
            parcel: Parcel::new(alloc)?,
            _filler: [0; 13],
        })
    }
}
