//! Batches of a conveyor and of an exstack, as items that came.
ghost use Rattle.std.specs.Prelude.{◌≡◌, ◌<◌, length, sum};
ghost use Rattle.std.specs.List.{All};
ghost use Rattle.bale_items.specs.declared.item.Item.{Item};
ghost use Rattle.bale_items.specs.declared.item.Entry.{Entry};
ghost use Rattle.route_tensor.specs.Neighbour.{hop_to};
ghost use Rattle.route_tensor.specs.Tag.{IsFair};
ghost use Rattle.rank_node.specs.Batches.{from_link, from_sender};

use bale_items::{Entry, Item};
use round_program::Arrivals;
use route_tensor::Routes;

/// The unread entries of a conveyor's link in, each of which tells its sender by its tag. One type
/// for parcels of all sizes, so that what programs make of a batch is compiled once.
#[derive(Drop)]
pub(crate) struct FromLink<'a> {
    pub(crate) routes: &'a Routes,
    pub(crate) number: u32,
    pub(crate) entries: &'a [Entry],
    ghost within: { number < sum routes.now.dims },
    ghost last: { hop_to routes.now.dims number ≡ length routes.now.dims },
    ghost fair: { All (λ e. IsFair routes.now.dims (length routes.now.dims) e.tag) entries.now },
}

impl<'a> Arrivals for FromLink<'a> {
    ghost items = { λ s. from_link s.routes.now s.number s.entries.now };

    fn next(&mut self) -> Option<(u32, Item)> {
        let (entry, rest) = self.entries.split_first()?;
        self.entries = rest;
        Some((self.routes.sender(self.number, entry.tag), entry.item))
    }
}

/// Unread entries that came from one sender: by an exstack, or over a conveyor's only hop.
#[derive(Drop)]
pub(crate) struct FromSender<'a> {
    pub(crate) sender: u32,
    pub(crate) entries: &'a [Entry],
}

impl<'a> Arrivals for FromSender<'a> {
    ghost items = { λ s. from_sender s.sender s.entries.now };

    fn next(&mut self) -> Option<(u32, Item)> {
        let (entry, rest) = self.entries.split_first()?;
        self.entries = rest;
        Some((self.sender, entry.item))
    }
}
