//! Which columns a rank owns.

ghost use Rattle.std.specs.Prelude.{◌≡◌, [], ◌∷◌};
ghost use Rattle.app_histo_ig.specs.Histos.{may_count};

use bale_items::Item;

/// A rank, as far as it says which items on columns the rank may be sent.
#[derive(Clone, Copy)]
pub(crate) struct Seat {
    pub(crate) rank: u32,
    pub(crate) ranks: u32,
    /// the matrix's number of columns
    pub(crate) cols: u32,
}

impl Seat {
    /// Whether the rank may be sent an item on a column by another: it owns the column.
    #[inline(always)]
    pub(crate) fn owns(self, from: u32, item: Item) -> bool
        ensures { result ≡ may_count (self.cols ∷ []) self.ranks 0 self.rank from item }
    {
        from < self.ranks && item.a < self.cols as u64 && item.a as u32 % self.ranks == self.rank
    }
}
