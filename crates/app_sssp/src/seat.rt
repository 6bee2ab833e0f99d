//! Which items a rank of sssp may be sent in its round.

ghost use Rattle.std.specs.Prelude.{◌≡◌, ◌<◌, [], ◌∷◌};
ghost use Rattle.app_sssp.specs.Sssps.{may_sssp};

use bale_items::Item;

/// A rank in a round of sssp, as far as it says which items the rank may be sent.
#[derive(Clone, Copy)]
pub(crate) struct Seat {
    pub(crate) rank: u32,
    pub(crate) ranks: u32,
    /// the number of vertices
    pub(crate) rows: u32,
    pub(crate) round: u64,
}

impl Seat {
    /// Whether the rank may be sent an item by another.
    #[inline(always)]
    pub(crate) fn fits(self, from: u32, item: Item) -> bool
        requires { self.rank < self.ranks }
        ensures { result ≡ may_sssp (self.rows ∷ []) self.ranks self.round self.rank from item }
    {
        from < self.ranks
            && item.a < self.rows as u64
            && item.a as u32 % self.ranks == self.rank
            && (self.round > 0 || item.b < self.rows as u64)
    }
}
