//! Which items a rank of delta-stepping may be sent in its round, and what the round is for.

ghost use Rattle.std.specs.Prelude.{◌≡◌, ◌<◌, [], ◌∷◌};
ghost use Rattle.delta_step.specs.Deltas.{may_delta};

use crate::phase::Phase;
use bale_items::Item;

/// A rank in a round of delta-stepping, as far as it says what is made of an item that comes.
#[derive(Clone, Copy)]
pub(crate) struct Seat {
    pub(crate) rank: u32,
    pub(crate) ranks: u32,
    /// the number of vertices
    pub(crate) rows: u32,
    pub(crate) round: u64,
    pub(crate) phase: Phase,
}

impl Seat {
    /// Whether the rank may be sent an item by another.
    #[inline(always)]
    pub(crate) fn fits(self, from: u32, item: Item) -> bool
        requires { self.rank < self.ranks }
        ensures { result ≡ may_delta (self.rows ∷ []) self.ranks self.round self.rank from item }
    {
        from < self.ranks
            && (self.round > 0
                || (item.a < self.rows as u64
                    && item.a as u32 % self.ranks == self.rank
                    && item.b < self.rows as u64))
    }
}
