//! Which items a rank of topo may be sent in its round.

ghost use Rattle.std.specs.Prelude.{◌≡◌, ◌<◌, ◌-◌, ◌%◌, ◌==◌, ◌&&◌, [], ◌∷◌, nat_lt, if◌then◌else◌};
ghost use Rattle.app_topo.specs.Topos.{may_topo};

use bale_items::Item;

/// A rank in a round of topo, as far as it says which items the rank may be sent.
#[derive(Clone, Copy)]
pub(crate) struct Seat {
    pub(crate) rank: u32,
    pub(crate) ranks: u32,
    /// the matrix's number of rows, and of columns
    pub(crate) size: u32,
    pub(crate) round: u64,
}

impl Seat {
    /// Whether the rank may be sent an item by another.
    #[inline(always)]
    pub(crate) fn fits(self, from: u32, item: Item) -> bool
        ensures { result ≡ may_topo (self.size ∷ []) self.ranks self.round self.rank from item }
    {
        kind_fits(self.round, item.c) && self.owns(from, item)
    }

    /// Whether another rank may send it such numbers, of which the first is of a row or column of
    /// its own.
    #[inline(always)]
    pub(crate) fn owns(self, from: u32, item: Item) -> bool
        ensures { result ≡ (nat_lt from self.ranks && nat_lt item.a self.size && nat_lt item.b
            self.size && item.a % self.ranks == self.rank) }
    {
        from < self.ranks
            && item.a.max(item.b) < self.size as u64
            && item.a as u32 % self.ranks == self.rank
    }
}

/// Whether an item of this kind comes in the round.
#[inline(always)]
fn kind_fits(round: u64, kind: u64) -> bool
    ensures { result ≡ (if round == 0 then nat_lt kind 2 else kind == 3 - round % 2) }
{
    if round == 0 {
        return kind < 2;
    }
    kind == 3 - round % 2
}
