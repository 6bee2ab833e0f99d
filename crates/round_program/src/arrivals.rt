//! What comes to a rank, item by item.

ghost use Rattle.std.specs.Prelude.{◌≡◌, ℕ, List, drop, slice_get};
ghost use Rattle.bale_items.specs.declared.item.Item.{Item};

use bale_items::Item;

/// Items that came to a rank, in order, each with its sender. Whatever carries the items says how
/// they are read and whose they are, so that a program takes in a whole batch by one call.
pub trait Arrivals: Drop {
    ghost items: { Self → List (ℕ × Item) };

    /// Takes the first one out, or answers `None` if and only if none is left.
    fn next(&mut self) -> Option<(u32, Item)>
        ensures first { result ≡ slice_get (items self.old) 0 }
        ensures rest { items self.new ≡ drop 1 (items self.old) };
}
