//! Where the items that a rank sends go.

ghost use Rattle.std.specs.Prelude.{ℕ, Bool};
ghost use Rattle.bale_items.specs.declared.item.Item.{Item};

use bale_items::Item;

/// Takes the items that a rank sends, one by one, as long as it has room. Whatever carries the
/// items says when one may be handed over and what that does, so that a program emits a whole batch
/// by one call.
pub trait Departures {
    /// an item for this rank may be handed over
    ghost may: { Self → ℕ → Type 0 };

    /// what handing over an item for a rank may do: whether the item was accepted, and the state
    /// after it
    ghost hands: { Self → ℕ → Item → Bool → Self → Type 0 };

    /// Takes an item for the rank `to`, or answers `false` and leaves it.
    fn push(&mut self, to: u32, item: Item) -> bool
        requires { may self.old to }
        ensures { hands self.old to item result self.new };

    ghost stays: { (s t : Self) (to other : ℕ) (x : Item) (accepted : Bool) → hands s to x accepted t → may s other
        → may t other };
}
