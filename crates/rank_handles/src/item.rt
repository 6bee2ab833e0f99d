//! Items as C has them.
ghost use Rattle.std.specs.Prelude.{◌≡◌};
ghost use Rattle.rank_handles.specs.Items.{item_of, bale_item};

use bale_items::Item;

/// An item: three words, whose meaning is the program's own.
#[repr(C)]
#[derive(Clone, Copy)]
pub struct BaleItem {
    pub a: u64,
    pub b: u64,
    pub c: u64,
}

/// The item.
#[inline]
pub fn item_from(item: &BaleItem) -> Item
    ensures { result ≡ item_of item.now }
{
    Item {
        a: item.a,
        b: item.b,
        c: item.c,
    }
}

/// The item as C has it.
#[inline]
pub fn bale_item_from(item: Item) -> BaleItem
    ensures { result ≡ bale_item item }
{
    BaleItem {
        a: item.a,
        b: item.b,
        c: item.c,
    }
}
