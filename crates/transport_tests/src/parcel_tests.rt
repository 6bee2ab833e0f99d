//! Parcels by hand.

use bale_items::{Entry, Item, Tag};
use item_buffer::Parcel;
use std::test::Fail;

fn entry(a: u64) -> Entry {
    Entry {
        tag: Tag::default(),
        item: Item { a, b: 0, c: 0 },
    }
}

#[test]
fn parcel_by_hand(rt: HostRuntime) -> Result<(), Fail> {
    let mut parcel = Parcel::<1>::new(rt.alloc())?;
    assert!(rt; parcel.try_push(entry(7)));
    assert!(rt; !parcel.try_push(entry(8)));
    assert_eq!(rt; parcel.take(), Some(entry(7)));
    parcel.untake();
    assert_eq!(rt; parcel.take(), Some(entry(7)));
    assert_eq!(rt; parcel.take(), None);
    Ok(())
}
