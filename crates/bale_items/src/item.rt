//! Items, the tags that they carry in transit, and the two together.

/// What an application sends: three words, whose meaning is the application's own.
#[repr(C)]
#[derive(Clone, Copy, PartialEq, Eq, Default, Debug)]
pub struct Item {
    pub a: u64,
    pub b: u64,
    pub c: u64,
}

/// One digit for each hop of a route, up to three: what an entry must carry so that each relay and
/// the reader know its sender and its destination.
#[repr(C)]
#[derive(Clone, Copy, PartialEq, Eq, Default, Debug)]
pub struct Tag {
    pub d1: u8,
    pub d2: u8,
    pub d3: u8,
}

/// An item on a link.
#[repr(C)]
#[derive(Clone, Copy, PartialEq, Eq, Default, Debug)]
pub struct Entry {
    pub tag: Tag,
    pub item: Item,
}
