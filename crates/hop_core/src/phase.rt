//! How far a rank is in its epoch, and what became of an item that was pushed.

/// How far a rank is in its epoch.
#[derive(Clone, Copy, PartialEq, Eq, Debug)]
pub enum Phase {
    /// The epoch has not begun.
    Dormant,
    /// Items may be pushed.
    Working,
    /// All items are pushed, and a link out is not closed yet.
    Endgame,
    /// All links out are closed; something may still come or is still unread.
    Cleanup,
    /// All that was sent to this rank has come, and is read.
    Complete,
}

/// What became of an item that was pushed.
#[derive(Clone, Copy, PartialEq, Eq, Debug)]
pub enum Pushed {
    /// It is in the open parcel of its first link.
    Accepted,
    /// That parcel is full, and nothing changed.
    Full,
}
