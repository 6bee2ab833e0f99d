//! What a turn tells.

/// Whether the epoch of a node goes on.
#[derive(Clone, Copy, PartialEq, Eq, Debug)]
pub enum Turn {
    /// Something is still to be sent, to come, or to be absorbed.
    Going,
    /// All is sent, and all that was sent to this rank is absorbed.
    Ended,
}
