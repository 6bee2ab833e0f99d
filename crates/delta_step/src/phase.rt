//! The kinds of rounds.

/// What a round is for.
#[derive(Clone, Copy, PartialEq, Eq, Debug)]
pub enum Phase {
    /// Edges go to the owners of their beginnings.
    First,
    /// All ranks tell their least bucket with a pending vertex.
    Find,
    /// Active vertices offer weights along light edges.
    Light,
    /// Settled vertices offer weights along heavy edges.
    Heavy,
}
