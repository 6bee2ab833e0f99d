//! What a matrix's values are.

/// The kind of a matrix, which its banner names.
#[derive(Clone, Copy, PartialEq, Eq, Debug)]
pub enum Kind {
    /// Each entry has a whole number of its own.
    Integer,
    /// Only the places count; each value is 1.
    Pattern,
}
