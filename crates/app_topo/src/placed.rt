//! Rows that have claimed.

/// A row that has claimed: its level, itself, and the column that it claims.
#[derive(Clone, Copy)]
pub struct Placed {
    /// its level, from 0
    pub level: u64,
    /// the row
    pub row: u32,
    /// the column
    pub column: u32,
}
