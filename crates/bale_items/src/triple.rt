//! One entry of a sparse matrix.

/// The value `v` at row `i` and column `j`, both counted from 0.
#[derive(Clone, Copy, PartialEq, Eq, Debug)]
pub struct Triple {
    pub i: u32,
    pub j: u32,
    pub v: i64,
}
