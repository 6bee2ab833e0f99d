//! Matrices as their readers see them.
ghost use Rattle.std.specs.Prelude.{◌≡◌, length, slice_get};
ghost use Rattle.mtx_text.specs.Sparse.{Sparse, IsSparse};

use crate::kind::Kind;
use bale_items::Triple;
use std::marker::Model;

/// A sparse matrix: its sizes, its kind, and its entries in order, each a triple counted from 0.
///
/// Rows and columns are at most 16,384 each, entries at most 524,288, each inside the matrix, no
/// place twice; absolute values are at most 1,000,000,000,000, and 1 throughout if the kind is
/// Pattern.
#[derive(Drop)]
pub struct Matrix {
    rows: u32,
    cols: u32,
    kind: Kind,
    entries: Vec<Triple>,
}

impl Model for Matrix {
    ghost use Rattle.mtx_text.specs.Sparse.{Sparse, IsSparse};

    ghost Value = { Sparse };

    ghost view = { λ m. record { rows = m.rows; cols = m.cols; kind = m.kind; entries = m.entries.items } };

    ghost invariant = { λ m. IsSparse
        (record { rows = m.rows; cols = m.cols; kind = m.kind; entries = m.entries.items }) };
}

impl Matrix {
    /// The matrix of these parts.
    pub(crate) fn of_parts(rows: u32, cols: u32, kind: Kind, entries: Vec<Triple>) -> Matrix
        requires { IsSparse (record { rows = rows; cols = cols; kind = kind; entries = entries.items }) }
        ensures { result ≡ record { rows = rows; cols = cols; kind = kind; entries = entries.items } }
    {
        Matrix {
            rows,
            cols,
            kind,
            entries,
        }
    }

    /// How many rows there are.
    pub fn rows(&self) -> u32
        ensures { result ≡ self.now.rows }
    {
        self.rows
    }

    /// How many columns there are.
    pub fn cols(&self) -> u32
        ensures { result ≡ self.now.cols }
    {
        self.cols
    }

    /// What the values are.
    pub fn kind(&self) -> Kind
        ensures { result ≡ self.now.kind }
    {
        self.kind
    }

    /// How many entries there are.
    pub fn len(&self) -> usize
        ensures { result ≡ length self.now.entries }
    {
        self.entries.len()
    }

    /// Entry number `e` from 0, and `None` exactly past the end.
    pub fn get(&self, e: usize) -> Option<Triple>
        ensures { result ≡ slice_get self.now.entries e }
    {
        self.entries.as_slice().get(e).copied()
    }

    /// Does nothing, and states what every matrix keeps.
    #[inline]
    pub fn known(&self)
        ensures { IsSparse self.now }
    {
        let _rows = self.rows;
    }

    /// All entries in order, for loops. The second clause is what every matrix keeps.
    pub fn entries(&self) -> &[Triple]
        ensures entries { result.now ≡ self.now.entries }
        ensures kept { IsSparse self.now }
    {
        self.entries.as_slice()
    }
}
