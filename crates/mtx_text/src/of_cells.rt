//! Matrices of cells.
ghost use Rattle.std.specs.Prelude.{◌≡◌, ◌≤◌, [], length, IfOk, IsOk, OnOk};
ghost use Rattle.std.specs.List.{All};
ghost use Rattle.mtx_text.specs.Sparse.{IsEntry, AreSides};
ghost use Rattle.mtx_text.specs.Cells.{InOrder, together, sparse};
ghost use Rattle.mtx_text.specs.code.PlaceOrder.{AreCells};

use crate::cells::Cells;
use crate::kind::Kind;
use crate::matrix::Matrix;
use crate::place_order::gather;
use bale_items::{NoMemory, Triple};
use std::alloc::Global;

/// Entries of a matrix at most.
const MOST_ENTRIES: usize = 524_288;

impl Matrix {
    /// The matrix of cells, ordered by row and then column.
    ///
    /// # Errors
    ///
    /// `NoMemory` if there was none, or if there are more cells than the 524,288 entries of a
    /// matrix.
    pub fn of_cells(
        alloc: Global,
        rows: u32,
        cols: u32,
        kind: Kind,
        cells: &Cells,
    ) -> Result<Matrix, NoMemory>
        requires sides { AreSides rows cols }
        requires inside { All (λ t. IsEntry (sparse rows cols kind []) t) cells.now }
        ensures { IfOk result (λ m. m ≡ sparse rows cols kind cells.now) }
    {
        let mut triples = Vec::new(alloc);
        cells.append_to(&mut triples)?;
        gather(&mut triples);
        of_ordered(rows, cols, kind, triples)
    }

    /// The matrix of cells that nobody needs after it: they become the matrix's entries, and are
    /// not copied.
    ///
    /// # Errors
    ///
    /// `NoMemory` if and only if there are more cells than the 524,288 entries of a matrix.
    pub fn of_own_cells(rows: u32, cols: u32, kind: Kind, cells: Cells) -> Result<Matrix, NoMemory>
        requires sides { AreSides rows cols }
        requires inside { All (λ t. IsEntry (sparse rows cols kind []) t) cells }
        ensures matrix { IfOk result (λ m. m ≡ sparse rows cols kind cells) }
        ensures limit { (length cells ≤ 524_288 → IsOk result) × (IsOk result → length cells ≤ 524_288) }
    {
        of_ordered(rows, cols, kind, cells.into_entries())
    }

    /// The matrix of the cells of several maps, ordered by row and then column; if some have the
    /// same place, their greatest value counts.
    ///
    /// # Errors
    ///
    /// `NoMemory` if there was none, or if there are more cells than the 524,288 entries of a
    /// matrix.
    pub fn of_all_cells(
        alloc: Global,
        rows: u32,
        cols: u32,
        kind: Kind,
        all: &[Cells],
    ) -> Result<Matrix, NoMemory>
        requires sides { AreSides rows cols }
        requires inside { All (λ t. IsEntry (sparse rows cols kind []) t) (together all.now) }
        ensures matrix { IfOk result (λ m. m ≡ sparse rows cols kind (together all.now)) }
        ensures ordered { OnOk result (All (λ cells. InOrder cells) all.now) }
    {
        let mut triples = Vec::new(alloc);
        for cells in all {
            cells.append_to(&mut triples)?;
        }
        gather(&mut triples);
        of_ordered(rows, cols, kind, triples)
    }
}

/// The matrix of triples in order, if there are at most 524,288.
fn of_ordered(rows: u32, cols: u32, kind: Kind, triples: Vec<Triple>) -> Result<Matrix, NoMemory>
    requires { AreCells rows cols kind triples.items }
    ensures matrix { IfOk result (λ m. m ≡ sparse rows cols kind triples.items) }
    ensures limit { (length triples.items ≤ 524_288 → IsOk result)
        × (IsOk result → length triples.items ≤ 524_288) }
{
    if triples.len() > MOST_ENTRIES {
        return Err(NoMemory);
    }
    Ok(Matrix::of_parts(rows, cols, kind, triples))
}
