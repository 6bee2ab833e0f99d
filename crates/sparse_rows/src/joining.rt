//! The matrix of all ranks' cells.
ghost use Rattle.std.specs.Prelude.{◌≡◌, ℕ, ◌≤◌, ◌%◌, [], length, slice_index_or, IfOk};
ghost use Rattle.std.specs.List.{All};
ghost use Rattle.list_laws.specs.Lists.{EachAt};
ghost use Rattle.mtx_text.specs.Sparse.{IsEntry};
ghost use Rattle.mtx_text.specs.Maps.{at, value_at};
ghost use Rattle.mtx_text.specs.Cells.{InOrder, together, sparse};

use bale_items::NoMemory;
use mtx_text::{Cells, Kind, Matrix};
use std::alloc::Global;

/// The matrix of all cells of the ranks, from 1 to 64, ordered by row and then column. Rank `r` has
/// cells in rows `i` with `i mod P = r`.
///
/// # Errors
///
/// `NoMemory` if there was none, or if there are more cells than the 524,288 entries of a
/// matrix.
pub fn join(
    alloc: Global,
    rows: u32,
    cols: u32,
    kind: Kind,
    rows_of: &[Cells],
) -> Result<Matrix, NoMemory>
    requires ranks { (1 ≤ length rows_of.now) × (length rows_of.now ≤ 64) }
    requires own { EachAt (λ r cells. All (λ t. t.i % length rows_of.now ≡ r) cells) rows_of.now }
    requires tall { rows ≤ 16_384 }
    requires wide { cols ≤ 16_384 }
    requires inside { All (λ cells. All (λ t. IsEntry (sparse rows cols kind []) t) cells) rows_of.now }
    ensures whole { IfOk result (λ m. m ≡ sparse rows cols kind (together rows_of.now)) }
    ensures values { IfOk result (λ m. (i j : ℕ)
        → at m i j ≡ value_at (slice_index_or rows_of.now (i % length rows_of.now) []) i j) }
    ensures ordered { IfOk result (λ m. InOrder m.entries) }
{
    let m = Matrix::of_all_cells(alloc, rows, cols, kind, rows_of)?;
    Ok(m)
}
