//! Matrices generated from a seed.
ghost use Rattle.std.specs.Prelude.{◌≡◌, ◌≤◌, ◌+◌, ◌<◌, ◌%◌, pos, slice_index, vec_len, IfOk};
ghost use Rattle.mtx_text.specs.Permutations.{Permutes};
ghost use Rattle.mtx_text.specs.Generated.{CanHide, generated_matrix};
ghost use Rattle.mtx_text.specs.code.Bands.{Hides};

use crate::kind::Kind;
use crate::matrix::Matrix;
use crate::seeds::Words;
use bale_items::{NoMemory, Triple};
use std::alloc::{AllocError, Global};

/// The matrix of `n` rows and columns and `m` entries that a seed stands for: an upper triangular
/// band with a full diagonal, hidden under a permutation of the rows and one of the columns.
///
/// # Errors
///
/// `NoMemory` if there was none.
pub fn gen_matrix(alloc: Global, n: u32, m: u32, seed: u64) -> Result<Matrix, NoMemory>
    requires some { 1 ≤ n }
    requires full { n ≤ m }
    requires hidden { CanHide n m }
    ensures { IfOk result (λ g. g ≡ generated_matrix n m seed) }
{
    let mut words = Words::of_seed(seed);
    let rows = words.permutation(alloc, n)?;
    let cols = words.permutation(alloc, n)?;
    let entries = hide(alloc, n, m, &rows, &cols, words)?;
    Ok(Matrix::of_parts(n, n, Kind::Integer, entries))
}

/// The entries of the band, with a word drawn for each.
fn hide(
    alloc: Global,
    n: u32,
    m: u32,
    rows: &Vec<u32>,
    cols: &Vec<u32>,
    words: Words,
) -> Result<Vec<Triple>, AllocError>
    requires hidden { CanHide n m }
    requires rows { Permutes n rows.now.items }
    requires cols { Permutes n cols.now.items }
    ensures { IfOk result (λ v. Hides n m rows.now.items cols.now.items words v.items) }
{
    let mut words = words;
    let mut entries = Vec::with_capacity(alloc, m as usize)?;
    let mut distance = 0;
    let mut row = 0;
    let mut left = m;
    while left > 0 {
        let word = words.draw();
        entries.push(entry_at(rows, cols, row, row + distance, word))?;
        left -= 1;
        row += 1;
        if row + distance == n {
            row = 0;
            distance += 1;
        }
    }
    Ok(entries)
}

/// The entry that hides a position, with the value of a word.
#[inline(always)]
fn entry_at(rows: &Vec<u32>, cols: &Vec<u32>, row: u32, col: u32, word: u32) -> Triple
    requires row { row < vec_len rows.now }
    requires col { col < vec_len cols.now }
    ensures { result ≡ record {
      i = slice_index rows.now.items row;
      j = slice_index cols.now.items col;
      v = pos (1 + word % 1000);
    } }
{
    Triple {
        i: rows[row as usize],
        j: cols[col as usize],
        v: (word % 1_000) as i64 + 1,
    }
}
