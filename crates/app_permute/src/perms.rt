//! Permutations of rows and columns that a seed stands for.
ghost use Rattle.std.specs.Prelude.{◌≡◌, ◌≤◌, IfOk};
ghost use Rattle.mtx_text.specs.Permutations.{Permutes};
ghost use Rattle.app_permute.specs.Perms.{perms_of};

use bale_items::NoMemory;
use mtx_text::Words;
use std::alloc::Global;
use std::marker::Model;

/// A permutation of rows and one of columns.
#[derive(Drop)]
pub struct Perms {
    rows: Vec<u32>,
    cols: Vec<u32>,
}

impl Model for Perms {
    ghost use Rattle.mtx_text.specs.Permutations.{Permutes};
    ghost use Rattle.app_permute.specs.Perms.{TwoLists};

    ghost Value = { TwoLists };

    ghost view = { λ p. record { rows = p.rows.items; cols = p.cols.items } };
}

/// The permutations of a seed for `rows` rows and `cols` columns, at most 16,384 each.
///
/// # Errors
///
/// `NoMemory` if there was none.
pub fn seed_perms(alloc: Global, rows: u32, cols: u32, seed: u64) -> Result<Perms, NoMemory>
    requires tall { rows ≤ 16_384 }
    requires wide { cols ≤ 16_384 }
    ensures perms { IfOk result (λ p. p ≡ perms_of rows cols seed) }
    ensures rows { IfOk result (λ p. Permutes rows p.rows) }
    ensures cols { IfOk result (λ p. Permutes cols p.cols) }
{
    let mut words = Words::of_seed(seed);
    let new_rows = words.permutation(alloc, rows)?;
    let new_cols = words.permutation(alloc, cols)?;
    Ok(Perms {
        rows: new_rows,
        cols: new_cols,
    })
}

impl Perms {
    /// The new numbers of the rows.
    pub fn rows(&self) -> &[u32]
        ensures { result.now ≡ self.now.rows }
    {
        self.rows.as_slice()
    }

    /// The new numbers of the columns.
    pub fn cols(&self) -> &[u32]
        ensures { result.now ≡ self.now.cols }
    {
        self.cols.as_slice()
    }
}
