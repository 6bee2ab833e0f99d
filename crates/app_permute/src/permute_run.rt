//! permute's start, and its answer as a matrix.

ghost use Rattle.round_program.specs.Ranks.{AreRanks};
ghost use Rattle.std.specs.Prelude.{◌≡◌, ◌<◌, ℕ, List, [], ◌∷◌, length, map, slice_index_or, IfOk};
ghost use Rattle.mtx_text.specs.Permutations.{Permutes};
ghost use Rattle.sparse_rows.specs.Parts.{HasPart};
ghost use Rattle.round_program.specs.Canonical.{InRound, EndsWithin};
ghost use Rattle.app_permute.specs.Reorderings.{reordering_of, IsPermuted};
ghost use Rattle.app_permute.specs.Permutes.{permute_rules};
ghost use Rattle.app_permute.specs.PermuteRuns.{permute_begins, permute_starts, PermuteEnded};

use crate::permute::{Begins, Permute};
use crate::permute_lists::own_numbers;
use bale_items::{NoMemory, Triple};
use mtx_text::{Cells, Matrix};
use round_program::Progs;
use sparse_rows::{Parts, split};
use std::alloc::Global;

/// The programs of permute on `ranks` ranks, from 1 to 64, in round 0 of a run of three rounds.
/// `rp` and `cp` are permutations of the rows and the columns: row `i` becomes row `rp[i]`, and
/// column `j` column `cp[j]`.
///
/// # Errors
///
/// `NoMemory` if there was none for the programs.
pub fn permute_start(
    alloc: Global,
    m: &Matrix,
    rp: &[u32],
    cp: &[u32],
    ranks: u32,
) -> Result<Progs<Permute>, NoMemory>
    requires rows { Permutes m.now.rows rp.now }
    requires cols { Permutes m.now.cols cp.now }
    requires ranks { AreRanks ranks }
    ensures starts { IfOk result (λ ps. ps ≡ permute_starts ranks m.now rp.now cp.now) }
    ensures begins { IfOk result (λ ps. InRound permute_rules ranks 0 (m.now.rows ∷ m.now.cols ∷ []) 3 ps) }
    ensures ends { IfOk result (λ ps. EndsWithin permute_rules ps 3) }
{
    let parts = split(alloc, m, ranks)?;
    m.known();
    let mut progs = Progs::new(alloc);
    for rank in 0..ranks {
        progs.add(part_of(alloc, m, &parts, rp, cp, ranks, rank)?)?;
    }
    Ok(progs)
}

/// One rank's program.
fn part_of(
    alloc: Global,
    m: &Matrix,
    parts: &Parts,
    rp: &[u32],
    cp: &[u32],
    ranks: u32,
    rank: u32,
) -> Result<Permute, NoMemory>
    requires part { HasPart ranks rank m.now.entries parts.now }
    requires rows { Permutes m.now.rows rp.now }
    requires cols { Permutes m.now.cols cp.now }
    ensures { IfOk result (λ s. s ≡ permute_begins ranks m.now rp.now cp.now rank) }
{
    m.known();
    let begins = Begins {
        new_rows: own_numbers(alloc, ranks, rank, rp)?,
        new_cols: own_numbers(alloc, ranks, rank, cp)?,
        outgoing: cells_of(alloc, parts, rank)?,
    };
    Ok(Permute::new(alloc, rank, ranks, m.rows(), m.cols(), begins))
}

/// The entries of a rank.
fn cells_of(alloc: Global, parts: &Parts, rank: u32) -> Result<Vec<Triple>, NoMemory>
    requires { rank < length parts.now }
    ensures { IfOk result (λ v. v.items ≡ map (λ e. e.1) (slice_index_or parts.now rank [])) }
{
    let mut cells = Vec::with_capacity(alloc, parts.len(rank))?;
    for x in 0..parts.len(rank) {
        let (_number, entry) = parts.entry(rank, x);
        cells.push(entry)?;
    }
    Ok(cells)
}

/// The permuted matrix, by row and then column. The programs are those of `permute_start` on `m`
/// after their run.
///
/// # Errors
///
/// `NoMemory` if there was none for the matrix.
pub fn permute_end(alloc: Global, m: &Matrix, p: &Progs<Permute>) -> Result<Matrix, NoMemory>
    requires ended { (rp : List ℕ) × (cp : List ℕ) × PermuteEnded rp cp m.now p.now }
    ensures matrix { (rp cp : List ℕ) → PermuteEnded rp cp m.now p.now
        → IfOk result (λ b. b ≡ reordering_of rp cp m.now) }
    ensures values { (rp cp : List ℕ) → PermuteEnded rp cp m.now p.now → IfOk result (λ b. IsPermuted rp cp m.now b) }
{
    let mut maps = Vec::with_capacity(alloc, p.len())?;
    for rank in 0..p.len() {
        let Some(program) = p.get(rank) else {
            unreachable!()
        };
        maps.push(program.cells())?;
    }
    let all = Cells::of_maps(alloc, &maps)?;
    Matrix::of_own_cells(m.rows(), m.cols(), m.kind(), all)
}
