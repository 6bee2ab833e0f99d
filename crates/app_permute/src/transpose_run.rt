//! transpose's start, and its answer as a matrix.

ghost use Rattle.round_program.specs.Ranks.{AreRanks};
ghost use Rattle.std.specs.Prelude.{◌≡◌, ◌<◌, [], ◌∷◌, length, map, slice_index_or, IfOk};
ghost use Rattle.sparse_rows.specs.Parts.{HasPart};
ghost use Rattle.round_program.specs.Canonical.{InRound, EndsWithin};
ghost use Rattle.app_permute.specs.Reorderings.{over_diagonal, transpose_of, IsTransposed};
ghost use Rattle.app_permute.specs.Transposes.{transpose_rules};
ghost use Rattle.app_permute.specs.TransposeRuns.{transpose_begins, transpose_starts, TransposeEnded};

use crate::transpose::Transpose;
use bale_items::{NoMemory, Triple};
use mtx_text::{Cells, Matrix};
use round_program::Progs;
use sparse_rows::{Parts, split};
use std::alloc::Global;

/// The programs of transpose on `ranks` ranks, from 1 to 64, in round 0 of a run of one round.
///
/// # Errors
///
/// `NoMemory` if there was none for the programs.
pub fn transpose_start(alloc: Global, m: &Matrix, ranks: u32) -> Result<Progs<Transpose>, NoMemory>
    requires { AreRanks ranks }
    ensures starts { IfOk result (λ ps. ps ≡ transpose_starts ranks m.now) }
    ensures begins { IfOk result (λ ps. InRound transpose_rules ranks 0 (m.now.cols ∷ m.now.rows ∷ []) 1 ps) }
    ensures ends { IfOk result (λ ps. EndsWithin transpose_rules ps 1) }
{
    let parts = split(alloc, m, ranks)?;
    m.known();
    let mut progs = Progs::new(alloc);
    for rank in 0..ranks {
        progs.add(part_of(alloc, m, &parts, ranks, rank)?)?;
    }
    Ok(progs)
}

/// One rank's program.
fn part_of(
    alloc: Global,
    m: &Matrix,
    parts: &Parts,
    ranks: u32,
    rank: u32,
) -> Result<Transpose, NoMemory>
    requires { HasPart ranks rank m.now.entries parts.now }
    ensures { IfOk result (λ s. s ≡ transpose_begins ranks m.now rank) }
{
    m.known();
    let outgoing = turned_of(alloc, parts, rank)?;
    Ok(Transpose::new(alloc, rank, ranks, m.cols(), m.rows(), outgoing))
}

/// The entries of a rank, turned.
fn turned_of(alloc: Global, parts: &Parts, rank: u32) -> Result<Vec<Triple>, NoMemory>
    requires { rank < length parts.now }
    ensures { IfOk result (λ v. v.items ≡ map (λ e. over_diagonal e.1) (slice_index_or parts.now rank [])) }
{
    let mut cells = Vec::with_capacity(alloc, parts.len(rank))?;
    for x in 0..parts.len(rank) {
        let (_number, entry) = parts.entry(rank, x);
        cells.push(turned(entry))?;
    }
    Ok(cells)
}

/// An entry turned over the diagonal.
fn turned(entry: Triple) -> Triple
    ensures { result ≡ over_diagonal entry }
{
    Triple {
        i: entry.j,
        j: entry.i,
        v: entry.v,
    }
}

/// The transposed matrix, by row and then column. The programs are those of `transpose_start` on
/// `m` after their run.
///
/// # Errors
///
/// `NoMemory` if there was none for the matrix.
pub fn transpose_end(alloc: Global, m: &Matrix, p: &Progs<Transpose>) -> Result<Matrix, NoMemory>
    requires ended { TransposeEnded m.now p.now }
    ensures matrix { IfOk result (λ b. b ≡ transpose_of m.now) }
    ensures values { IfOk result (λ b. IsTransposed m.now b) }
{
    let mut maps = Vec::with_capacity(alloc, p.len())?;
    for rank in 0..p.len() {
        let Some(program) = p.get(rank) else {
            unreachable!()
        };
        maps.push(program.cells())?;
    }
    let all = Cells::of_maps(alloc, &maps)?;
    Matrix::of_own_cells(m.cols(), m.rows(), m.kind(), all)
}
