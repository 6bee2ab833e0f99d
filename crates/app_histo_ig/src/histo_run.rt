//! histo's start, and its answer as text.

ghost use Rattle.round_program.specs.Ranks.{AreRanks};
ghost use Rattle.std.specs.Prelude.{◌≡◌, ◌<◌, ◌≤◌, ◌+◌, ◌^◌, ◌%◌, ◌/◌, [], ◌∷◌, length, map, replicate, slice_index_or, IfOk};
ghost use Rattle.bale_types.specs.Out.{HandsOn, Writes};
ghost use Rattle.mtx_text.specs.Sparse.{Sparse};
ghost use Rattle.sparse_rows.specs.Parts.{HasPart};
ghost use Rattle.round_program.specs.Canonical.{InRound, EndsWithin};
ghost use Rattle.app_histo_ig.specs.Histos.{histo_rules};
ghost use Rattle.app_histo_ig.specs.HistoLines.{in_column, histo_line, histo_lines};
ghost use Rattle.app_histo_ig.specs.HistoRuns.{histo_begins, histo_starts, HistoEnded};

use crate::histo::Histo;
use bale_items::NoMemory;
use bale_types::{Failed, Line, Out, Sink};
use mtx_text::Matrix;
use round_program::Progs;
use sparse_rows::{Parts, split};
use std::alloc::Global;

/// The programs of histo on `ranks` ranks, from 1 to 64, in round 0 of a run of one round.
///
/// # Errors
///
/// `NoMemory` if there was none for the programs.
pub fn histo_start(alloc: Global, m: &Matrix, ranks: u32) -> Result<Progs<Histo>, NoMemory>
    requires { AreRanks ranks }
    ensures starts { IfOk result (λ ps. ps ≡ histo_starts ranks m.now) }
    ensures begins { IfOk result (λ ps. InRound histo_rules ranks 0 (m.now.cols ∷ []) 1 ps) }
    ensures ends { IfOk result (λ ps. EndsWithin histo_rules ps 1) }
{
    let parts = split(alloc, m, ranks)?;
    m.known();
    let mut progs = Progs::new(alloc);
    for rank in 0..ranks {
        progs.add(part_of(alloc, m, &parts, ranks, rank)?)?;
    }
    Ok(progs)
}

/// One rank's program.
fn part_of(
    alloc: Global,
    m: &Matrix,
    parts: &Parts,
    ranks: u32,
    rank: u32,
) -> Result<Histo, NoMemory>
    requires { HasPart ranks rank m.now.entries parts.now }
    ensures { IfOk result (λ s. s ≡ histo_begins ranks m.now rank) }
{
    m.known();
    let columns = columns_of(alloc, parts, rank)?;
    let places = (m.cols() / ranks + 1) as usize;
    let counts = zeros(alloc, places)?;
    Ok(Histo::new(rank, ranks, m.cols(), columns, counts))
}

/// So many numbers 0.
fn zeros(alloc: Global, n: usize) -> Result<Vec<u64>, NoMemory>
    ensures { IfOk result (λ v. v.items ≡ replicate n 0) }
{
    Ok(vec![in alloc; 0u64; n]?)
}

/// The columns of a rank's entries.
fn columns_of(alloc: Global, parts: &Parts, rank: u32) -> Result<Vec<u32>, NoMemory>
    requires { rank < length parts.now }
    ensures { IfOk result (λ v. v.items ≡ map (λ e. e.1.j) (slice_index_or parts.now rank [])) }
{
    let mut columns = Vec::with_capacity(alloc, parts.len(rank))?;
    for x in 0..parts.len(rank) {
        let (_number, entry) = parts.entry(rank, x);
        columns.push(entry.j)?;
    }
    Ok(columns)
}

/// Writes a line for each column, in order: its number from 1 and how many entries it has. The
/// programs are those of `histo_start` after their run. No memory is taken.
///
/// # Errors
///
/// `Failed` if the sink's faults rose in this call.
pub fn histo_write<K: Sink>(p: &Progs<Histo>, out: &mut Out<'_, K>) -> Result<(), Failed>
    requires ended { (m : Sparse) × HistoEnded m p.now }
    ensures written { (m : Sparse) → HistoEnded m p.now
        → Writes K.taken K.faults (histo_lines m.entries m.cols) out.old out.new result }
    ensures sink { HandsOn K.taken K.faults out.old out.new result }
{
    let cols = columns_counted(p);
    for j in 0..cols {
        write_count(out, j, count_of(p, j))?;
    }
    Ok(())
}

/// How many columns there are.
fn columns_counted(p: &Progs<Histo>) -> u32
    requires { (m : Sparse) × HistoEnded m p.now }
    ensures columns { (m : Sparse) → HistoEnded m p.now → result ≡ m.cols }
    ensures few { result ≤ 16384 }
{
    let Some(first) = p.get(0) else {
        unreachable!()
    };
    first.cols()
}

/// The count of a column, as its owner has it.
fn count_of(p: &Progs<Histo>, j: u32) -> u64
    requires { (m : Sparse) × HistoEnded m p.now × (j < m.cols) }
    ensures { (m : Sparse) → HistoEnded m p.now → result ≡ in_column j m.entries }
{
    let ranks = p.len();
    let Some(owner) = p.get(j as usize % ranks) else {
        unreachable!()
    };
    owner.counts()[j as usize / ranks]
}

/// Writes the line of one column: its number from 1 and how many entries it has. No memory is
/// taken.
///
/// # Errors
///
/// `Failed` if the sink's faults rose in this call.
pub fn write_count<K: Sink>(out: &mut Out<'_, K>, j: u32, count: u64) -> Result<(), Failed>
    requires { j + 1 < 2 ^ 32 }
    ensures { Writes K.taken K.faults (histo_line j count) out.old out.new result }
{
    let mut line = Line::new();
    line.number((j + 1) as u64);
    line.byte(b' ');
    line.number(count);
    line.byte(b'\n');
    out.line(&line)
}
