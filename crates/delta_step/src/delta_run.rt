//! The start of delta-stepping, and its answer as text.

ghost use Rattle.round_program.specs.Ranks.{AreRanks};
ghost use Rattle.std.specs.Prelude.{ℕ, true, ◌≡◌, ◌<◌, ◌≤◌, ◌+◌, ◌*◌, ◌%◌, ◌/◌, [], ◌∷◌, Option, IfOk};
ghost use Rattle.bale_types.specs.Out.{HandsOn, Writes};
ghost use Rattle.mtx_text.specs.Sparse.{Sparse};
ghost use Rattle.sparse_rows.specs.Parts.{HasPart};
ghost use Rattle.round_program.specs.Canonical.{InRound, EndsWithin};
ghost use Rattle.least_walks.specs.Walks.{IsSource, no_negative, IsLeast, AreLeast};
ghost use Rattle.least_walks.specs.Lines.{sssp_lines};
ghost use Rattle.delta_step.specs.Deltas.{IsWidth, delta_rules};
ghost use Rattle.delta_step.specs.DeltaRuns.{delta_begins, delta_starts, DeltaEnded};

use crate::delta::Delta;
use app_sssp::{edges_of, vertices_of};
use bale_items::NoMemory;
use bale_types::{Failed, Out, Sink};
use least_walks::write_vertex;
use mtx_text::Matrix;
use round_program::Progs;
use sparse_rows::{Parts, split};
use std::alloc::Global;

/// The programs of delta-stepping on `ranks` ranks, from 1 to 64, from the vertex `source`, with
/// buckets of `delta` weights, from 1 to 10^12, in round 0 of a run of at most n (n + 2) + 2
/// rounds, n the number of vertices. The matrix is square, and no value is negative.
///
/// # Errors
///
/// `NoMemory` if there was none for the programs.
pub fn delta_start(
    alloc: Global,
    m: &Matrix,
    source: u32,
    delta: u64,
    ranks: u32,
) -> Result<Progs<Delta>, NoMemory>
    requires ranks { AreRanks ranks }
    requires weights { no_negative m.now.entries ≡ true }
    requires source { IsSource source m.now }
    requires width { IsWidth delta }
    ensures starts { IfOk result (λ ps. ps ≡ delta_starts ranks m.now source delta) }
    ensures begins { IfOk result (λ ps. InRound delta_rules ranks 0 (m.now.rows ∷ [])
        (m.now.rows * (m.now.rows + 2) + 2) ps) }
    ensures ends { IfOk result (λ ps. EndsWithin delta_rules ps (m.now.rows * (m.now.rows + 2) + 2)) }
{
    let parts = split(alloc, m, ranks)?;
    m.known();
    let mut progs = Progs::new(alloc);
    for rank in 0..ranks {
        progs.add(part_of(alloc, m, &parts, source, delta, ranks, rank)?)?;
    }
    Ok(progs)
}

/// One rank's program.
fn part_of(
    alloc: Global,
    m: &Matrix,
    parts: &Parts,
    source: u32,
    delta: u64,
    ranks: u32,
    rank: u32,
) -> Result<Delta, NoMemory>
    requires part { HasPart ranks rank m.now.entries parts.now }
    requires source { IsSource source m.now }
    requires width { IsWidth delta }
    ensures { IfOk result (λ s. s ≡ delta_begins ranks m.now source delta rank) }
{
    m.known();
    let places = (m.rows() / ranks + 1) as usize;
    let vertices = vertices_of(alloc, ranks, places, source, rank)?;
    let outgoing = edges_of(alloc, parts, ranks, rank)?;
    let rows = m.rows();
    Ok(Delta::new(alloc, rank, ranks, rows, delta, vertices, outgoing))
}

/// Writes a line for each vertex, in order: its number from 1, and the least weight of a walk to it
/// or `-`. The programs are those of `delta_start` after their run. No memory is taken.
///
/// # Errors
///
/// `Failed` if the sink's faults rose in this call.
pub fn delta_write<K: Sink>(p: &Progs<Delta>, out: &mut Out<'_, K>) -> Result<(), Failed>
    requires ended { (m : Sparse) × (source : ℕ) × DeltaEnded m source p.now }
    ensures least { (m : Sparse) (source : ℕ) → DeltaEnded m source p.now → (weights : ℕ → Option ℕ)
        × AreLeast m source weights }
    ensures written { (m : Sparse) (source : ℕ) → DeltaEnded m source p.now → (weights : ℕ → Option ℕ)
        → AreLeast m source weights → Writes K.taken K.faults (sssp_lines weights m.rows) out.old out.new result }
    ensures sink { HandsOn K.taken K.faults out.old out.new result }
{
    let rows = vertices_in(p);
    for v in 0..rows {
        write_vertex(out, v, weight_of(p, v))?;
    }
    Ok(())
}

/// How many vertices there are.
fn vertices_in(p: &Progs<Delta>) -> u32
    requires { (m : Sparse) × (source : ℕ) × DeltaEnded m source p.now }
    ensures rows { (m : Sparse) (source : ℕ) → DeltaEnded m source p.now → result ≡ m.rows }
    ensures few { result ≤ 16384 }
{
    let Some(first) = p.get(0) else {
        unreachable!()
    };
    first.rows()
}

/// The weight of a vertex, as its owner has it.
fn weight_of(p: &Progs<Delta>, v: u32) -> Option<u64>
    requires { (m : Sparse) × (source : ℕ) × DeltaEnded m source p.now × (v < m.rows) }
    ensures { (m : Sparse) (source : ℕ) → DeltaEnded m source p.now → IsLeast m.entries source v result }
{
    let ranks = p.len();
    let Some(owner) = p.get(v as usize % ranks) else {
        unreachable!()
    };
    owner.vertices().weight((v as usize / ranks) as u32)
}
