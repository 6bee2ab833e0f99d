//! sssp's start, and its answer as text.

ghost use Rattle.round_program.specs.Ranks.{AreRanks};
ghost use Rattle.std.specs.Prelude.{ℕ, true, ◌==◌, if◌then◌else◌, ◌≡◌, ◌<◌, ◌≤◌, ◌+◌, ◌%◌, ◌/◌, [], ◌∷◌, length, map, replicate, slice_index_or, Option, IfOk};
ghost use Rattle.least_walks.specs.Vertices.{unreached_vertex, improved_at};
ghost use Rattle.bale_types.specs.Out.{HandsOn, Writes};
ghost use Rattle.bale_items.specs.Bits.{twos_complement};
ghost use Rattle.mtx_text.specs.Sparse.{Sparse};
ghost use Rattle.sparse_rows.specs.Parts.{HasPart};
ghost use Rattle.sparse_rows.specs.Owners.{row_owner};
ghost use Rattle.round_program.specs.Canonical.{InRound, EndsWithin};
ghost use Rattle.least_walks.specs.Walks.{IsSource, no_negative, IsLeast, AreLeast};
ghost use Rattle.least_walks.specs.Lines.{sssp_lines};
ghost use Rattle.app_sssp.specs.Sssps.{sssp_rules};
ghost use Rattle.app_sssp.specs.SsspRuns.{edge_item, sssp_begins, sssp_starts, SsspEnded};

use crate::sssp::Sssp;
use bale_items::{Item, NoMemory, Triple, bits_of};
use bale_types::{Failed, Out, Sink};
use least_walks::{Vertices, write_vertex};
use mtx_text::Matrix;
use round_program::Progs;
use sparse_rows::{Parts, split};
use std::alloc::Global;

/// The programs of sssp on `ranks` ranks, from 1 to 64, from the vertex `source`, in round 0 of a
/// run of at most as many rounds as there are vertices, and one. The matrix is square, and no value
/// is negative.
///
/// # Errors
///
/// `NoMemory` if there was none for the programs.
pub fn sssp_start(
    alloc: Global,
    m: &Matrix,
    source: u32,
    ranks: u32,
) -> Result<Progs<Sssp>, NoMemory>
    requires ranks { AreRanks ranks }
    requires weights { no_negative m.now.entries ≡ true }
    requires source { IsSource source m.now }
    ensures starts { IfOk result (λ ps. ps ≡ sssp_starts ranks m.now source) }
    ensures begins { IfOk result (λ ps. InRound sssp_rules ranks 0 (m.now.rows ∷ []) (m.now.rows + 1) ps) }
    ensures ends { IfOk result (λ ps. EndsWithin sssp_rules ps (m.now.rows + 1)) }
{
    let parts = split(alloc, m, ranks)?;
    m.known();
    let mut progs = Progs::new(alloc);
    for rank in 0..ranks {
        progs.add(part_of(alloc, m, &parts, source, ranks, rank)?)?;
    }
    Ok(progs)
}

/// One rank's program.
fn part_of(
    alloc: Global,
    m: &Matrix,
    parts: &Parts,
    source: u32,
    ranks: u32,
    rank: u32,
) -> Result<Sssp, NoMemory>
    requires part { HasPart ranks rank m.now.entries parts.now }
    requires source { IsSource source m.now }
    ensures { IfOk result (λ s. s ≡ sssp_begins ranks m.now source rank) }
{
    m.known();
    let places = (m.rows() / ranks + 1) as usize;
    let vertices = vertices_of(alloc, ranks, places, source, rank)?;
    let outgoing = edges_of(alloc, parts, ranks, rank)?;
    Ok(Sssp::new(alloc, rank, ranks, m.rows(), vertices, outgoing))
}

/// The vertices of a rank at the start, at so many places: the source is improved, if it is an
/// own one.
///
/// # Errors
///
/// `NoMemory` if there was none.
pub fn vertices_of(
    alloc: Global,
    ranks: u32,
    places: usize,
    source: u32,
    rank: u32,
) -> Result<Vertices, NoMemory>
    requires some { 0 < ranks }
    requires place { source / ranks < places }
    ensures { IfOk result (λ s. s ≡ (if source % ranks == rank then improved_at (source / ranks) 0
        (replicate places unreached_vertex) else replicate places unreached_vertex)) }
{
    let mut vertices = Vertices::new(alloc, places)?;
    if source % ranks == rank {
        vertices.improve(source / ranks, 0)?;
    }
    Ok(vertices)
}

/// A rank's entries, for the owners of their rows.
///
/// # Errors
///
/// `NoMemory` if there was none.
pub fn edges_of(
    alloc: Global,
    parts: &Parts,
    ranks: u32,
    rank: u32,
) -> Result<Vec<(u32, Item)>, NoMemory>
    requires some { 0 < ranks }
    requires rank { rank < length parts.now }
    ensures { IfOk result (λ v. v.items ≡ map (λ e. (row_owner ranks e, edge_item e))
        (slice_index_or parts.now rank [])) }
{
    let mut edges = Vec::with_capacity(alloc, parts.len(rank))?;
    for x in 0..parts.len(rank) {
        let (_number, entry) = parts.entry(rank, x);
        // There is room for all. Told so, the push needs no way to grow.
        if edges.len() == edges.capacity() {
            return Err(NoMemory);
        }
        edges.push((entry.i % ranks, edge_sent(entry)))?;
    }
    Ok(edges)
}

/// An entry, for the owner of its row.
fn edge_sent(entry: Triple) -> Item
    ensures { result ≡ record { a = entry.i; b = entry.j; c = twos_complement entry.v } }
{
    Item {
        a: entry.i as u64,
        b: entry.j as u64,
        c: bits_of(entry.v),
    }
}

/// Writes a line for each vertex, in order: its number from 1, and the least weight of a walk to it
/// or `-`. The programs are those of `sssp_start` after their run. No memory is taken.
///
/// # Errors
///
/// `Failed` if the sink's faults rose in this call.
pub fn sssp_write<K: Sink>(p: &Progs<Sssp>, out: &mut Out<'_, K>) -> Result<(), Failed>
    requires ended { (m : Sparse) × (source : ℕ) × SsspEnded m source p.now }
    ensures least { (m : Sparse) (source : ℕ) → SsspEnded m source p.now → (weights : ℕ → Option ℕ)
        × AreLeast m source weights }
    ensures written { (m : Sparse) (source : ℕ) → SsspEnded m source p.now → (weights : ℕ → Option ℕ)
        → AreLeast m source weights → Writes K.taken K.faults (sssp_lines weights m.rows) out.old out.new result }
    ensures sink { HandsOn K.taken K.faults out.old out.new result }
{
    let rows = vertices_in(p);
    for v in 0..rows {
        write_vertex(out, v, weight_of(p, v))?;
    }
    Ok(())
}

/// How many vertices there are.
fn vertices_in(p: &Progs<Sssp>) -> u32
    requires { (m : Sparse) × (source : ℕ) × SsspEnded m source p.now }
    ensures rows { (m : Sparse) (source : ℕ) → SsspEnded m source p.now → result ≡ m.rows }
    ensures few { result ≤ 16384 }
{
    let Some(first) = p.get(0) else {
        unreachable!()
    };
    first.rows()
}

/// The weight of a vertex, as its owner has it.
fn weight_of(p: &Progs<Sssp>, v: u32) -> Option<u64>
    requires { (m : Sparse) × (source : ℕ) × SsspEnded m source p.now × (v < m.rows) }
    ensures { (m : Sparse) (source : ℕ) → SsspEnded m source p.now → IsLeast m.entries source v result }
{
    let ranks = p.len();
    let Some(owner) = p.get(v as usize % ranks) else {
        unreachable!()
    };
    owner.vertices().weight((v as usize / ranks) as u32)
}
