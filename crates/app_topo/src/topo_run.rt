//! topo's start.

ghost use Rattle.round_program.specs.Ranks.{AreRanks};
ghost use Rattle.std.specs.Prelude.{◌≡◌, ◌<◌, ◌*◌, ◌+◌, [], ◌∷◌, length, map, replicate, slice_index_or, IfOk};
ghost use Rattle.sparse_rows.specs.Parts.{HasPart};
ghost use Rattle.round_program.specs.Canonical.{InRound, EndsWithin};
ghost use Rattle.app_topo.specs.Topos.{topo_rules};
ghost use Rattle.app_topo.specs.TopoRuns.{topo_begins, topo_starts};

use crate::spans::Span;
use crate::topo::{Begins, Topo};
use bale_items::{NoMemory, Triple};
use mtx_text::Matrix;
use round_program::Progs;
use sparse_rows::{Parts, split};
use std::alloc::Global;

/// The programs of topo on `ranks` ranks, from 1 to 64, in round 0 of a run of at most `2n + 2`
/// rounds for `n` rows. The matrix is square.
///
/// # Errors
///
/// `NoMemory` if there was none for the programs.
pub fn topo_start(alloc: Global, m: &Matrix, ranks: u32) -> Result<Progs<Topo>, NoMemory>
    requires square { m.now.rows ≡ m.now.cols }
    requires ranks { AreRanks ranks }
    ensures starts { IfOk result (λ ps. ps ≡ topo_starts ranks m.now) }
    ensures begins { IfOk result (λ ps. InRound topo_rules ranks 0 (m.now.rows ∷ []) (2 * m.now.rows + 2) ps) }
    ensures ends { IfOk result (λ ps. EndsWithin topo_rules ps (2 * m.now.rows + 2)) }
{
    let parts = split(alloc, m, ranks)?;
    m.known();
    let mut progs = Progs::new(alloc);
    for rank in 0..ranks {
        progs.add(part_of(alloc, m, &parts, ranks, rank)?)?;
    }
    Ok(progs)
}

/// One rank's program.
fn part_of(
    alloc: Global,
    m: &Matrix,
    parts: &Parts,
    ranks: u32,
    rank: u32,
) -> Result<Topo, NoMemory>
    requires square { m.now.rows ≡ m.now.cols }
    requires part { HasPart ranks rank m.now.entries parts.now }
    ensures { IfOk result (λ s. s ≡ topo_begins ranks m.now rank) }
{
    m.known();
    let places = (m.rows() / ranks + 1) as usize;
    let begins = Begins {
        numbers: zeros(alloc, places)?,
        sums: zeros(alloc, places)?,
        counts: zeros(alloc, places)?,
        spans: vec![in alloc; Span { from: 0, to: 0 }; places]?,
        outgoing: entries_of(alloc, parts, rank)?,
    };
    Ok(Topo::new(alloc, rank, ranks, m.rows(), begins))
}

/// So many numbers 0.
fn zeros(alloc: Global, n: usize) -> Result<Vec<u64>, NoMemory>
    ensures { IfOk result (λ v. v.items ≡ replicate n 0) }
{
    Ok(vec![in alloc; 0u64; n]?)
}

/// The entries of a rank.
fn entries_of(alloc: Global, parts: &Parts, rank: u32) -> Result<Vec<Triple>, NoMemory>
    requires { rank < length parts.now }
    ensures { IfOk result (λ v. v.items ≡ map (λ e. e.1) (slice_index_or parts.now rank [])) }
{
    let mut entries = Vec::with_capacity(alloc, parts.len(rank))?;
    for x in 0..parts.len(rank) {
        let (_number, entry) = parts.entry(rank, x);
        entries.push(entry)?;
    }
    Ok(entries)
}
