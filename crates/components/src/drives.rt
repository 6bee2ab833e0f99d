//! From a matrix to the labels of its vertices: the programs, driven on one thread or on several.

ghost use Rattle.round_program.specs.Ranks.{AreRanks};
ghost use Rattle.std.specs.Prelude.{◌≡◌, length, IfOk};
ghost use Rattle.round_program.specs.Canonical.{HaveEnded};
ghost use Rattle.components.specs.Connected.{AreComponents};
ghost use Rattle.components.specs.LabelRules.{label_rules};
ghost use Rattle.components.specs.Starts.{label_starts};

use crate::labels::Labels;
use crate::starting::start;
use bale_items::NoMemory;
use mtx_text::Matrix;
use rank_group::{Settings, drive_in_turn, drive_on_threads};
use reductions::owned;
use round_program::Progs;
use route_tensor::Grid;
use std::alloc::Global;
use std::sync::Wait;
use std::thread::Threads;

/// The label of each vertex, found by the ranks of a grid of one number, which one thread turns.
///
/// # Errors
/// `NoMemory` if there was none.
#[tactic(auto, using(crate::proofs::Ranks::some_ranks))]
pub fn components_serial(alloc: Global, m: &Matrix, grid: &Grid) -> Result<Vec<u64>, NoMemory>
    requires square { m.now.cols ≡ m.now.rows }
    requires one_hop { length grid.now ≡ 1 }
    ensures { IfOk result (λ v. AreComponents m.now v.items) }
{
    let ranks = grid.ranks();
    let progs = start(alloc, m, ranks)?;
    let finished = drive_in_turn::<64, 1, Labels>(alloc, grid, Settings::new(), progs)?;
    labels_of(alloc, m, ranks, &finished.progs)
}

/// The label of each vertex, found by the ranks of a grid of one number, which are on threads.
///
/// # Errors
/// `NoMemory` if there was none.
#[tactic(auto, using(crate::proofs::Ranks::some_ranks))]
pub fn components_threads<R: Threads + Wait + Sync>(
    rt: &R,
    alloc: Global,
    m: &Matrix,
    grid: &Grid,
) -> Result<Vec<u64>, NoMemory>
    requires square { m.now.cols ≡ m.now.rows }
    requires one_hop { length grid.now ≡ 1 }
    ensures { IfOk result (λ v. AreComponents m.now v.items) }
{
    let ranks = grid.ranks();
    let progs = start(alloc, m, ranks)?;
    let finished = drive_on_threads::<64, 1, R, Labels>(rt, alloc, grid, Settings::new(), progs)?;
    labels_of(alloc, m, ranks, &finished.progs)
}

/// The label of each vertex, if the programs have run to their end.
fn labels_of(
    alloc: Global,
    m: &Matrix,
    ranks: u32,
    progs: &Progs<Labels>,
) -> Result<Vec<u64>, NoMemory>
    requires ranks { AreRanks ranks }
    requires square { m.now.cols ≡ m.now.rows }
    requires ended { HaveEnded label_rules (label_starts ranks m.now) progs.now }
    ensures { IfOk result (λ v. AreComponents m.now v.items) }
{
    m.known();
    owned(alloc, progs, m.rows() as usize)
}
