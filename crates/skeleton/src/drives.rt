//! From a matrix to the answer: the programs, driven on one thread or on several, and the cells of
//! their owners.

ghost use Rattle.round_program.specs.Ranks.{AreRanks};
ghost use Rattle.std.specs.Prelude.{◌≡◌, length, IfOk};
ghost use Rattle.route_tensor.specs.Grid.{ranks};
ghost use Rattle.round_program.specs.Canonical.{HaveEnded};
ghost use Rattle.skeleton.specs.State.{rules};
ghost use Rattle.skeleton.specs.Starts.{starts};
ghost use Rattle.skeleton.specs.Found.{IsFound};

use crate::program::Skeleton;
use crate::starting::start;
use bale_items::NoMemory;
use mtx_text::Matrix;
use rank_group::{Settings, drive_in_turn, drive_on_threads};
use reductions::owned;
use round_program::Progs;
use route_tensor::Grid;
use std::alloc::Global;
use std::sync::Wait;
use std::thread::Threads;

/// The answer by column, found by the ranks of a grid of one number, which one thread turns.
///
/// # Errors
/// `NoMemory` if there was none.
#[tactic(auto, using(crate::proofs::Starts::some_ranks))]
pub fn skeleton_serial(alloc: Global, m: &Matrix, grid: &Grid) -> Result<Vec<u64>, NoMemory>
    requires one_hop { length grid.now ≡ 1 }
    ensures { IfOk result (λ v. IsFound (ranks grid.now) m.now v.items) }
{
    let ranks = grid.ranks();
    let progs = start(alloc, m, ranks)?;
    let finished = drive_in_turn::<64, 1, Skeleton>(alloc, grid, Settings::new(), progs)?;
    found(alloc, m, ranks, &finished.progs)
}

/// The answer by column, found by the ranks of a grid of one number, which are on threads.
///
/// # Errors
/// `NoMemory` if there was none.
#[tactic(auto, using(crate::proofs::Starts::some_ranks))]
pub fn skeleton_threads<R: Threads + Wait + Sync>(
    rt: &R,
    alloc: Global,
    m: &Matrix,
    grid: &Grid,
) -> Result<Vec<u64>, NoMemory>
    requires one_hop { length grid.now ≡ 1 }
    ensures { IfOk result (λ v. IsFound (ranks grid.now) m.now v.items) }
{
    let ranks = grid.ranks();
    let progs = start(alloc, m, ranks)?;
    let finished = drive_on_threads::<64, 1, R, Skeleton>(rt, alloc, grid, Settings::new(), progs)?;
    found(alloc, m, ranks, &finished.progs)
}

/// The cell of each column at its owner, if the programs have run to their end.
fn found(
    alloc: Global,
    m: &Matrix,
    ranks: u32,
    progs: &Progs<Skeleton>,
) -> Result<Vec<u64>, NoMemory>
    requires ranks { AreRanks ranks }
    requires ended { HaveEnded rules (starts ranks m.now) progs.now }
    ensures { IfOk result (λ v. IsFound ranks m.now v.items) }
{
    m.known();
    owned(alloc, progs, m.cols() as usize)
}
