//! The programs of all ranks, made from a matrix.

ghost use Rattle.round_program.specs.Ranks.{AreRanks, IsRankOf};
ghost use Rattle.std.specs.Prelude.{◌≡◌, ◌<◌, ◌%◌, [], ◌∷◌, map, IfOk};
ghost use Rattle.round_program.specs.Canonical.{InRound, EndsWithin};
ghost use Rattle.sparse_rows.specs.Deals.{dealt};
ghost use Rattle.skeleton.specs.State.{rules};
ghost use Rattle.skeleton.specs.Starts.{send_of, begins, starts};

use crate::program::Skeleton;
use bale_items::{Item, NoMemory, Triple};
use mtx_text::Matrix;
use reductions::{Reduced, programs};
use round_program::Progs;
use std::alloc::Global;

/// The programs of `ranks` ranks, from 1 to 64.
///
/// # Errors
/// `NoMemory` if there was none for them.
pub fn start(alloc: Global, m: &Matrix, ranks: u32) -> Result<Progs<Skeleton>, NoMemory>
    requires { AreRanks ranks }
    ensures starts { IfOk result (λ ps. ps ≡ starts ranks m.now) }
    ensures begins { IfOk result (λ ps. InRound rules ranks 0 (m.now.cols ∷ []) 1 ps) }
    ensures ends { IfOk result (λ ps. EndsWithin rules ps 1) }
{
    m.known();
    programs(alloc, ranks, |rank| one(alloc, m, ranks, rank))
}

/// The program of a rank.
fn one(alloc: Global, m: &Matrix, ranks: u32, rank: u32) -> Result<Skeleton, NoMemory>
    requires { IsRankOf ranks rank }
    ensures { IfOk result (λ s. s ≡ begins ranks m.now rank) }
{
    m.known();
    let sends = sends_of(alloc, m.entries(), ranks, rank)?;
    let values = vec![in alloc; m.rows() as u64; m.cols() as usize]?;
    let cells = Reduced::new(alloc, &values)?;
    Ok(Skeleton::new(rank, ranks, sends, cells))
}

/// What a rank sends: each entry of its rows.
fn sends_of(
    alloc: Global,
    entries: &[Triple],
    ranks: u32,
    rank: u32,
) -> Result<Vec<(u32, Item)>, NoMemory>
    requires { rank < ranks }
    ensures { IfOk result (λ v. v.items ≡ map (send_of ranks) (dealt (λ t. t.i % ranks) rank entries.now)) }
{
    let mut sends = Vec::new(alloc);
    for t in entries {
        if t.i % ranks == rank {
            let item = Item {
                a: t.j as u64,
                b: t.i as u64,
                c: 0,
            };
            sends.push((t.j % ranks, item))?;
        }
    }
    Ok(sends)
}
