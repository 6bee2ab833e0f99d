//! The ranks of a drive, as it begins and ends.
ghost use Rattle.std.specs.Prelude.{◌≡◌, ℕ, ◌<◌, List, length, IfOk};
ghost use Rattle.route_tensor.specs.Grid.{ranks};
ghost use Rattle.round_program.specs.Canonical.{InRound};
ghost use Rattle.rank_node.specs.Movers.{manner_of};
ghost use Rattle.rank_group.specs.Drives.{progs_of, AreFresh};
ghost use Rattle.rank_node.specs.Fits.{FitsGrid};

use crate::list_parts::one_by_one;
use crate::sweep::Rank;
use bale_items::NoMemory;
use rank_node::{Node, Via};
use round_program::{Program, Progs};
use route_tensor::Grid;
use std::alloc::Global;

/// A rank for each program, that hasn't turned.
pub(crate) fn ranks_of<const CAP: usize, const HOPS: usize, Q: Program>(
    alloc: Global,
    grid: &Grid,
    via: Via,
    steady: bool,
    progs: Progs<Q>,
) -> Result<Vec<Rank<Q, CAP, HOPS>>, NoMemory>
    requires fits { FitsGrid CAP HOPS grid.now }
    requires one_hop { via ≡ Via.Exstack → length grid.now ≡ 1 }
    requires begins { (shape : List ℕ) × (most : ℕ) × InRound Q.rules (ranks grid.now) 0 shape most progs }
    ensures fresh { IfOk result (λ all. AreFresh Q.rules grid.now CAP (manner_of via steady) progs all.items) }
{
    let mut progs = progs;
    let Ok(mut all) = Vec::with_capacity(alloc, progs.len()) else {
        return Err(NoMemory);
    };
    while let Some(prog) = progs.take_first() {
        let node = Node::new(alloc, grid, via, prog, steady)?;
        all.push_reserved(Rank { node, over: false });
    }
    Ok(all)
}

/// The programs of the ranks, in order.
pub(crate) fn take_progs<const CAP: usize, const HOPS: usize, Q: Program>(
    alloc: Global,
    all: Vec<Rank<Q, CAP, HOPS>>,
) -> Result<Progs<Q>, NoMemory>
    ensures progs { IfOk result (λ ps. ps ≡ progs_of all.items) }
{
    let mut progs = Progs::new(alloc);
    let Ok(all) = one_by_one(alloc, all) else {
        return Err(NoMemory);
    };
    for rank in all {
        let Rank { node, over: _ } = rank;
        progs.add(node.into_prog())?;
    }
    Ok(progs)
}
