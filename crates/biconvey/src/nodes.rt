//! The ranks of an exchange, as it begins and ends.

ghost use Rattle.std.specs.Prelude.{◌≡◌, ◌<◌, IfOk};
ghost use Rattle.route_tensor.specs.Grid.{ranks};
ghost use Rattle.biconvey.specs.Drives.{AreAskers, AreFreshBiRanks, askers_of};
ghost use Rattle.rank_node.specs.Fits.{FitsGrid};

use bale_items::NoMemory;
use query_node::BiNode;
use rank_group::one_by_one;
use round_program::{Asker, Progs};
use route_tensor::Grid;
use std::alloc::Global;

/// A rank for each asker, that hasn't turned.
pub(crate) fn nodes_of<const CAP: usize, const HOPS: usize, A: Asker>(
    alloc: Global,
    grid: &Grid,
    steady: bool,
    askers: Progs<A>,
) -> Result<Vec<BiNode<A, CAP, HOPS>>, NoMemory>
    requires fits { FitsGrid CAP HOPS grid.now }
    requires askers { AreAskers A.talk (ranks grid.now) askers }
    ensures { IfOk result (λ all. AreFreshBiRanks A.talk grid.now steady askers all.items) }
{
    let mut askers = askers;
    let Ok(mut all) = Vec::with_capacity(alloc, askers.len()) else {
        return Err(NoMemory);
    };
    while let Some(asker) = askers.take_first() {
        let node = BiNode::new(alloc, grid, asker, steady)?;
        all.push_reserved(node);
    }
    Ok(all)
}

/// The askers of the ranks, in order.
pub(crate) fn take_askers<const CAP: usize, const HOPS: usize, A: Asker>(
    alloc: Global,
    all: Vec<BiNode<A, CAP, HOPS>>,
) -> Result<Progs<A>, NoMemory>
    ensures { IfOk result (λ askers. askers ≡ askers_of all.items) }
{
    let mut askers = Progs::new(alloc);
    let Ok(all) = one_by_one(alloc, all) else {
        return Err(NoMemory);
    };
    for node in all {
        askers.add(node.into_asker())?;
    }
    Ok(askers)
}
