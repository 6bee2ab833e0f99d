//! Askers by hand, and on three hops.

ghost use Rattle.std.specs.Prelude.{◌<◌, ◌^◌, IfOk};
ghost use Rattle.std.specs.List.{All};
ghost use Rattle.drive_tests.specs.Adders.{adder_talk};
ghost use Rattle.biconvey.specs.Drives.{AreAskers};
ghost use Rattle.bale_items.specs.Ledgers.{IsBlankOf};
ghost use Rattle.rank_node.specs.Fits.{FitsGrid};

use crate::adder::Adder;
use crate::serial_tests::order_of;
use bale_items::NoMemory;
use biconvey::{Steps, bi_serial, drive_both};
use rank_group::Finished;
use round_program::Progs;
use route_tensor::Grid;
use std::alloc::Global;
use std::marker::Brand;
use std::sync::ledger::{Blank, Ledger};
use std::test::Fail;

/// The rank after a rank; 0 comes after the last.
fn next_of(rank: u32, ranks: u32) -> u32
    requires { rank < ranks }
    ensures { result < ranks }
{
    if rank + 1 < ranks { rank + 1 } else { 0 }
}

/// The questions 5, 6 and 7 to the next rank, of the first `asking` ranks.
fn queries_of(
    alloc: Global,
    rank: u32,
    ranks: u32,
    asking: u32,
) -> Result<Vec<(u32, u64)>, NoMemory>
    requires { rank < ranks }
    ensures { IfOk result (λ qs. All (λ q. (q.0 < ranks) × (q.1 < 2 ^ 64)) qs.items) }
{
    let next = next_of(rank, ranks);
    let mut queries = Vec::new(alloc);
    if rank < asking {
        for question in 5..8 {
            queries.push((next, question))?;
        }
    }
    Ok(queries)
}

/// An asker for each rank.
pub(crate) fn adders_of(alloc: Global, ranks: u32, asking: u32) -> Result<Progs<Adder>, NoMemory>
    ensures { IfOk result (λ askers. AreAskers adder_talk ranks askers) }
{
    let mut askers = Progs::new(alloc);
    for rank in 0..ranks {
        let queries = queries_of(alloc, rank, ranks, asking)?;
        let heard = vec![in alloc; 0u64; queries.len()]?;
        askers.add(Adder::new(rank, ranks, queries, heard))?;
    }
    Ok(askers)
}

/// How many ranks have heard 6, 7 and 8 as the replies number 0, 1 and 2.
pub(crate) fn have_heard(askers: &Progs<Adder>) -> usize {
    let mut count = 0usize;
    for r in 0..askers.len() {
        if let Some(asker) = askers.get(r) {
            if asker.heard() == [6u64, 7, 8].as_slice() {
                count = count.wrapping_add(1);
            }
        }
    }
    count
}

/// What an exchange tells: how many ranks have heard, and the number of closed rounds.
pub(crate) type Told = (usize, usize);

/// All ranks ask, by a drive of one capacity.
fn ask<const CAP: usize, const HOPS: usize, L: Ledger>(
    alloc: Global,
    grid: &Grid,
    steady: bool,
    steps: &mut Steps<L>,
) -> Result<Told, NoMemory>
    requires fits { FitsGrid CAP HOPS grid.now }
{
    let ranks = grid.ranks();
    let askers = adders_of(alloc, ranks, ranks)?;
    let order = order_of(alloc, ranks, false)?;
    let Finished { progs, rounds } = drive_both::<CAP, HOPS, Adder, L>(
        alloc, grid, 1, steady, &order, askers, steps,
    )?;
    Ok((have_heard(&progs), rounds.len()))
}

/// Rank 0 asks rank 1.
fn by_hand<L: Ledger>(alloc: Global, blank: Blank) -> Result<Option<Told>, NoMemory>
    requires blank { IsBlankOf L.name L.parts blank.name blank.parts }
{
    let mut steps = Steps::<L>::new(blank);
    let Ok(grid) = Grid::new(&[2]) else {
        return Ok(None);
    };
    let askers = adders_of(alloc, grid.ranks(), 1)?;
    let order = order_of(alloc, grid.ranks(), false)?;
    let Finished { progs, rounds } = bi_serial(
        alloc, &grid, 1, 1, false, &order, askers, &mut steps,
    )?;
    Ok(Some((have_heard(&progs), rounds.len())))
}

/// All ranks ask, on a grid of three hops.
fn on_three_hops<L: Ledger>(alloc: Global, blank: Blank) -> Result<Option<Told>, NoMemory>
    requires blank { IsBlankOf L.name L.parts blank.name blank.parts }
{
    let mut steps = Steps::<L>::new(blank);
    let Ok(grid) = Grid::new(&[2, 2, 2]) else {
        return Ok(None);
    };
    Ok(Some(ask::<1, 3, L>(alloc, &grid, true, &mut steps)?))
}

fn told_by_hand(alloc: Global) -> Result<Option<Told>, NoMemory> {
    by_hand::<Brand>(alloc, Blank::new(1))
}

fn told_on_three_hops(alloc: Global) -> Result<Option<Told>, NoMemory> {
    on_three_hops::<Brand>(alloc, Blank::new(1))
}

#[test]
fn askers_by_hand(rt: HostRuntime) -> Result<(), Fail> {
    let told = told_by_hand(rt.alloc())?;
    assert_eq!(rt; told, Some((1, 2)));
    Ok(())
}

#[test]
fn askers_on_three_hops(rt: HostRuntime) -> Result<(), Fail> {
    assert_eq!(rt; told_on_three_hops(rt.alloc())?, Some((8, 2)));
    Ok(())
}
