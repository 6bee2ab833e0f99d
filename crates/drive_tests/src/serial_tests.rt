//! Counts by `drive_serial`: conveyors over one to three hops and exstacks, with the ranks of a
//! sweep in both orders.
ghost use Rattle.std.specs.Prelude.{◌≡◌, ◌+◌, ◌<◌, ◌≤◌, ◌-◌, ◌∷◌, [], cond, length, IfOk};
ghost use Rattle.item_buffer.specs.Capacity.{IsCap};
ghost use Rattle.std.specs.List.{All};
ghost use Rattle.route_tensor.specs.Grid.{ranks};
ghost use Rattle.round_program.specs.Canonical.{InRound, items_at};
ghost use Rattle.round_examples.specs.Counts.{count_rules};
ghost use Rattle.rank_group.specs.Ranks.{IsOrder};
ghost use Rattle.bale_items.specs.Ledgers.{IsBlankOf};
ghost use Rattle.rank_node.specs.Fits.{FitsGrid};

use bale_items::NoMemory;
use rank_group::{Finished, Steps, Via, drive_serial};
use round_examples::Count;
use round_program::Progs;
use route_tensor::Grid;
use std::alloc::Global;
use std::marker::Brand;
use std::sync::ledger::{Blank, Ledger};
use std::test::Fail;

/// What a run tells: how often each column was named, the number of closed rounds, and the epochs
/// of the first.
type Told = ([u64; 3], usize, u64);

/// The rank at a place of an order.
fn turned(ranks: u32, reversed: bool, place: u32) -> u32
    requires { place < ranks }
    ensures { result ≡ cond reversed (ranks - 1 - place) place }
{
    if reversed { ranks - 1 - place } else { place }
}

/// The ranks from 0 on, or from the last down to 0.
pub(crate) fn order_of(alloc: Global, ranks: u32, reversed: bool) -> Result<Vec<u32>, NoMemory>
    ensures { IfOk result (λ order. IsOrder ranks order.items) }
{
    let mut order = Vec::new(alloc);
    for place in 0..ranks {
        order.push(turned(ranks, reversed, place))?;
    }
    Ok(order)
}

/// The column of entry number `i` of the four.
fn column_of(i: u32) -> u32
    ensures { result < 3 }
{
    if i == 0 { 0 } else { 2 }
}

/// The columns of a rank's entries.
fn names_of(alloc: Global, ranks: u32, rank: u32) -> Result<Vec<u32>, NoMemory>
    requires { rank < ranks }
    ensures columns { IfOk result (λ names. All (λ j. j < 3) names.items) }
    ensures all { ranks ≡ 1 → IfOk result (λ names. length names.items ≡ 4) }
{
    let mut names = Vec::new(alloc);
    for i in 0..4 {
        if i % ranks == rank {
            names.push(column_of(i))?;
        }
    }
    Ok(names)
}

/// A counting program for each rank.
fn counts_of(alloc: Global, ranks: u32) -> Result<Progs<Count>, NoMemory>
    ensures round { IfOk result (λ progs. InRound count_rules ranks 0 (3 ∷ []) 1 progs) }
    ensures items { ranks ≡ 1 → IfOk result (λ progs. items_at count_rules progs 0 ≡ 4) }
{
    let mut progs = Progs::new(alloc);
    for rank in 0..ranks {
        let names = names_of(alloc, ranks, rank)?;
        let counts = vec![in alloc; 0u64; 3]?;
        progs.add(Count::new(rank, ranks, names, counts))?;
    }
    Ok(progs)
}

/// The counts of all ranks together; a rank counts its own columns alone.
fn totals(progs: &Progs<Count>) -> [u64; 3] {
    let mut all = [0u64; 3];
    for r in 0..progs.len() {
        if let Some(prog) = progs.get(r) {
            for j in 0..3 {
                if let Some(count) = prog.counts().get(j) {
                    all[j] = all[j].wrapping_add(*count);
                }
            }
        }
    }
    all
}

/// Drives the counting programs of a grid.
fn count<const CAP: usize, const HOPS: usize, L: Ledger>(
    alloc: Global,
    grid: &Grid,
    via: Via,
    steady: bool,
    reversed: bool,
    steps: &mut Steps<L>,
) -> Result<Told, NoMemory>
    requires fits { FitsGrid CAP HOPS grid.now }
    requires one_hop { via ≡ Via.Exstack → length grid.now ≡ 1 }
    ensures few_by_conveyor { via ≡ Via.Convey → grid.now ≡ 1 ∷ [] → steps.new ≤ steps.old + 26 }
    ensures few_by_exstack { via ≡ Via.Exstack → grid.now ≡ 1 ∷ [] → steps.new ≤ steps.old + 36 }
{
    let ranks = grid.ranks();
    let progs = counts_of(alloc, ranks)?;
    let order = order_of(alloc, ranks, reversed)?;
    let finished = drive_serial::<CAP, HOPS, Count, L>(
        alloc, grid, via, 2, steady, &order, progs, steps,
    )?;
    let Finished { progs, rounds } = finished;
    let epochs = match rounds.get(0) {
        Some(round) => round.epochs(),
        None => 0,
    };
    Ok((totals(&progs), rounds.len(), epochs))
}

/// One rank: its two epochs take 26 turns at most over conveyors, and 36 over exstacks.
fn one_rank<const CAP: usize, L: Ledger>(
    alloc: Global,
    via: Via,
    reversed: bool,
    steps: &mut Steps<L>,
) -> Result<Option<Told>, NoMemory>
    requires cap { IsCap CAP }
    ensures few_by_conveyor { via ≡ Via.Convey → steps.new ≤ steps.old + 26 }
    ensures few_by_exstack { via ≡ Via.Exstack → steps.new ≤ steps.old + 36 }
{
    let Ok(grid) = Grid::new(&[1]) else {
        return Ok(None);
    };
    let told = count::<CAP, 1, L>(alloc, &grid, via, false, reversed, steps)?;
    Ok(Some(told))
}

/// Ranks of which most have no entry.
fn many_idle_ranks<L: Ledger>(
    alloc: Global,
    via: Via,
    reversed: bool,
    steps: &mut Steps<L>,
) -> Result<Option<Told>, NoMemory> {
    let Ok(grid) = Grid::new(&[64]) else {
        return Ok(None);
    };
    let told = count::<1, 1, L>(alloc, &grid, via, true, reversed, steps)?;
    Ok(Some(told))
}

/// Routes of three hops.
fn three_hops<L: Ledger>(
    alloc: Global,
    reversed: bool,
    steps: &mut Steps<L>,
) -> Result<Option<Told>, NoMemory> {
    let Ok(grid) = Grid::new(&[2, 2, 2]) else {
        return Ok(None);
    };
    let told = count::<1, 3, L>(alloc, &grid, Via::Convey, false, reversed, steps)?;
    Ok(Some(told))
}

/// All of these over conveyors, their turns counted together.
fn count_all<L: Ledger>(
    alloc: Global,
    reversed: bool,
    blank: Blank,
) -> Result<[Option<Told>; 3], NoMemory>
    requires blank { IsBlankOf L.name L.parts blank.name blank.parts }
{
    let mut steps = Steps::<L>::new(blank);
    let one = one_rank::<64, L>(alloc, Via::Convey, reversed, &mut steps)?;
    let many = many_idle_ranks(alloc, Via::Convey, reversed, &mut steps)?;
    let hops = three_hops(alloc, reversed, &mut steps)?;
    Ok([one, many, hops])
}

fn counts(alloc: Global, reversed: bool) -> Result<[Option<Told>; 3], NoMemory> {
    count_all::<Brand>(alloc, reversed, Blank::new(1))
}

/// The grids of one number over exstacks: one rank, with parcels of one entry and of 64, and many.
fn count_stacks<L: Ledger>(
    alloc: Global,
    reversed: bool,
    blank: Blank,
) -> Result<[Option<Told>; 3], NoMemory>
    requires blank { IsBlankOf L.name L.parts blank.name blank.parts }
{
    let mut steps = Steps::<L>::new(blank);
    let small = one_rank::<1, L>(alloc, Via::Exstack, reversed, &mut steps)?;
    let large = one_rank::<64, L>(alloc, Via::Exstack, reversed, &mut steps)?;
    let many = many_idle_ranks(alloc, Via::Exstack, reversed, &mut steps)?;
    Ok([small, large, many])
}

fn stacks(alloc: Global, reversed: bool) -> Result<[Option<Told>; 3], NoMemory> {
    count_stacks::<Brand>(alloc, reversed, Blank::new(1))
}

#[test]
fn counts_on_every_grid(rt: HostRuntime) -> Result<(), Fail> {
    let told = Some(([1, 0, 3], 1, 2));
    for reversed in [false, true] {
        let [one_rank, many_idle_ranks, three_hops] = counts(rt.alloc(), reversed)?;
        assert_eq!(rt; one_rank, told);
        assert_eq!(rt; many_idle_ranks, told);
        assert_eq!(rt; three_hops, told);
    }
    Ok(())
}

#[test]
fn counts_on_exstacks(rt: HostRuntime) -> Result<(), Fail> {
    let told = Some(([1, 0, 3], 1, 2));
    for reversed in [false, true] {
        let [one_rank_on_exstack, in_one_exchange, many_idle_ranks] = stacks(rt.alloc(), reversed)?;
        assert_eq!(rt; one_rank_on_exstack, told);
        assert_eq!(rt; in_one_exchange, told);
        assert_eq!(rt; many_idle_ranks, told);
    }
    Ok(())
}
