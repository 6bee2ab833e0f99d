//! One exchange between all ranks.
ghost use Rattle.std.specs.Prelude.{◌≡◌, ◌<◌, ◌≤◌, ◌∷◌, [], length, IfOk};
ghost use Rattle.item_buffer.specs.Capacity.{IsCap};
ghost use Rattle.std.specs.List.{All};
ghost use Rattle.round_program.specs.Canonical.{InRound};
ghost use Rattle.round_examples.specs.Traffics.{traffic_rules};
ghost use Rattle.rank_node.specs.Fits.{FitsGrid};

use crate::command::{Buffer, Command};
use crate::stop_watch::{StopWatch, Timed};
use bale_items::NoMemory;
use rand_core::utils::NextWord;
use rand_pcg::Pcg32;
use rank_group::{Finished, Via, drive_threads};
use round_examples::{CELLS, Traffic};
use round_program::Progs;
use std::alloc::Global;
use std::sync::Wait;
use std::thread::Threads;
use std::time::Clock;

/// The stream of each rank's generator.
const STREAM: u64 = 54;

/// How many parcels a link has.
const SLOTS: u32 = 2;

/// What an exchange took and gave.
#[derive(Clone, Copy)]
pub(crate) struct Rate {
    pub(crate) nanoseconds: u64,
    pub(crate) epochs: u64,
    pub(crate) checksum: u64,
}

/// Exchanges the items once.
pub(crate) fn exchange<R: Threads + Wait + Clock + Sync>(
    rt: &R,
    alloc: Global,
    command: &Command,
) -> Result<Rate, NoMemory> {
    match command.buffer {
        Buffer::One => over_hops::<1, R>(rt, alloc, command),
        Buffer::Two => over_hops::<2, R>(rt, alloc, command),
        Buffer::Eight => over_hops::<8, R>(rt, alloc, command),
        Buffer::SixtyFour => over_hops::<64, R>(rt, alloc, command),
        Buffer::Most => over_hops::<1024, R>(rt, alloc, command),
    }
}

/// Exchanges the items once, over parcels of `CAP` entries.
fn over_hops<const CAP: usize, R: Threads + Wait + Clock + Sync>(
    rt: &R,
    alloc: Global,
    command: &Command,
) -> Result<Rate, NoMemory>
    requires cap { IsCap CAP }
{
    let hops = command.grid.hops();
    if hops == 1 {
        measured::<CAP, 1, R>(rt, alloc, command)
    } else if hops == 2 {
        measured::<CAP, 2, R>(rt, alloc, command)
    } else {
        measured::<CAP, 3, R>(rt, alloc, command)
    }
}

/// Exchanges the items once, over parcels of `CAP` entries and routes of `HOPS` hops.
fn measured<const CAP: usize, const HOPS: usize, R: Threads + Wait + Clock + Sync>(
    rt: &R,
    alloc: Global,
    command: &Command,
) -> Result<Rate, NoMemory>
    requires fits { FitsGrid CAP HOPS command.now.grid }
{
    let watch = StopWatch::new(rt);
    let ranks = command.grid.ranks();
    let rounds = rounds_of(ranks, command.items);
    let progs = progs_of(alloc, ranks, rounds, command.items, &watch)?;
    let finished = drive_threads::<CAP, HOPS, R, Timed<'_, R>, StopWatch<'_, R>>(
        rt,
        alloc,
        &command.grid,
        Via::Convey,
        SLOTS,
        false,
        progs,
        &watch,
    )?;
    let Finished { progs, rounds } = finished;
    let epochs = match rounds.get(0) {
        Some(round) => round.epochs(),
        None => 0,
    };
    Ok(Rate {
        nanoseconds: watch.nanoseconds(),
        epochs,
        checksum: checksum(&progs),
    })
}

/// How many rounds a run has: one, or if nothing is sent enough of them to take a while.
fn rounds_of(ranks: u32, items: u32) -> u32
    requires some { 0 < ranks }
    requires few { ranks ≤ 64 }
    ensures { 0 < result }
{
    if items == 0 {
        20_000 / (ranks * ranks) + 20
    } else {
        1
    }
}

/// The traffic of all ranks.
fn progs_of<'a, R: Clock>(
    alloc: Global,
    ranks: u32,
    rounds: u32,
    items: u32,
    watch: &'a StopWatch<'a, R>,
) -> Result<Progs<Timed<'a, R>>, NoMemory>
    ensures { IfOk result (λ progs. InRound traffic_rules ranks 0 (rounds ∷ []) rounds progs) }
{
    let mut progs = Progs::new(alloc);
    for rank in 0..ranks {
        let targets = targets_of(alloc, rank, ranks, items)?;
        let counts = vec![in alloc; 0u64; CELLS as usize]?;
        progs.add(Timed::new(Traffic::new(rank, ranks, rounds, targets, counts), watch))?;
    }
    Ok(progs)
}

/// The targets of a rank, by two words of its generator each.
fn targets_of(alloc: Global, rank: u32, ranks: u32, items: u32) -> Result<Vec<(u32, u32)>, NoMemory>
    requires { 0 < ranks }
    ensures count { IfOk result (λ targets. length targets.items ≡ items) }
    ensures aims { IfOk result (λ targets. All (λ t. (t.0 < ranks) × (t.1 < 1024)) targets.items) }
{
    let mut words = Pcg32::new(rank as u64, STREAM);
    let mut targets = Vec::with_capacity(alloc, items as usize)?;
    for _ in 0..items {
        let to = words.next_word() % ranks;
        let cell = words.next_word() % 1024;
        targets.push((to, cell))?;
    }
    Ok(targets)
}

/// The sum of what all ranks tell, modulo 2^64.
fn checksum<'a, R: Clock>(progs: &Progs<Timed<'a, R>>) -> u64 {
    let mut sum = 0u64;
    for r in 0..progs.len() {
        if let Some(prog) = progs.get(r) {
            sum = sum.wrapping_add(prog.checksum());
        }
    }
    sum
}
