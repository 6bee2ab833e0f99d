//! Counting programs that note how a drive turns them.
ghost use Rattle.std.specs.Prelude.{◌≡◌, ◌<◌, ◌∷◌, [], length, IfOk};
ghost use Rattle.std.specs.List.{All};
ghost use Rattle.round_program.specs.Canonical.{InRound};
ghost use Rattle.round_examples.specs.Counts.{count_rules};

use bale_items::{Item, NoMemory};
use rank_group::{Finished, Gate, ThreadLimit, Via, Workers, drive_threads, drive_with};
use round_examples::Count;
use round_program::{Program, Progs};
use route_tensor::Grid;
use std::alloc::Global;
use std::marker::Model;
use std::sync::Wait;
use std::sync::atomic::{AtomicBool, AtomicU64, Ordering};
use std::thread;
use std::thread::Threads;

/// How often a hold looks before it gives up.
const TRIES: u64 = 1_000_000_000;

/// A log of six digits is full.
const LOGGED: u64 = 0x10_0000;

/// What the ranks and the gate of a test tell each other.
#[derive(Drop)]
pub(crate) struct Watch {
    /// Rank 1's turn 1 was announced.
    pub(crate) announced: AtomicBool,
    /// The gate let rank 0's turn 0 go.
    pub(crate) let_go: AtomicBool,
    /// Rank 1 absorbed.
    pub(crate) absorbed: AtomicBool,
    /// Rank 0, and rank 1, was asked for an emission.
    zero_asked: AtomicBool,
    one_asked: AtomicBool,
    /// Something was not as it should be.
    pub(crate) noted: AtomicBool,
    /// Which ranks were turned, one after the other on one thread: each hexadecimal digit is one
    /// more than a rank.
    turns: AtomicU64,
}

impl Watch {
    pub(crate) fn new() -> Watch {
        Watch {
            announced: AtomicBool::new(false),
            let_go: AtomicBool::new(false),
            absorbed: AtomicBool::new(false),
            zero_asked: AtomicBool::new(false),
            one_asked: AtomicBool::new(false),
            noted: AtomicBool::new(false),
            turns: AtomicU64::new(0),
        }
    }

    /// Logs that a rank is turned, if another was before it, for the first few turns.
    fn log(&self, rank: u32) {
        let turns = self.turns.load(Ordering::SeqCst);
        let digit = u64::from(rank).saturating_add(1);
        if turns < LOGGED && turns % 16 != digit {
            self.turns.store(turns * 16 + digit, Ordering::SeqCst);
        }
    }

    /// The log.
    pub(crate) fn turns(&self) -> u64 {
        self.turns.load(Ordering::SeqCst)
    }

    /// Waits for a flag; notes if it gives up.
    pub(crate) fn hold(&self, flag: &AtomicBool) {
        for _ in 0..TRIES {
            if flag.load(Ordering::SeqCst) {
                return;
            }
            thread::yield_now();
        }
        self.noted.store(true, Ordering::SeqCst);
    }

    /// Raises the flag of a rank, and at the first time waits for that of the other.
    fn look(&self, rank: u32) {
        let (own, other) = if rank == 0 {
            (&self.zero_asked, &self.one_asked)
        } else {
            (&self.one_asked, &self.zero_asked)
        };
        if !own.swap(true, Ordering::SeqCst) {
            self.hold(other);
        }
    }

    /// Notes an absorb before the gate let rank 0's turn 0 go.
    fn absorb(&self) {
        if !self.let_go.load(Ordering::SeqCst) {
            self.noted.store(true, Ordering::SeqCst);
        }
        self.absorbed.store(true, Ordering::SeqCst);
    }
}

/// What a program does besides its counting.
#[derive(Clone, Copy, PartialEq, Eq, Debug)]
pub(crate) enum Deed {
    Counts,
    /// Notes an absorb that comes too early.
    Absorbs,
    /// Looks for the other rank if it is first asked for an emission.
    Looks,
    /// Rank 2 refuses each absorb.
    Refuses,
    /// Logs each turn.
    Logs,
}

/// A counting program that is watched.
#[derive(Drop)]
pub(crate) struct Watched<'a> {
    inner: Count,
    watch: &'a Watch,
    deed: Deed,
}

impl<'a> Model for Watched<'a> {
    ghost use Rattle.round_examples.specs.Counts.{CountState};

    ghost Value = { CountState };

    ghost view = { λ w. w.inner };
}

impl<'a> Watched<'a> {
    fn new(inner: Count, watch: &'a Watch, deed: Deed) -> Self
        ensures { result ≡ inner }
    {
        Watched { inner, watch, deed }
    }
}

impl<'a> Program for Watched<'a> {
    ghost use Rattle.round_examples.specs.Counts.{count_rules};
    ghost use Rattle.round_examples.specs.laws.CountLaws.{count_laws};

    ghost rules = { count_rules };

    ghost laws = { count_laws };

    fn rank(&self) -> u32 {
        self.inner.rank()
    }

    fn ranks(&self) -> u32 {
        self.inner.ranks()
    }

    fn round(&self) -> u64 {
        self.inner.round()
    }

    fn count(&self) -> u64 {
        if self.deed == Deed::Logs {
            self.watch.log(self.inner.rank());
        }
        self.inner.count()
    }

    fn emission(&self, i: u64) -> (u32, Item) {
        if self.deed == Deed::Looks {
            self.watch.look(self.inner.rank());
        }
        self.inner.emission(i)
    }

    fn fits(&self, from: u32, item: Item) -> bool {
        self.inner.fits(from, item)
    }

    fn absorb(&mut self, from: u32, item: Item) -> Result<(), NoMemory> {
        if self.deed == Deed::Refuses && self.inner.rank() == 2 {
            return Err(NoMemory);
        }
        if self.deed == Deed::Absorbs {
            self.watch.absorb();
        }
        self.inner.absorb(from, item)
    }

    fn vote(&self) -> u64 {
        self.inner.vote()
    }

    fn goes_on(&self, votes: u64) -> bool {
        self.inner.goes_on(votes)
    }

    fn end_round(&mut self, votes: u64) -> Result<bool, NoMemory> {
        self.inner.end_round(votes)
    }
}

/// The columns of a list that are there.
fn names_of(alloc: Global, columns: u32, list: &[u32]) -> Result<Vec<u32>, NoMemory>
    ensures { IfOk result (λ names. All (λ j. j < columns) names.items) }
{
    let mut names = Vec::new(alloc);
    for name in list {
        if *name < columns {
            names.push(*name)?;
        }
    }
    Ok(names)
}

/// A watched program for each of so many ranks, each of which sends to the ranks that its list
/// names.
pub(crate) fn progs_of<'a>(
    alloc: Global,
    ranks: u32,
    lists: &[&[u32]],
    watch: &'a Watch,
    deed: Deed,
) -> Result<Progs<Watched<'a>>, NoMemory>
    ensures { IfOk result (λ progs. InRound count_rules ranks 0 (ranks ∷ []) 1 progs) }
{
    let mut progs = Progs::new(alloc);
    for rank in 0..ranks {
        let list: &[u32] = match lists.get(rank as usize) {
            Some(list) => list,
            None => &[],
        };
        let names = names_of(alloc, ranks, list)?;
        let counts = vec![in alloc; 0u64; ranks as usize]?;
        progs.add(Watched::new(Count::new(rank, ranks, names, counts), watch, deed))?;
    }
    Ok(progs)
}

/// Who turns the ranks of a drive.
#[derive(Clone, Copy, PartialEq, Eq, Debug)]
pub(crate) enum Hands {
    /// Threads, as many as `drive_threads` finds right.
    Threads,
    /// So many workers, of which the first few have a thread each: (workers, threads).
    Workers(usize, usize),
}

/// Drives watched programs over parcels of one entry.
fn run_watched<'a, R: Threads + Wait + Sync, G: Gate + Sync>(
    rt: &R,
    alloc: Global,
    grid: &Grid,
    lists: &[&[u32]],
    watch: &'a Watch,
    deed: Deed,
    gate: &G,
    hands: Hands,
    via: Via,
) -> Result<Finished<Watched<'a>>, NoMemory>
    requires hops { length grid.now ≡ 1 }
{
    let progs = progs_of(alloc, grid.ranks(), lists, watch, deed)?;
    match hands {
        Hands::Threads => {
            drive_threads::<1, 1, R, Watched<'a>, G>(rt, alloc, grid, via, 2, false, progs, gate)
        }
        Hands::Workers(workers, threads) => drive_with::<1, 1, R, Watched<'a>, G>(
            rt,
            alloc,
            grid,
            via,
            2,
            false,
            progs,
            gate,
            Workers { number: workers },
            ThreadLimit { number: threads },
        ),
    }
}

/// How often a column was named.
fn count_of(progs: &Progs<Watched<'_>>, column: usize) -> u64 {
    let mut all = 0u64;
    for r in 0..progs.len() {
        if let Some(prog) = progs.get(r) {
            if let Some(count) = prog.inner.counts().get(column) {
                all = all.wrapping_add(*count);
            }
        }
    }
    all
}

/// Whether each column was named so often.
fn are_counted(progs: &Progs<Watched<'_>>, wanted: &[u64]) -> bool {
    for (column, count) in wanted.iter().enumerate() {
        if count_of(progs, column) != *count {
            return false;
        }
    }
    true
}

/// Whether each column was named as often as wanted, in two epochs, on a grid of one number with a
/// rank for each list.
pub(crate) fn is_counted<R: Threads + Wait + Sync, G: Gate + Sync>(
    rt: &R,
    alloc: Global,
    lists: &[&[u32]],
    watch: &Watch,
    deed: Deed,
    gate: &G,
    hands: Hands,
    via: Via,
    wanted: &[u64],
) -> Result<bool, NoMemory> {
    let Ok(ranks) = u32::try_from(lists.len()) else {
        return Ok(false);
    };
    let Ok(grid) = Grid::new(&[ranks]) else {
        return Ok(false);
    };
    let Finished { progs, rounds } = run_watched(
        rt, alloc, &grid, lists, watch, deed, gate, hands, via,
    )?;
    let epochs = match rounds.get(0) {
        Some(round) => round.epochs(),
        None => 0,
    };
    Ok(epochs == 2 && are_counted(&progs, wanted))
}
