//! The gate of all runs here. For each run that had a gate of another type, the ranks' threads
//! would be compiled anew.
use crate::watched::Watch;
use bale_items::NoMemory;
use rank_group::Gate;
use std::alloc::Global;
use std::sync::atomic::{AtomicBool, AtomicU64, Ordering};
use std::thread;

/// What a test has the gate do.
#[derive(Drop)]
pub(crate) enum TestGate<'a> {
    /// Holds no rank.
    Open,
    /// Holds turn 0 of this one of two ranks until turn 0 of the other was announced.
    Held(&'a Watch, u32),
    /// Holds rank 0's turn 0 until rank 1's turn 1 was announced, and its turn 1 until rank 1
    /// absorbed.
    Holds(&'a Watch),
    /// Holds no rank, and counts the turns.
    Counts(Numbers),
    /// Holds no rank, counts the turns, and notes if two ranks of one of two workers don't have
    /// their first turns in alternation.
    Alternates(Numbers),
    /// Counts the turns, gives other threads time at each, and notes if one of them notifies it
    /// meanwhile.
    Alone(Numbers),
}

impl<'a> TestGate<'a> {
    /// One that counts the turns of so many ranks.
    pub(crate) fn counts(alloc: Global, ranks: u32) -> Result<Self, NoMemory> {
        Ok(TestGate::Counts(Numbers::new(alloc, ranks)?))
    }

    /// One of four ranks and two workers that expects the ranks of a worker in alternation.
    pub(crate) fn alternates(alloc: Global) -> Result<Self, NoMemory> {
        Ok(TestGate::Alternates(Numbers::new(alloc, 4)?))
    }

    /// One that expects so many ranks on one thread.
    pub(crate) fn alone(alloc: Global, ranks: u32) -> Result<Self, NoMemory> {
        Ok(TestGate::Alone(Numbers::new(alloc, ranks)?))
    }

    /// Whether it counted so many turns of each rank at least, and none out of the order that it
    /// expects.
    pub(crate) fn has_counted(&self, least: u64) -> bool {
        match self {
            TestGate::Counts(numbers) | TestGate::Alternates(numbers) | TestGate::Alone(numbers) =>
                { numbers.are_in_order(least) }
            _ => false,
        }
    }
}

impl<'a> Gate for TestGate<'a> {
    fn turn(&self, rank: u32, n: u64) {
        match self {
            TestGate::Open => {}
            TestGate::Held(watch, held) => hold_one(watch, *held, rank, n),
            TestGate::Holds(watch) => hold_rank_0(watch, rank, n),
            TestGate::Counts(numbers) => numbers.note(rank, n),
            TestGate::Alternates(numbers) => {
                numbers.expect_alternation(rank, n);
                numbers.note(rank, n);
            }
            TestGate::Alone(numbers) => {
                numbers.note(rank, n);
                numbers.expect_no_other();
            }
        }
    }
}

fn hold_one(watch: &Watch, held: u32, rank: u32, n: u64) {
    if n != 0 {
        return;
    }
    if rank == held {
        watch.hold(&watch.announced);
        watch.let_go.store(true, Ordering::SeqCst);
    } else {
        watch.announced.store(true, Ordering::SeqCst);
    }
}

fn hold_rank_0(watch: &Watch, rank: u32, n: u64) {
    match (rank, n) {
        (1, 1) => watch.announced.store(true, Ordering::SeqCst),
        (0, 0) => {
            watch.hold(&watch.announced);
            watch.let_go.store(true, Ordering::SeqCst);
        }
        (0, 1) => watch.hold(&watch.absorbed),
        _ => {}
    }
}

/// How often a gate yields to see whether other threads notify it.
const LOOKS: u64 = 100;

/// Counts the turns of each rank, and notes one that isn't the next.
#[derive(Drop)]
pub(crate) struct Numbers {
    told: Vec<AtomicU64>,
    skipped: AtomicBool,
}

impl Numbers {
    fn new(alloc: Global, ranks: u32) -> Result<Numbers, NoMemory> {
        let mut told = Vec::new(alloc);
        for _ in 0..ranks {
            told.push(AtomicU64::new(0))?;
        }
        Ok(Numbers {
            told,
            skipped: AtomicBool::new(false),
        })
    }

    fn note(&self, rank: u32, n: u64) {
        if let Some(told) = self.told.get(rank as usize) {
            if told.fetch_add(1, Ordering::SeqCst) == n {
                return;
            }
        }
        self.skipped.store(true, Ordering::SeqCst);
    }

    /// The turns of a rank so far.
    fn of(&self, rank: u32) -> u64 {
        match self.told.get(rank as usize) {
            Some(told) => told.load(Ordering::SeqCst),
            None => 0,
        }
    }

    /// Notes it if a rank's turn 0 or 1 doesn't come in turn with those of its worker's other rank,
    /// two numbers from it. Each rank has two turns at least.
    fn expect_alternation(&self, rank: u32, n: u64) {
        let other = if rank < 2 {
            self.of(rank.saturating_add(2)) == n
        } else {
            self.of(rank.saturating_sub(2)) == n.saturating_add(1)
        };
        if n < 2 && !other {
            self.skipped.store(true, Ordering::SeqCst);
        }
    }

    /// Gives other threads time to notify the gate, and notes it if one does.
    fn expect_no_other(&self) {
        let before = self.all();
        for _ in 0..LOOKS {
            thread::yield_now();
        }
        if self.all() != before {
            self.skipped.store(true, Ordering::SeqCst);
        }
    }

    /// The turns of all ranks so far.
    fn all(&self) -> u64 {
        let mut all = 0u64;
        for told in self.told.iter() {
            all = all.wrapping_add(told.load(Ordering::SeqCst));
        }
        all
    }

    /// Whether it was notified of so many turns of each rank at least, and of none out of its
    /// order.
    fn are_in_order(&self, least: u64) -> bool {
        !self.skipped.load(Ordering::SeqCst)
            && self
                .told
                .iter()
                .all(|told| told.load(Ordering::SeqCst) >= least)
    }
}
