//! Takes the time of a run, from the first rank's start to the last one's end.
ghost use Rattle.std.specs.Prelude.{◌≡◌};

use bale_items::{Item, NoMemory};
use rank_group::Gate;
use round_examples::Traffic;
use round_program::{Arrivals, Program};
use std::marker::Model;
use std::sync::atomic::{AtomicU64, Ordering};
use std::time::{Clock, Instant};

/// A clock that notes when the first rank made its first turn and when the last one ended its last
/// round.
#[derive(Drop)]
pub struct StopWatch<'a, R> {
    rt: &'a R,
    made: Option<Instant>,
    /// In nanoseconds since it was made.
    first: AtomicU64,
    last: AtomicU64,
}

impl<'a, R: Clock> StopWatch<'a, R> {
    pub(crate) fn new(rt: &'a R) -> Self {
        StopWatch {
            rt,
            made: Instant::now(rt).ok(),
            first: AtomicU64::new(u64::MAX),
            last: AtomicU64::new(0),
        }
    }

    /// The nanoseconds since it was made; 0 if the clock can't be read.
    fn now(&self) -> u64 {
        let Some(made) = self.made else {
            return 0;
        };
        match made.elapsed(self.rt) {
            Ok(time) => time
                .as_secs()
                .wrapping_mul(1_000_000_000)
                .wrapping_add(time.subsec_nanos() as u64),
            Err(_) => 0,
        }
    }

    /// A rank has ended its last round.
    fn ended(&self) {
        self.last.fetch_max(self.now(), Ordering::SeqCst);
    }

    /// The nanoseconds from the first start to the last end, and at least 1.
    pub(crate) fn nanoseconds(&self) -> u64 {
        let first = self.first.load(Ordering::SeqCst);
        let last = self.last.load(Ordering::SeqCst);
        last.saturating_sub(first).max(1)
    }
}

impl<'a, R: Clock> Gate for StopWatch<'a, R> {
    fn turn(&self, _rank: u32, n: u64) {
        if n == 0 {
            self.first.fetch_min(self.now(), Ordering::SeqCst);
        }
    }
}

/// Traffic whose end is noted.
#[derive(Drop)]
pub struct Timed<'a, R> {
    inner: Traffic,
    watch: &'a StopWatch<'a, R>,
}

impl<'a, R> Model for Timed<'a, R> {
    ghost use Rattle.round_examples.specs.Traffics.{TrafficState};

    ghost Value = { TrafficState };

    ghost view = { λ t. t.inner };
}

impl<'a, R> Timed<'a, R> {
    pub(crate) fn new(inner: Traffic, watch: &'a StopWatch<'a, R>) -> Self
        ensures { result ≡ inner }
    {
        Timed { inner, watch }
    }

    pub(crate) fn checksum(&self) -> u64 {
        self.inner.checksum()
    }
}

impl<'a, R: Clock> Program for Timed<'a, R> {
    ghost use Rattle.round_examples.specs.Traffics.{traffic_rules};
    ghost use Rattle.round_examples.specs.laws.TrafficLaws.{traffic_laws};

    ghost rules = { traffic_rules };

    ghost laws = { traffic_laws };

    fn rank(&self) -> u32 {
        self.inner.rank()
    }

    fn ranks(&self) -> u32 {
        self.inner.ranks()
    }

    fn round(&self) -> u64 {
        self.inner.round()
    }

    fn count(&self) -> u64 {
        self.inner.count()
    }

    fn emission(&self, i: u64) -> (u32, Item) {
        self.inner.emission(i)
    }

    fn fits(&self, from: u32, item: Item) -> bool {
        self.inner.fits(from, item)
    }

    fn absorb(&mut self, from: u32, item: Item) -> Result<(), NoMemory> {
        self.inner.absorb(from, item)
    }

    fn absorb_each<I: Arrivals>(&mut self, came: I) -> Result<(), NoMemory> {
        self.inner.absorb_each(came)
    }

    fn vote(&self) -> u64 {
        self.inner.vote()
    }

    fn goes_on(&self, votes: u64) -> bool {
        self.inner.goes_on(votes)
    }

    fn end_round(&mut self, votes: u64) -> Result<bool, NoMemory> {
        let goes_on = self.inner.end_round(votes);
        if let Ok(false) = goes_on {
            self.watch.ended();
        }
        goes_on
    }
}
