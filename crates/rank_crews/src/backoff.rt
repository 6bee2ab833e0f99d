//! When a worker without progress yields its processor, and when it calls the fallback.
//! Time is measured in turns: each worker reports its own to a shared count, so the turns that the
//! others made while a worker had yielded are how long it was away. A worker spins for some 15
//! microseconds before it yields. On an idle machine a yield takes a microsecond, so the others
//! make most of their turns while it spins. If other work has the processor, a yield takes
//! milliseconds, and the others make nearly all of their turns while it is away, even if they share
//! their processors too.

use crate::gate::Gate;
use crate::seated::GateLog;
use crate::shared::Shared;
use std::thread;

/// A worker yields after so many turns without progress.
const SPIN_TURNS: u64 = 64;

/// A worker that makes progress reports its turns in batches of this size.
const BUSY_BATCH: u64 = 64;

/// A worker without progress reports them in smaller batches: several in the time that it spins.
const IDLE_BATCH: u64 = 16;

/// A yield was long if the others reported so many turns during it,
const LONG_YIELD: u64 = 64;

/// and so many times as many as between the yield before and this one.
const LONG_RATIO: u64 = 4;

/// A worker calls the fallback after so many long yields more than short ones. A processor that is
/// taken away now and then makes one long yield each time, among many short ones.
const CROWDED: u64 = 8;

/// The turns of a worker, and how long its yields were.
#[derive(Drop)]
pub(crate) struct Backoff {
    /// turns since the latest progress or yield
    idle: u64,
    /// turns that aren't reported yet
    unreported: u64,
    /// turns that are
    reported: u64,
    /// the reported turns of the other workers as the latest yield ended
    seen: u64,
    /// how many more of its yields were long than short, but not below 0
    long_yields: u64,
}

impl Backoff {
    /// That of a worker that begins.
    pub(crate) fn new() -> Backoff {
        Backoff {
            idle: 0,
            unreported: 0,
            reported: 0,
            seen: 0,
            long_yields: 0,
        }
    }

    /// Counts turns of which some made progress.
    pub(crate) fn progressed<R, G: Gate, J: GateLog>(
        &mut self,
        shared: &Shared<'_, R, G, J>,
        turns: u64,
    ) {
        self.idle = 0;
        self.count(shared, turns, BUSY_BATCH);
    }

    /// Counts turns without progress, and yields after some of them. Answers whether its yields
    /// were long so often that the ranks are sooner done on one thread.
    pub(crate) fn idled<R, G: Gate, J: GateLog>(
        &mut self,
        shared: &Shared<'_, R, G, J>,
        turns: u64,
    ) -> bool {
        self.count(shared, turns, IDLE_BATCH);
        self.idle = self.idle.saturating_add(turns);
        if self.idle < SPIN_TURNS {
            return false;
        }
        self.idle = 0;
        let before = self.others(shared);
        thread::yield_now();
        let after = self.others(shared);
        self.note_yield(before.wrapping_sub(self.seen), after.wrapping_sub(before));
        self.seen = after;
        self.long_yields >= CROWDED
    }

    /// Notes how many turns the others made before a yield, since the one before, and during it.
    fn note_yield(&mut self, before: u64, during: u64) {
        self.long_yields = if during >= LONG_YIELD && during >= before.saturating_mul(LONG_RATIO) {
            self.long_yields.saturating_add(1)
        } else {
            self.long_yields.saturating_sub(1)
        };
    }

    /// Counts turns, and reports them if there are enough.
    fn count<R, G: Gate, J: GateLog>(
        &mut self,
        shared: &Shared<'_, R, G, J>,
        turns: u64,
        batch: u64,
    ) {
        self.unreported = self.unreported.saturating_add(turns);
        if self.unreported >= batch {
            shared.report_turns(self.unreported);
            self.reported = self.reported.wrapping_add(self.unreported);
            self.unreported = 0;
        }
    }

    /// The reported turns of the other workers.
    fn others<R, G: Gate, J: GateLog>(&self, shared: &Shared<'_, R, G, J>) -> u64 {
        shared.reported_turns().wrapping_sub(self.reported)
    }
}
