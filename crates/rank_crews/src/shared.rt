//! What all workers of a run share.
ghost use Rattle.std.specs.Prelude.{◌≡◌, ℕ, ◌+◌, Bool, false, IfSome};

use crate::gate::Gate;
use crate::seated::{GateLog, Seated};
use bale_items::{NoMemory, Steps};
use crossbeam_utils::CachePadded;
use std::alloc::Global;
use std::marker::PhantomData;
use std::sync::atomic::{AtomicU64, Ordering};
use std::sync::ledger::Ledger;
use std::sync::{OnceLock, OnceToken, Wait};

/// The handle, the gate, the fallback to the caller's thread, and the turns that all workers have
/// made.
#[derive(Drop)]
pub struct Shared<'d, R, G: Gate, J: GateLog> {
    pub(crate) rt: &'d R,
    gate: &'d G,
    /// Set once: from then on all ranks go back to the caller.
    pub(crate) fallback: OnceLock<()>,
    /// One for each worker, set as its thread returns.
    returned: Vec<OnceLock<()>>,
    /// How many threads have returned. The caller sleeps on it.
    returns: AtomicU64,
    /// The turns of all workers, as far as they were reported: the only clock of a run.
    turns: CachePadded<AtomicU64>,
    run: PhantomData<J>,
    ghost tells: { G.notified gate.now ≡ J.notified },
}

impl<'d, R, G: Gate, J: GateLog> Shared<'d, R, G, J> {
    /// That of a run with this gate and so many workers.
    pub(crate) fn new(
        rt: &'d R,
        alloc: Global,
        gate: &'d G,
        workers: usize,
    ) -> Result<Shared<'d, R, G, J>, NoMemory>
        requires tells { G.notified gate.now ≡ J.notified }
    {
        let mut returned = Vec::new(alloc);
        for _ in 0..workers {
            returned.push(OnceLock::new())?;
        }
        Ok(Shared {
            rt,
            gate,
            fallback: OnceLock::new(),
            returned,
            returns: AtomicU64::new(0),
            turns: CachePadded::new(AtomicU64::new(0)),
            run: PhantomData,
        })
    }

    /// Calls all ranks back to the caller's thread.
    pub(crate) fn fall_back(&self) {
        let _ = self.fallback.try_set(());
    }

    /// What shows that the fallback was called, if it was.
    pub(crate) fn fallback(&self) -> Option<OnceToken<'_, ()>>
        ensures { IfSome result (λ t. t.of ≡ self.now.fallback.id) }
    {
        self.fallback.witness()
    }

    /// What a worker sets as its thread returns.
    pub(crate) fn returned_of(&self, worker: usize) -> Option<&OnceLock<()>> {
        self.returned.get(worker)
    }

    /// Says that a thread returns, and wakes the caller.
    pub(crate) fn note_return(&self, returned: &OnceLock<()>) {
        let _ = returned.try_set(());
        self.returns.fetch_add(1, Ordering::SeqCst);
        self.returns.wake_one();
    }

    /// How many threads have returned.
    pub(crate) fn returns(&self) -> u64 {
        self.returns.load(Ordering::SeqCst)
    }

    /// Adds turns of a worker to those of all.
    pub(crate) fn report_turns(&self, turns: u64) {
        self.turns.fetch_add(turns, Ordering::SeqCst);
    }

    /// The turns of all workers, as far as they were reported.
    pub(crate) fn reported_turns(&self) -> u64 {
        self.turns.load(Ordering::SeqCst)
    }
}

impl<'d, R: Wait, G: Gate, J: GateLog> Shared<'d, R, G, J> {
    /// Sleeps until more threads have returned than `seen`. It may return sooner.
    pub(crate) fn await_return(&self, seen: u64) {
        self.returns.park(self.rt, (seen % (1 << 32)) as u32);
    }

    /// Notifies the gate of a rank's next turn, and makes it. Answers whether the rank made
    /// progress.
    pub(crate) fn turn<A: Seated, L: Ledger>(&self, at: &mut A, steps: &mut Steps<L>) -> bool
        requires going { A.over at.old ≡ false }
        ensures ran { A.ran J.notified at.old at.new }
        ensures one { A.turns at.new ≡ A.turns at.old + 1 }
        ensures counted { steps.new ≡ steps.old + 1 }
        ensures still { result ≡ false → A.still at.old at.new }
    {
        self.gate.turn(at.rank(), at.turn_count());
        at.turn::<R, J, L>(self.rt, steps)
    }
}
