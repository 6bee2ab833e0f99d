//! A worker on a thread of its own.
ghost use Rattle.std.specs.Prelude.{◌≡◌, true};
ghost use Rattle.rank_crews.specs.Runs.{AllRan};
ghost use Rattle.rank_crews.specs.Workers.{MayStop};

use crate::assignment::Assignment;
use crate::backoff::Backoff;
use crate::gate::Gate;
use crate::job::{Job, do_job};
use crate::seated::{GateLog, Seated};
use crate::shared::Shared;
use bale_items::Steps;
use std::sync::ledger::Ledger;
use std::sync::{OnceToken, Wait};

/// A worker makes so many sweeps before it looks for the fallback: a gate that holds a rank in its
/// first turns until another rank was polled then holds it on a thread of its own.
const FIRST_SWEEPS: u32 = 4;

/// The ranks of a worker, and what it shares with the others.
pub struct Worker<'a, R: Wait, A: Seated, G: Gate, J: GateLog> {
    shared: &'a Shared<'a, R, G, J>,
    ranks: Assignment<A>,
    /// What shows that the fallback was called, if it stopped for that.
    called: Option<OnceToken<'a, ()>>,
}

impl<'a, R: Wait, A: Seated, G: Gate, J: GateLog> Job for Worker<'a, R, A, G, J> {
    ghost use Rattle.rank_crews.specs.Runs.{AllRan};
    ghost use Rattle.rank_crews.specs.Workers.{MayStop};

    ghost ran = { λ a b. AllRan (A.ran J.notified) a.ranks b.ranks
        × MayStop A.over a.shared.now.fallback.id b.ranks b.called };

    fn work<L: Ledger>(self, steps: &mut Steps<L>) -> Self {
        let Worker {
            shared,
            mut ranks,
            called: _,
        } = self;
        let mut backoff = Backoff::new();
        let mut first = FIRST_SWEEPS;
        for _ in shared.rt.forever() {
            if ranks.are_over() {
                return Worker {
                    shared,
                    ranks,
                    called: None,
                };
            }
            let called = if first == 0 { shared.fallback() } else { None };
            if called.is_some() {
                return Worker {
                    shared,
                    ranks,
                    called,
                };
            }
            first = first.saturating_sub(1);
            let turns = ranks.len() as u64;
            if ranks.sweep(shared, steps) {
                backoff.progressed(shared, turns);
            } else if backoff.idled(shared, turns) {
                shared.fall_back();
            }
        }
        unreachable!()
    }
}

/// Sweeps over ranks until the run of each is over, or the fallback is called. Answers the ranks
/// and, if it stopped for the fallback, what shows that it was called.
pub(crate) fn run_worker<'a, R: Wait, A: Seated, G: Gate, J: GateLog>(
    shared: &'a Shared<'a, R, G, J>,
    ranks: Assignment<A>,
) -> (Assignment<A>, Option<OnceToken<'a, ()>>)
    ensures ran { AllRan (A.ran J.notified) ranks result.0 }
    ensures stopped { MayStop A.over shared.now.fallback.id result.0 result.1 }
{
    let Worker {
        shared: _,
        ranks,
        called,
    } = do_job(Worker {
        shared,
        ranks,
        called: None,
    });
    (ranks, called)
}
