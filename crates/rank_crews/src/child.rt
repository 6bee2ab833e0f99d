//! A worker of the run, as its caller sees it: on its thread, or back with the caller.
ghost use Rattle.std.specs.Prelude.{◌≡◌, false, ◌∷◌, []};
ghost use Rattle.rtrb.specs.Ring.{received};
ghost use Rattle.rank_crews.specs.Runs.{AllRan};
ghost use Rattle.rank_crews.specs.Rings.{CameBack};
ghost use Rattle.rank_crews.specs.Children.{first_of, is_there, HasUnturnedRanks};
ghost use Rattle.rank_crews.specs.Workers.{MayStop};

use crate::assignment::Assignment;
use crate::gate::Gate;
use crate::seated::{GateLog, Seated};
use crate::shared::Shared;
use crate::turned::Turned;
use crate::worker_thread::{Returned, SameRanks, WorkerThread, run_what_comes};
use rtrb::RingBuffer;
use std::alloc::Global;
use std::mem;
use std::snapshot::Snapshot;
use std::sync::Wait;
use std::thread::{Scope, Threads};

/// A worker on its thread, or ranks that the caller polls.
#[derive(Drop)]
pub enum Child<'s, A: Seated, J: GateLog> {
    There(WorkerThread<'s, A, J>),
    Here(Turned<A, J>),
}

/// Starts a thread for a worker. If it can't be started, the caller keeps the ranks, as they were.
pub(crate) fn start<
    's,
    E,
    R: Wait + Sync + 's,
    A: Seated + Send + 's,
    G: Gate + Sync + 's,
    J: GateLog + Send + Sync + 's,
>(
    scope: &Scope<'s, E>,
    shared: &'s Shared<'s, R, G, J>,
    alloc: Global,
    worker: usize,
    ranks: Assignment<A>,
) -> Child<'s, A, J>
    ensures first { first_of result ≡ ranks }
    ensures unturned { HasUnturnedRanks result }
{
    let Some(returned) = shared.returned_of(worker) else {
        return keep(ranks);
    };
    let Ok((mut ring, end)) = RingBuffer::new(alloc, 1) else {
        return keep(ranks);
    };
    let started = scope.spawn_with(
        SameRanks::<A, J>::new(&end, &shared.fallback),
        move || -> Returned<'_, A>
            requires { received end ≡ [] }
            ensures ran { CameBack (AllRan (A.ran J.notified)) end result.1 result.0 }
            ensures stopped { MayStop A.over shared.entry.now.fallback.id result.0 result.2 }
        { run_what_comes(shared, returned, end) },
    );
    let Ok(handle) = started else {
        return keep(ranks);
    };
    let was = Snapshot::of(&ranks);
    ring.push_reserved(ranks);
    Child::There(WorkerThread {
        handle,
        ring,
        returned,
        was,
    })
}

/// Keeps ranks with the caller.
pub(crate) fn keep<'s, A: Seated, J: GateLog>(ranks: Assignment<A>) -> Child<'s, A, J>
    ensures first { first_of result ≡ ranks }
    ensures here { is_there result ≡ false }
    ensures unturned { HasUnturnedRanks result }
{
    Child::Here(Turned::new(ranks))
}

/// Takes the ranks of a worker back if its thread has returned.
pub(crate) fn take_back<'s, R: Threads, A: Seated, J: GateLog>(
    rt: &R,
    alloc: Global,
    child: &mut Child<'s, A, J>,
)
    ensures same { first_of child.new ≡ first_of child.old }
{
    let returned = match child {
        Child::There(worker) => worker.returned(),
        Child::Here(_) => None,
    };
    let Some(shown) = returned else {
        return;
    };
    let was = mem::replace(child, keep(Assignment::empty(alloc)));
    *child = match was {
        Child::There(worker) => Child::Here(worker.join(rt, &shown)),
        Child::Here(kept) => Child::Here(kept),
    };
}
