//! The thread of a worker, as its caller sees it.
ghost use Rattle.std.specs.Prelude.{◌≡◌, [], ◌∷◌, IfSome};
ghost use Rattle.rtrb.specs.Ring.{sent, received, SameConsumer, IsPair};
ghost use Rattle.rank_crews.specs.Runs.{AllRan};
ghost use Rattle.rank_crews.specs.Rings.{CameBack};
ghost use Rattle.rank_crews.specs.Workers.{MayStop};

use crate::assignment::Assignment;
use crate::gate::Gate;
use crate::seated::{GateLog, Seated};
use crate::shared::Shared;
use crate::turned::Turned;
use crate::worker::run_worker;
use rtrb::{Consumer, Producer};
use std::marker::PhantomData;
use std::snapshot::Snapshot;
use std::sync::{OnceLock, OnceToken, Wait};
use std::thread;
use std::thread::{Promise, PromisedHandle, Threads};

/// What a worker's thread returns: the ranks, its end of their ring, and what shows that the
/// fallback was called, if it stopped for that.
pub type Returned<'s, A> = (
    Assignment<A>,
    Consumer<Assignment<A>>,
    Option<OnceToken<'s, ()>>,
);

/// The promise of a worker's thread: it gives back the ranks that came through its ring, having
/// polled them until it could stop.
#[derive(Drop)]
pub struct SameRanks<A: Seated, J: GateLog> {
    pub(crate) end: Snapshot<Consumer<Assignment<A>>>,
    pub(crate) fallback: Snapshot<OnceLock<()>>,
    run: PhantomData<J>,
}

impl<'s, A: Seated, J: GateLog> Promise<Returned<'s, A>> for SameRanks<A, J> {
    ghost use Rattle.rank_crews.specs.Runs.{AllRan};
    ghost use Rattle.rank_crews.specs.Workers.{MayStop};

    ghost kept_by = { λ p r. CameBack (AllRan (A.ran J.notified)) p.end.value r.1 r.0
        × MayStop A.over p.fallback.value.id r.0 r.2 };
}

/// A worker whose thread was started. Its ranks went there through a ring for one, once the thread
/// was up.
#[derive(Drop)]
pub struct WorkerThread<'s, A: Seated, J: GateLog> {
    pub(crate) handle: PromisedHandle<Returned<'s, A>, SameRanks<A, J>>,
    pub(crate) ring: Producer<Assignment<A>>,
    /// Is set as the thread returns.
    pub(crate) returned: &'s OnceLock<()>,
    /// The ranks as they went, for contracts alone.
    pub(crate) was: Snapshot<Assignment<A>>,
    ghost one_end: { IsPair ring handle.promise.end.value },
    ghost went: { sent ring ≡ was.value ∷ [] },
}

impl<A: Seated, J: GateLog> SameRanks<A, J> {
    /// Of the ranks that come through the ring with this end, in a run with this fallback.
    pub(crate) fn new(end: &Consumer<Assignment<A>>, fallback: &OnceLock<()>) -> SameRanks<A, J>
        ensures end { result.end.value ≡ end.now }
        ensures fallback { result.fallback.value ≡ fallback.now }
    {
        SameRanks {
            end: Snapshot::of(end),
            fallback: Snapshot::of(fallback),
            run: PhantomData,
        }
    }
}

impl<'s, A: Seated, J: GateLog> WorkerThread<'s, A, J> {
    /// What shows that the thread returns, if it does.
    pub(crate) fn returned(&self) -> Option<OnceToken<'s, ()>>
        ensures { IfSome result (λ t. t.of ≡ self.now.returned.now.id) }
    {
        self.returned.witness()
    }

    /// Takes the ranks back, once the thread has returned.
    pub(crate) fn join<R: Threads>(self, rt: &R, shown: &OnceToken<'s, ()>) -> Turned<A, J>
        requires returned { shown.now.of ≡ self.returned.now.id }
        ensures first { result.first ≡ self.entry.was.value }
    {
        let WorkerThread {
            handle,
            mut ring,
            returned: _,
            was,
        } = self;
        let (ranks, mut end, _called) = handle.join(rt);
        end.slots_beside(&mut ring);
        Turned::since(was, ranks)
    }
}

/// Waits for the ranks that come through a ring, and polls them until the run of each is over, or
/// the fallback is called.
pub(crate) fn run_what_comes<'a, R: Wait, A: Seated, G: Gate, J: GateLog>(
    shared: &'a Shared<'a, R, G, J>,
    returned: &'a OnceLock<()>,
    end: Consumer<Assignment<A>>,
) -> Returned<'a, A>
    requires none { received end ≡ [] }
    ensures ran { CameBack (AllRan (A.ran J.notified)) end result.1 result.0 }
    ensures stopped { MayStop A.over shared.now.fallback.id result.0 result.2 }
{
    let mut end = end;
    let came = await_ranks(shared.rt, &mut end);
    let (ranks, called) = run_worker(shared, came);
    shared.note_return(returned);
    (ranks, end, called)
}

/// Waits for the ranks that come through a ring.
fn await_ranks<R: Wait, A: Seated>(rt: &R, end: &mut Consumer<Assignment<A>>) -> Assignment<A>
    requires none { received end.old ≡ [] }
    ensures ring { SameConsumer end.old end.new }
    ensures came { received end.new ≡ result ∷ [] }
{
    for _ in rt.forever() {
        if let Ok(ranks) = end.pop() {
            return ranks;
        }
        thread::yield_now();
    }
    unreachable!()
}
