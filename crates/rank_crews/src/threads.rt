//! All ranks of a drive on threads, side by side.
ghost use Rattle.std.specs.Prelude.{◌≡◌, ℕ, ◌+◌, ◌<◌, ◌≤◌, true, List, [], Some, map, length, reverse, slice_get, vec_capacity, IfOk};
ghost use Rattle.std.specs.List.{All, list_all};
ghost use Rattle.rank_crews.specs.declared.child.Child.{Child};
ghost use Rattle.rank_crews.specs.Runs.{AllRan, AllEnded};
ghost use Rattle.rank_crews.specs.Children.{first_of, is_there, HasEnded, HasUnturnedRanks};

use crate::assignment::Assignment;
use crate::caller::run_caller;
use crate::child::{Child, keep, start};
use crate::counts::{ThreadLimit, Workers};
use crate::dealing::{deal, gather};
use crate::gate::Gate;
use crate::seated::{GateLog, Seated};
use crate::shared::Shared;
use bale_items::NoMemory;
use std::alloc::Global;
use std::marker::Brand;
use std::sync::Wait;
use std::thread;
use std::thread::{Scope, Threads};

/// Polls all ranks until the run of each is over, with so many workers, rank r by worker r mod
/// their number. The first of them have a thread each, as many as `threads` says, and the caller
/// polls the ranks of those that have none. It waits for its threads.
///
/// If other work keeps the threads from their processors, all ranks fall back to the caller's
/// thread, which polls those of each worker as soon as that returns.
///
/// # Errors
/// `NoMemory` comes before the first turn.
pub fn run_together<R: Threads + Wait + Sync, A: Seated + Send, G: Gate + Sync>(
    rt: &R,
    alloc: Global,
    gate: &G,
    workers: Workers,
    threads: ThreadLimit,
    all: Vec<A>,
) -> Result<Vec<A>, NoMemory>
    // This gate was notified of each turn before it was made.
    ensures { IfOk result (λ ended. AllEnded (A.ran (G.notified gate.now)) A.over all.items ended.items) }
{
    run_workers::<R, A, G, Brand>(rt, alloc, gate, workers, threads, all)
}

/// Polls all ranks in a run of its own, whose type names what its gate was notified of.
fn run_workers<
    R: Threads + Wait + Sync,
    A: Seated + Send,
    G: Gate + Sync,
    J: GateLog + Send + Sync,
>(
    rt: &R,
    alloc: Global,
    gate: &G,
    workers: Workers,
    threads: ThreadLimit,
    all: Vec<A>,
) -> Result<Vec<A>, NoMemory>
    requires tells { G.notified gate.now ≡ J.notified }
    ensures { IfOk result (λ ended. AllEnded (A.ran J.notified) A.over all.items ended.items) }
{
    let count = all.len();
    let Ok(ended) = Vec::with_capacity(alloc, count) else {
        return Err(NoMemory);
    };
    let Ok(dealt) = deal(alloc, workers.number.max(1), all) else {
        return Err(NoMemory);
    };
    let shared = Shared::<R, G, J>::new(rt, alloc, gate, dealt.len())?;
    let Ok(over) = run_each(&shared, alloc, threads, dealt) else {
        return Err(NoMemory);
    };
    Ok(gather::<A, J>(over, count, ended))
}

/// Polls the ranks of all workers, the first on a thread each, as many as `threads` says.
///
/// # Errors
/// `NoMemory` comes before the first turn.
fn run_each<
    'd,
    R: Threads + Wait + Sync,
    A: Seated + Send,
    G: Gate + Sync,
    J: GateLog + Send + Sync,
>(
    shared: &Shared<'d, R, G, J>,
    alloc: Global,
    threads: ThreadLimit,
    all: Vec<Assignment<A>>,
) -> Result<Vec<Assignment<A>>, NoMemory>
    ensures { IfOk result
        (λ ended. AllEnded (AllRan (A.ran J.notified)) (λ xs. list_all A.over xs) all.items ended.items) }
{
    let Ok(ended) = Vec::with_capacity(alloc, all.len()) else {
        return Err(NoMemory);
    };
    thread::scope(
        thread::scope_env(),
        shared.rt,
        move |scope| -> Result<Vec<Assignment<A>>, NoMemory>
            requires { (ended.items ≡ []) × (length all.items ≤ vec_capacity ended) }
            ensures { IfOk result
                (λ ys. AllEnded (AllRan (A.ran J.notified)) (λ xs. list_all A.over xs) all.items ys.items) }
        { run_in(scope, shared, alloc, threads, all, ended) },
    )
}

/// Polls the ranks of all workers in a scope of threads, with room for what comes back.
fn run_in<
    's,
    E,
    R: Threads + Wait + Sync + 's,
    A: Seated + Send + 's,
    G: Gate + Sync + 's,
    J: GateLog + Send + Sync + 's,
>(
    scope: &Scope<'s, E>,
    shared: &'s Shared<'s, R, G, J>,
    alloc: Global,
    threads: ThreadLimit,
    all: Vec<Assignment<A>>,
    ended: Vec<Assignment<A>>,
) -> Result<Vec<Assignment<A>>, NoMemory>
    requires none { ended.items ≡ [] }
    requires room { length all.items ≤ vec_capacity ended }
    ensures { IfOk result (λ ys. AllEnded (AllRan (A.ran J.notified)) (λ xs. list_all A.over xs) all.items ys.items) }
{
    let Ok(children) = Vec::with_capacity(alloc, all.len()) else {
        return Err(NoMemory);
    };
    let children = start_all(scope, shared, alloc, threads, all, children);
    let children = run_caller(shared, alloc, children);
    Ok(take_ranks(children, ended))
}

/// Starts a thread for each of the first workers, as many as `threads` says. It takes them from the
/// end, so the children are in reverse order.
fn start_all<
    's,
    E,
    R: Wait + Sync + 's,
    A: Seated + Send + 's,
    G: Gate + Sync + 's,
    J: GateLog + Send + Sync + 's,
>(
    scope: &Scope<'s, E>,
    shared: &'s Shared<'s, R, G, J>,
    alloc: Global,
    threads: ThreadLimit,
    all: Vec<Assignment<A>>,
    children: Vec<Child<'s, A, J>>,
) -> Vec<Child<'s, A, J>>
    requires none { children.items ≡ [] }
    requires room { length all.items ≤ vec_capacity children }
    ensures first { map first_of result.items ≡ reverse all.items }
    // No worker but the first has a thread, as many as were asked for: child k is worker number
    // (workers - 1 - k).
    ensures started { (k : ℕ) (c : Child A J) → slice_get result.items k ≡ Some c → is_there c ≡ true
        → length all.items ≤ threads.number + k }
{
    let mut all = all;
    let mut children = children;
    while let Some(ranks) = all.pop() {
        let worker = all.len();
        children.push_reserved(place(scope, shared, alloc, threads, worker, ranks));
    }
    children
}

/// Starts a thread for a worker if it is one of the first, and else keeps its ranks here.
fn place<
    's,
    E,
    R: Wait + Sync + 's,
    A: Seated + Send + 's,
    G: Gate + Sync + 's,
    J: GateLog + Send + Sync + 's,
>(
    scope: &Scope<'s, E>,
    shared: &'s Shared<'s, R, G, J>,
    alloc: Global,
    threads: ThreadLimit,
    worker: usize,
    ranks: Assignment<A>,
) -> Child<'s, A, J>
    ensures first { first_of result ≡ ranks }
    ensures limit { is_there result ≡ true → worker < threads.number }
    ensures unturned { HasUnturnedRanks result }
{
    if worker < threads.number {
        start(scope, shared, alloc, worker, ranks)
    } else {
        keep(ranks)
    }
}

/// The ranks of all workers, once the run of each is over. It takes the children from the end, so
/// what was in reverse order is in order.
fn take_ranks<'s, A: Seated, J: GateLog>(
    children: Vec<Child<'s, A, J>>,
    back: Vec<Assignment<A>>,
) -> Vec<Assignment<A>>
    requires none { back.items ≡ [] }
    requires room { length children.items ≤ vec_capacity back }
    requires ended { All (HasEnded A.over) children.items }
    ensures ran { AllRan (AllRan (A.ran J.notified)) (reverse (map first_of children.entry.items)) result.items }
    ensures over { All (λ xs. list_all A.over xs ≡ true) result.items }
{
    let mut children = children;
    let mut back = back;
    while let Some(child) = children.pop() {
        match child {
            Child::There(_) => unreachable!(),
            Child::Here(kept) => back.push_reserved(kept.into_ranks()),
        }
    }
    back
}
