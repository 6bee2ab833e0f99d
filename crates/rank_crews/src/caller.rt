//! The caller of a run: it polls the ranks that it keeps, and those whose workers have returned.
ghost use Rattle.std.specs.Prelude.{◌≡◌, ◌⊎◌, map};
ghost use Rattle.std.specs.List.{All};
ghost use Rattle.rank_crews.specs.Runs.{AllRan};
ghost use Rattle.rank_crews.specs.Children.{first_of, HasEnded, IsSwept};

use crate::backoff::Backoff;
use crate::child::{Child, take_back};
use crate::gate::Gate;
use crate::job::{Job, do_job};
use crate::seated::{GateLog, Seated};
use crate::shared::Shared;
use bale_items::Steps;
use std::alloc::Global;
use std::sync::Wait;
use std::sync::ledger::Ledger;
use std::thread::Threads;

/// How far the ranks of some workers are, after a sweep over those that the caller polls.
#[derive(Clone, Copy, PartialEq, Eq, Debug)]
pub(crate) enum Progress {
    /// The run of each is over.
    Over,
    /// No rank is left here to poll, but a worker is on its thread.
    Away,
    /// No turn made progress.
    Idle,
    /// Some turn did.
    Moved,
}

/// All workers of a run.
pub struct Caller<'a, R: Wait, A: Seated, G: Gate, J: GateLog> {
    shared: &'a Shared<'a, R, G, J>,
    alloc: Global,
    children: Vec<Child<'a, A, J>>,
}

impl<'a, R: Threads + Wait, A: Seated, G: Gate, J: GateLog> Job for Caller<'a, R, A, G, J> {
    ghost use Rattle.std.specs.Prelude.{◌≡◌, map};
    ghost use Rattle.std.specs.List.{All};
    ghost use Rattle.rank_crews.specs.Children.{first_of, HasEnded};

    ghost ran = { λ a b. (map first_of b.children.items ≡ map first_of a.children.items)
        × All (HasEnded A.over) b.children.items };

    fn work<L: Ledger>(self, steps: &mut Steps<L>) -> Self {
        let Caller {
            shared,
            alloc,
            mut children,
        } = self;
        let mut backoff = Backoff::new();
        for _ in shared.rt.forever() {
            let seen = shared.returns();
            take_all_back(shared.rt, alloc, &mut children);
            match sweep_children(shared, &mut children, steps) {
                Progress::Over => {
                    return Caller {
                        shared,
                        alloc,
                        children,
                    };
                }
                Progress::Away => shared.await_return(seen),
                Progress::Moved => backoff.progressed(shared, children.len() as u64),
                Progress::Idle => {
                    if backoff.idled(shared, children.len() as u64) {
                        shared.fall_back();
                    }
                }
            }
        }
        unreachable!()
    }
}

/// Polls the ranks that the caller keeps, and those that come back, until the run of each is over.
pub(crate) fn run_caller<'a, R: Threads + Wait, A: Seated, G: Gate, J: GateLog>(
    shared: &'a Shared<'a, R, G, J>,
    alloc: Global,
    children: Vec<Child<'a, A, J>>,
) -> Vec<Child<'a, A, J>>
    ensures same { map first_of result.items ≡ map first_of children.entry.items }
    ensures ended { All (HasEnded A.over) result.items }
{
    let Caller {
        shared: _,
        alloc: _,
        children,
    } = do_job(Caller {
        shared,
        alloc,
        children,
    });
    children
}

/// Takes the ranks back whose threads have returned.
fn take_all_back<'a, R: Threads, A: Seated, J: GateLog>(
    rt: &R,
    alloc: Global,
    children: &mut Vec<Child<'a, A, J>>,
)
    ensures { map first_of children.new.items ≡ map first_of children.old.items }
{
    for i in 0..children.len() {
        take_back(rt, alloc, &mut children[i]);
    }
}

/// Makes one turn of each rank here whose run isn't over.
fn sweep_children<'a, R: Wait, A: Seated, G: Gate, J: GateLog, L: Ledger>(
    shared: &Shared<'a, R, G, J>,
    children: &mut Vec<Child<'a, A, J>>,
    steps: &mut Steps<L>,
) -> Progress
    ensures same { map first_of children.new.items ≡ map first_of children.old.items }
    ensures swept { AllRan (IsSwept A.over A.turns) children.old.items children.new.items }
    ensures ended { result ≡ Progress.Over → All (HasEnded A.over) children.new.items }
{
    let mut progress = Progress::Over;
    for i in 0..children.len() {
        progress = both(progress, sweep_child(shared, &mut children[i], steps));
    }
    progress
}

/// Makes one turn of each rank of a worker that is here and whose run isn't over.
fn sweep_child<'a, R: Wait, A: Seated, G: Gate, J: GateLog, L: Ledger>(
    shared: &Shared<'a, R, G, J>,
    child: &mut Child<'a, A, J>,
    steps: &mut Steps<L>,
) -> Progress
    ensures same { first_of child.new ≡ first_of child.old }
    ensures swept { IsSwept A.over A.turns child.old child.new }
    ensures ended { result ≡ Progress.Over → HasEnded A.over child.new }
{
    match child {
        Child::There(_) => Progress::Away,
        Child::Here(kept) => {
            let moved = kept.sweep(shared, steps);
            if kept.are_over() {
                Progress::Over
            } else if moved {
                Progress::Moved
            } else {
                Progress::Idle
            }
        }
    }
}

/// How far the ranks of two workers are.
fn both(a: Progress, b: Progress) -> Progress
    ensures over { (result ≡ Progress.Over → (a ≡ Progress.Over) × (b ≡ Progress.Over))
        × (a ≡ Progress.Over → b ≡ Progress.Over → result ≡ Progress.Over) }
    ensures moved { (result ≡ Progress.Moved → (a ≡ Progress.Moved) ⊎ (b ≡ Progress.Moved))
        × (a ≡ Progress.Moved → result ≡ Progress.Moved) × (b ≡ Progress.Moved → result ≡ Progress.Moved) }
    ensures away { result ≡ Progress.Away → (a ≡ Progress.Away) ⊎ (b ≡ Progress.Away) }
{
    match (a, b) {
        (Progress::Moved, _) | (_, Progress::Moved) => Progress::Moved,
        (Progress::Idle, _) | (_, Progress::Idle) => Progress::Idle,
        (Progress::Away, _) | (_, Progress::Away) => Progress::Away,
        (Progress::Over, Progress::Over) => Progress::Over,
    }
}
