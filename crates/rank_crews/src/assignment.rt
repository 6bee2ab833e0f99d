//! The ranks that are assigned to a worker.
ghost use Rattle.std.specs.Prelude.{◌≡◌, ◌+◌, true, false, ◌++◌, ◌∷◌, [], length, IfOk, OnOk, IfSome, IfNone};
ghost use Rattle.std.specs.List.{list_all, sum_by};
ghost use Rattle.rank_crews.specs.Runs.{AllRan, MakesOneTurn};

use crate::gate::Gate;
use crate::seated::{GateLog, Seated};
use crate::shared::Shared;
use bale_items::{NoMemory, Steps};
use std::alloc::Global;
use std::marker::Model;
use std::sync::Wait;
use std::sync::ledger::Ledger;

/// Ranks that one worker polls in turn. The last of the list is polled first.
#[derive(Drop)]
pub struct Assignment<A: Seated> {
    ranks: Vec<A>,
}

impl<A: Seated> Model for Assignment<A> {
    ghost use Rattle.std.specs.Prelude.{List};

    ghost Value = { List A };

    ghost view = { λ c. c.ranks.items };
}

impl<A: Seated> Assignment<A> {
    /// One without a rank.
    pub(crate) fn empty(alloc: Global) -> Assignment<A>
        ensures { result ≡ [] }
    {
        Assignment {
            ranks: Vec::new(alloc),
        }
    }

    /// One without a rank, with room for so many.
    pub(crate) fn new(alloc: Global, room: usize) -> Result<Assignment<A>, NoMemory>
        ensures { IfOk result (λ c. c ≡ []) }
    {
        let Ok(ranks) = Vec::with_capacity(alloc, room) else {
            return Err(NoMemory);
        };
        Ok(Assignment { ranks })
    }

    /// Adds a rank, which is polled before the others.
    pub(crate) fn join(&mut self, at: A) -> Result<(), NoMemory>
        ensures { OnOk result (self.new ≡ self.old ++ at ∷ []) }
    {
        // There is room for all. Told so, the push needs no way to grow.
        if self.ranks.len() == self.ranks.capacity() {
            return Err(NoMemory);
        }
        self.ranks.push_reserved(at);
        Ok(())
    }

    /// Takes out the rank that is polled before the others.
    pub(crate) fn leave(&mut self) -> Option<A>
        ensures left { IfSome result (λ at. self.old ≡ self.new ++ at ∷ []) }
        ensures none { IfNone result (self.old ≡ []) }
    {
        self.ranks.pop()
    }

    /// How many ranks there are.
    pub(crate) fn len(&self) -> usize
        ensures { result ≡ length self.now }
    {
        self.ranks.len()
    }

    /// Whether the run of each rank is over.
    pub(crate) fn are_over(&self) -> bool
        ensures { result ≡ list_all A.over self.now }
    {
        all_over(&self.ranks)
    }

    /// Makes one turn of each rank whose run isn't over. Answers whether any made progress.
    pub(crate) fn sweep<'a, R: Wait, G: Gate, J: GateLog, L: Ledger>(
        &mut self,
        shared: &Shared<'a, R, G, J>,
        steps: &mut Steps<L>,
    ) -> bool
        ensures ran { AllRan (A.ran J.notified) self.old self.new }
        ensures each { AllRan (MakesOneTurn A.over A.turns) self.old self.new }
        ensures counted { sum_by A.turns self.new + steps.old ≡ sum_by A.turns self.old + steps.new }
        ensures still { result ≡ false → AllRan A.still self.old self.new }
    {
        sweep_ranks(shared, &mut self.ranks, steps)
    }
}

/// Whether the run of each rank is over.
fn all_over<A: Seated>(ranks: &[A]) -> bool
    ensures { result ≡ list_all A.over ranks.now }
{
    for at in ranks {
        if !at.is_over() {
            return false;
        }
    }
    true
}

/// Makes one turn of each rank whose run isn't over, from the last to the first. Answers whether
/// any made progress.
fn sweep_ranks<'a, R: Wait, A: Seated, G: Gate, J: GateLog, L: Ledger>(
    shared: &Shared<'a, R, G, J>,
    ranks: &mut Vec<A>,
    steps: &mut Steps<L>,
) -> bool
    ensures ran { AllRan (A.ran J.notified) ranks.old.items ranks.new.items }
    ensures each { AllRan (MakesOneTurn A.over A.turns) ranks.old.items ranks.new.items }
    ensures counted { sum_by A.turns ranks.new.items + steps.old ≡ sum_by A.turns ranks.old.items + steps.new }
    ensures still { result ≡ false → AllRan A.still ranks.old.items ranks.new.items }
{
    let mut moved = false;
    let count = ranks.len();
    for i in 0..count {
        moved |= turn_one(shared, &mut ranks[count - 1 - i], steps);
    }
    moved
}

/// Makes one turn of a rank whose run isn't over. Answers whether it made progress.
fn turn_one<'a, R: Wait, A: Seated, G: Gate, J: GateLog, L: Ledger>(
    shared: &Shared<'a, R, G, J>,
    at: &mut A,
    steps: &mut Steps<L>,
) -> bool
    ensures ran { A.ran J.notified at.old at.new }
    ensures one { MakesOneTurn A.over A.turns at.old at.new }
    ensures counted { A.turns at.new + steps.old ≡ A.turns at.old + steps.new }
    ensures still { result ≡ false → A.still at.old at.new }
{
    if at.is_over() {
        return false;
    }
    shared.turn(at, steps)
}
