//! Ranks that the caller polls, with what they were before.
ghost use Rattle.std.specs.Prelude.{◌≡◌, false};
ghost use Rattle.std.specs.List.{list_all};
ghost use Rattle.rank_crews.specs.Runs.{AllRan, MakesOneTurn};

use crate::assignment::Assignment;
use crate::gate::Gate;
use crate::seated::{GateLog, Seated};
use crate::shared::Shared;
use bale_items::Steps;
use std::marker::{Model, PhantomData};
use std::snapshot::Snapshot;
use std::sync::Wait;
use std::sync::ledger::Ledger;

/// The ranks of a worker that the caller polls.
#[derive(Drop)]
pub struct Turned<A: Seated, J: GateLog> {
    ranks: Assignment<A>,
    /// What they were before their first turn, for contracts alone.
    first: Snapshot<Assignment<A>>,
    run: PhantomData<J>,
}

impl<A: Seated, J: GateLog> Model for Turned<A, J> {
    ghost use Rattle.std.specs.Prelude.{List};
    ghost use Rattle.rank_crews.specs.Runs.{AllRan, TurnedState};

    ghost Value = { TurnedState (List A) };

    ghost view = { λ s. record { first = s.first.value; now = s.ranks } };

    ghost invariant = { λ s. AllRan (A.ran J.notified) s.first.value s.ranks };
}

impl<A: Seated, J: GateLog> Turned<A, J> {
    /// Ranks that haven't been polled.
    pub(crate) fn new(ranks: Assignment<A>) -> Turned<A, J>
        ensures first { result.first ≡ ranks }
        ensures unturned { result.now ≡ ranks }
    {
        let first = Snapshot::of(&ranks);
        Turned::since(first, ranks)
    }

    /// Ranks that turns have taken from what they were first.
    pub(crate) fn since(first: Snapshot<Assignment<A>>, ranks: Assignment<A>) -> Turned<A, J>
        requires ran { AllRan (A.ran J.notified) first.value ranks }
        ensures first { result.first ≡ first.value }
        ensures now { result.now ≡ ranks }
    {
        Turned {
            ranks,
            first,
            run: PhantomData,
        }
    }

    /// The ranks.
    pub(crate) fn into_ranks(self) -> Assignment<A>
        ensures ran { AllRan (A.ran J.notified) self.first result }
        ensures same { result ≡ self.now }
    {
        let Turned {
            ranks,
            first: _,
            run: _,
        } = self;
        ranks
    }

    /// Whether the run of each is over.
    pub(crate) fn are_over(&self) -> bool
        ensures { result ≡ list_all A.over self.now.now }
    {
        self.ranks.are_over()
    }

    /// How many ranks there are.
    pub(crate) fn len(&self) -> usize {
        self.ranks.len()
    }

    /// Makes one turn of each rank whose run isn't over. Answers whether any made progress.
    pub(crate) fn sweep<'a, R: Wait, G: Gate, L: Ledger>(
        &mut self,
        shared: &Shared<'a, R, G, J>,
        steps: &mut Steps<L>,
    ) -> bool
        ensures first { self.new.first ≡ self.old.first }
        ensures each { AllRan (MakesOneTurn A.over A.turns) self.old.now self.new.now }
    {
        self.ranks.sweep(shared, steps)
    }
}
