//! Sweeps over all ranks, until both ways of each are complete.

ghost use Rattle.std.specs.Prelude.{◌≡◌, ℕ, ◌+◌, ◌≤◌, Bool, true, false, slice_get, Some, IfOk, OnOk};
ghost use Rattle.std.specs.List.{list_all};
ghost use Rattle.route_tensor.specs.Grid.{ranks};
ghost use Rattle.rank_group.specs.Turns.{InSweeps};
ghost use Rattle.query_node.specs.States.{BiState};
ghost use Rattle.biconvey.specs.Turns.{IsAskingTurn};
ghost use Rattle.biconvey.specs.RanksOverBanks.{AreBanks, MaySweepBoth, PostedWithin, BiRanksOnBanks, is_over, queries_in, sides_of, bi_turns_of};

use crate::sweep::{Banks, sweep};
use bale_items::{NoMemory, Steps};
use convey::{closes_law, rest_law};
use query_node::BiNode;
use round_program::Asker;
use std::sync::ledger::Ledger;

/// Turns all ranks, sweep after sweep, until both ways of each are complete.
pub(crate) fn run_all<const CAP: usize, const HOPS: usize, A: Asker, L: Ledger>(
    banks: Banks<CAP>,
    all: &mut Vec<BiNode<A, CAP, HOPS>>,
    order: &[u32],
    steps: &mut Steps<L>,
) -> Result<Banks<CAP>, NoMemory>
    requires sweeps { MaySweepBoth A.talk CAP banks.queries banks.replies order.now all.old.items }
    ensures banks { IfOk result (λ b. AreBanks CAP banks.entry.queries.dims banks.entry.queries.slots b.queries
        b.replies) }
    // It made sweeps in this order, and no other turn.
    ensures order { IfOk result (λ b. (k : ℕ)
        × InSweeps (IsAskingTurn A.talk banks.entry.queries.dims CAP banks.entry.queries.slots) order.now k
        (record { ranks = all.old.items; sides = sides_of banks.entry.queries banks.entry.replies; turns = steps.old })
        (record { ranks = all.new.items; sides = sides_of b.queries b.replies; turns = steps.new })) }
    ensures over { OnOk result ((r : ℕ) (n : BiState A) → slice_get all.new.items r ≡ Some n → is_over n ≡ true) }
    ensures on_bank { (steady : Bool) (starts : ℕ → A)
        → BiRanksOnBanks A.talk banks.entry.queries.dims CAP banks.entry.queries.slots steady starts all.old.items
        (sides_of banks.entry.queries banks.entry.replies)
        → IfOk result (λ b. BiRanksOnBanks A.talk banks.entry.queries.dims CAP banks.entry.queries.slots steady starts
        all.new.items (sides_of b.queries b.replies)) }
    // Each rank made a turn at least.
    ensures fewest { list_all is_over all.old.items ≡ false
        → OnOk result (steps.old + ranks banks.entry.queries.dims ≤ steps.new) }
    // A turn posts at most one parcel on a link of either way.
    ensures posted { IfOk result (λ b. PostedWithin banks.entry.queries.dims
        (sides_of banks.entry.queries banks.entry.replies) steps.old (sides_of b.queries b.replies) steps.new) }
    ensures steps { (steady : Bool) (starts : ℕ → A)
        → BiRanksOnBanks A.talk banks.entry.queries.dims CAP banks.entry.queries.slots steady starts all.old.items
        (sides_of banks.entry.queries banks.entry.replies)
        → steps.new ≤ steps.old + bi_turns_of banks.entry.queries.dims (queries_in A.talk all.old.items) }
{
    closes_law();
    rest_law();
    let mut banks = banks;
    loop {
        if all_over(all) {
            return Ok(banks);
        }
        banks = sweep(banks, all, order, steps)?;
    }
}

/// Whether both ways of each rank are complete.
fn all_over<const CAP: usize, const HOPS: usize, A: Asker>(all: &[BiNode<A, CAP, HOPS>]) -> bool
    ensures { result ≡ list_all is_over all.now }
{
    for node in all {
        if !node.is_over() {
            return false;
        }
    }
    true
}
