//! Turns the ranks over two plain banks.
//!
//! In a sweep some parcel is posted or collected on one of the ways, or some entry is taken from an
//! inbox; or else both ways are complete for every rank. Each of these happens only so often, which
//! bounds the number of sweeps.

ghost use Rattle.std.specs.Prelude.{◌≡◌, ℕ, ◌+◌, ◌<◌, ◌≤◌, Bool, length, slice_get, Some, IfOk, OnOk};
ghost use Rattle.route_tensor.specs.Grid.{ranks};
ghost use Rattle.query_node.specs.States.{BiState};
ghost use Rattle.query_node.specs.Ranks.{HasBiRank};
ghost use Rattle.rank_group.specs.Turns.{OnlyAt, InTurn};
ghost use Rattle.biconvey.specs.Turns.{IsAskingTurn};
ghost use Rattle.biconvey.specs.RanksOverBanks.{AreBanks, MaySweepBoth, AfterBiRank, PostedWithin, BiRanksOnBanks, AfterSomeBiTurns, sides_of};

use bale_items::{NoMemory, Steps};
use port_bank::PlainBank;
use query_node::BiNode;
use round_program::Asker;
use std::sync::ledger::Ledger;

/// The banks of both ways.
#[derive(Drop)]
pub(crate) struct Banks<const CAP: usize> {
    pub(crate) queries: PlainBank<CAP>,
    pub(crate) replies: PlainBank<CAP>,
}

/// Turns a rank over its ports.
fn turn_node<const CAP: usize, const HOPS: usize, A: Asker, L: Ledger>(
    banks: Banks<CAP>,
    node: &mut BiNode<A, CAP, HOPS>,
    number: u32,
    steps: &mut Steps<L>,
) -> Result<Banks<CAP>, NoMemory>
    requires number { number < ranks banks.queries.dims }
    requires banks { AreBanks CAP banks.queries.dims banks.queries.slots banks.queries banks.replies }
    requires rank { (start : A) × HasBiRank A.talk banks.queries.dims number start node.old
        (sides_of banks.queries banks.replies) }
    ensures banks { IfOk result (λ b. AreBanks CAP banks.entry.queries.dims banks.entry.queries.slots b.queries
        b.replies) }
    ensures steps { steps.new ≡ steps.old + 1 }
    ensures turned { IfOk result (λ b. AfterBiRank A.talk banks.entry.queries.dims CAP banks.entry.queries.slots number
        node.old node.new (sides_of banks.entry.queries banks.entry.replies) (sides_of b.queries b.replies)) }
{
    let Banks { queries, replies } = banks;
    let mut asking = queries.port(number);
    let mut replying = replies.port(number);
    let _turn = node.turn(&mut asking, &mut replying, steps)?;
    Ok(Banks {
        queries: asking.into_bank(),
        replies: replying.into_bank(),
    })
}

/// Turns the rank with a number.
fn turn_one<const CAP: usize, const HOPS: usize, A: Asker, L: Ledger>(
    banks: Banks<CAP>,
    all: &mut Vec<BiNode<A, CAP, HOPS>>,
    number: u32,
    steps: &mut Steps<L>,
) -> Result<Banks<CAP>, NoMemory>
    requires number { number < ranks banks.queries.dims }
    requires banks { AreBanks CAP banks.queries.dims banks.queries.slots banks.queries banks.replies }
    requires on_bank { (steady : Bool) × (starts : ℕ → A)
        × BiRanksOnBanks A.talk banks.queries.dims CAP banks.queries.slots steady starts all.old.items
        (sides_of banks.queries banks.replies) }
    ensures only { OnlyAt number all.old.items all.new.items }
    ensures banks { IfOk result (λ b. AreBanks CAP banks.entry.queries.dims banks.entry.queries.slots b.queries
        b.replies) }
    ensures steps { steps.new ≡ steps.old + 1 }
    ensures turned { (n n' : BiState A) → slice_get all.old.items number ≡ Some n
        → slice_get all.new.items number ≡ Some n'
        → IfOk result (λ b. AfterBiRank A.talk banks.entry.queries.dims CAP banks.entry.queries.slots number n n'
        (sides_of banks.entry.queries banks.entry.replies) (sides_of b.queries b.replies)) }
{
    turn_node(banks, &mut all[number as usize], number, steps)
}

/// Turns each rank once, in the order given.
pub(crate) fn sweep<const CAP: usize, const HOPS: usize, A: Asker, L: Ledger>(
    banks: Banks<CAP>,
    all: &mut Vec<BiNode<A, CAP, HOPS>>,
    order: &[u32],
    steps: &mut Steps<L>,
) -> Result<Banks<CAP>, NoMemory>
    requires sweeps { MaySweepBoth A.talk CAP banks.queries banks.replies order.now all.old.items }
    ensures banks { IfOk result (λ b. AreBanks CAP banks.entry.queries.dims banks.entry.queries.slots b.queries
        b.replies) }
    ensures most_steps { steps.new ≤ steps.old + length order.now }
    ensures fewest_steps { OnOk result (steps.old + length order.now ≤ steps.new) }
    // A turn posts at most one parcel on a link of either way.
    ensures posted { IfOk result (λ b. PostedWithin banks.entry.queries.dims
        (sides_of banks.entry.queries banks.entry.replies) steps.old (sides_of b.queries b.replies) steps.new) }
    ensures order { IfOk result (λ b. InTurn
        (IsAskingTurn A.talk banks.entry.queries.dims CAP banks.entry.queries.slots) order.now
        (record { ranks = all.old.items; sides = sides_of banks.entry.queries banks.entry.replies; turns = steps.old })
        (record { ranks = all.new.items; sides = sides_of b.queries b.replies; turns = steps.new })) }
    ensures swept { (steady : Bool) (starts : ℕ → A)
        → BiRanksOnBanks A.talk banks.entry.queries.dims CAP banks.entry.queries.slots steady starts all.old.items
        (sides_of banks.entry.queries banks.entry.replies)
        → IfOk result (λ b. AfterSomeBiTurns A.talk banks.entry.queries.dims CAP banks.entry.queries.slots steady starts
        order.now (length order.now) all.old.items (sides_of banks.entry.queries banks.entry.replies) all.new.items
        (sides_of b.queries b.replies)) }
{
    let mut banks = banks;
    for i in 0..order.len() {
        banks = turn_one(banks, all, order[i], steps)?;
    }
    Ok(banks)
}
