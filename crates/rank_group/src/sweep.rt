//! Turns the nodes of all ranks over one plain bank, sweep after sweep.
//!
//! Over conveyors, in a sweep some parcel is posted or collected, or some entry is taken from an
//! inbox; or else the least epoch is over for every rank that is in it. Each of these happens only
//! so often, which bounds the number of sweeps.
//!
//! Over exstacks a rank finishes rounds, whose posts are their first halves and whose collects are
//! their second. In a sweep each rank gets half a round further than the last of them was, since
//! ranks that have finished as many rounds don't keep each other; and an epoch has only so many
//! rounds.
ghost use Rattle.std.specs.Prelude.{◌≡◌, ℕ, ◌+◌, ◌^◌, ◌<◌, ◌≤◌, List, length, slice_get, Some, IfOk, false};
ghost use Rattle.route_tensor.specs.Grid.{ranks};
ghost use Rattle.port_bank.specs.Plain.{sent_of, got_of};
ghost use Rattle.port_bank.specs.Logs.{starting_at, ending_at};
ghost use Rattle.rank_group.specs.Closes.{ClosesLaws};
ghost use Rattle.rank_node.specs.Movers.{Manner, mover_dims, mover_rank, epoch_in};
ghost use Rattle.rank_node.specs.Nodes.{IsNode};
ghost use Rattle.rank_group.specs.RanksOverBank.{DrivePlan, RanksOnBank, MayTurnRanks, MaySweep, AfterTurns, AfterSomeTurns, KeepsBank};
ghost use Rattle.rank_group.specs.Ranks.{RankState, HasRank, AfterTurn, AfterRank};
ghost use Rattle.rank_group.specs.Turns.{OnlyAt, IsTurnOf, TurnsOf, scene_of, turn_count};

use bale_items::{NoMemory, Steps};
use port_bank::PlainBank;
use rank_node::{Node, Turn};
use round_program::Program;
use std::marker::Model;
use std::sync::ledger::Ledger;

/// A rank of a drive.
#[derive(Drop)]
pub struct Rank<Q, const CAP: usize, const HOPS: usize> {
    pub(crate) node: Node<Q, CAP, HOPS>,
    /// No epoch follows: the node isn't turned again.
    pub(crate) over: bool,
}

impl<Q, const CAP: usize, const HOPS: usize> Model for Rank<Q, CAP, HOPS> {
    ghost use Rattle.rank_group.specs.Ranks.{RankState};

    ghost Value = { RankState Q };

    ghost view = { λ r. record { node = r.node; over = r.over } };
}

/// Turns the node of a rank, if its run isn't over, and goes on to its next epoch, if one has
/// ended.
fn turn_rank<const CAP: usize, const HOPS: usize, Q: Program, L: Ledger>(
    bank: PlainBank<CAP>,
    rank: &mut Rank<Q, CAP, HOPS>,
    number: u32,
    steps: &mut Steps<L>,
) -> Result<PlainBank<CAP>, NoMemory>
    requires number { number < ranks bank.dims }
    requires few { epoch_in rank.old.node.mover < 2 ^ 63 }
    requires rank { (manner : _) × (h : ℕ → Q) × HasRank Q.rules bank.dims CAP manner number h rank.old (sent_of bank)
        (got_of bank) }
    ensures bank { IfOk result (KeepsBank CAP bank.entry) }
    ensures most_steps { steps.new ≤ steps.old + 1 }
    ensures fewest_steps { steps.old ≤ steps.new }
    ensures steps { IfOk result (λ b. steps.new ≡ steps.old + turn_count rank.old) }
    ensures turned { IfOk result (λ b. AfterRank Q.rules bank.entry.dims CAP bank.entry.slots number rank.old rank.new
        (sent_of bank.entry) (got_of bank.entry) (sent_of b) (got_of b)) }
{
    if rank.over {
        return Ok(bank);
    }
    let (bank, turn) = turn_node(bank, &mut rank.node, number, steps)?;
    match turn {
        Turn::Going => Ok(bank),
        Turn::Ended => {
            rank.over = !rank.node.next()?;
            Ok(bank)
        }
    }
}

/// Turns a node over its rank's port.
fn turn_node<const CAP: usize, const HOPS: usize, Q: Program, L: Ledger>(
    bank: PlainBank<CAP>,
    node: &mut Node<Q, CAP, HOPS>,
    number: u32,
    steps: &mut Steps<L>,
) -> Result<(PlainBank<CAP>, Turn), NoMemory>
    requires number { number < ranks bank.dims }
    requires same_dims { mover_dims node.old.mover ≡ bank.dims }
    requires same_rank { mover_rank node.old.mover ≡ number }
    requires node { (h : ℕ → Q) × IsNode Q.rules h node.old (starting_at bank.dims number (sent_of bank))
        (ending_at bank.dims number (got_of bank)) }
    ensures bank { IfOk result (λ b. KeepsBank CAP bank.entry b.0) }
    ensures steps { steps.new ≡ steps.old + 1 }
    ensures turned { IfOk result (λ b. AfterTurn Q.rules bank.entry.dims CAP bank.entry.slots number b.1 node.old
        node.new (sent_of bank.entry) (got_of bank.entry) (sent_of b.0) (got_of b.0)) }
{
    let mut port = bank.port(number);
    let turn = node.turn(&mut port, steps)?;
    Ok((port.into_bank(), turn))
}

/// Turns the rank with a number.
fn turn_one<const CAP: usize, const HOPS: usize, Q: Program, L: Ledger>(
    bank: PlainBank<CAP>,
    all: &mut Vec<Rank<Q, CAP, HOPS>>,
    number: u32,
    steps: &mut Steps<L>,
) -> Result<PlainBank<CAP>, NoMemory>
    requires number { number < ranks bank.dims }
    requires law { ClosesLaws }
    requires turns { MayTurnRanks Q.rules CAP bank all.old.items }
    ensures only { OnlyAt number all.old.items all.new.items }
    ensures bank { IfOk result (KeepsBank CAP bank.entry) }
    ensures most_steps { steps.new ≤ steps.old + 1 }
    ensures fewest_steps { steps.old ≤ steps.new }
    ensures turned { IfOk result (λ b. IsTurnOf Q.rules bank.entry.dims CAP bank.entry.slots number
        (scene_of bank.entry all.old.items steps.old) (scene_of b all.new.items steps.new)) }
{
    turn_rank(bank, &mut all[number as usize], number, steps)
}

/// Turns each rank once, in the order given.
pub(crate) fn sweep<const CAP: usize, const HOPS: usize, Q: Program, L: Ledger>(
    bank: PlainBank<CAP>,
    all: &mut Vec<Rank<Q, CAP, HOPS>>,
    order: &[u32],
    steps: &mut Steps<L>,
) -> Result<PlainBank<CAP>, NoMemory>
    requires law { ClosesLaws }
    requires sweeps { MaySweep Q.rules CAP bank order.now all.old.items }
    ensures turns { IfOk result (λ b. AfterTurns CAP bank.entry b all.old.items all.new.items steps.old steps.new) }
    ensures most_steps { steps.new ≤ steps.old + length order.now }
    ensures some_step { (r : ℕ) (x : RankState Q) → slice_get all.old.items r ≡ Some x → x.over ≡ false
        → IfOk result (λ b. steps.old < steps.new) }
    ensures order { IfOk result (λ b. TurnsOf Q.rules bank.entry.dims CAP bank.entry.slots order.now
        (scene_of bank.entry all.old.items steps.old) (scene_of b all.new.items steps.new)) }
    ensures swept { (manner : Manner) (starts : List Q) (n : ℕ) (h : ℕ → ℕ → Q)
        → DrivePlan Q.rules bank.entry.dims bank.entry.slots starts n
        → (w : RanksOnBank Q.rules bank.entry.dims CAP bank.entry.slots manner starts h all.old.items
        (sent_of bank.entry)
        (got_of bank.entry))
        → IfOk result (λ b. AfterSomeTurns Q.rules bank.entry.dims CAP bank.entry.slots manner starts order.now
        (length order.now) w.cycle all.old.items (sent_of bank.entry) (got_of bank.entry) all.new.items (sent_of b)
        (got_of b)) }
{
    let mut bank = bank;
    for i in 0..order.len() {
        bank = turn_one(bank, all, order[i], steps)?;
    }
    Ok(bank)
}
