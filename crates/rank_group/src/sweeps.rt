//! Sweeps over all ranks, until the run of each is over.
ghost use Rattle.std.specs.Prelude.{◌≡◌, ℕ, ◌+◌, ◌≤◌, true, slice_get, Some, IfOk, OnOk};
ghost use Rattle.std.specs.List.{list_all};
ghost use Rattle.port_bank.specs.Plain.{sent_of, got_of};
ghost use Rattle.rank_node.specs.Movers.{Manner};
ghost use Rattle.rank_group.specs.Transcript.{turns_within};
ghost use Rattle.rank_group.specs.RanksOverBank.{DrivePlan, RanksOnBank, MayRunAll, AfterTurns};
ghost use Rattle.rank_group.specs.Ranks.{RankState};
ghost use Rattle.rank_group.specs.Turns.{SweepsOf, scene_of};

use crate::closes::closes_laws;
use crate::sweep::{Rank, sweep};
use bale_items::{NoMemory, Steps};
use convey::rest_law;
use port_bank::PlainBank;
use round_program::Program;
use std::sync::ledger::Ledger;

/// Turns all ranks, sweep after sweep, until no epoch follows for any.
pub(crate) fn run_all<const CAP: usize, const HOPS: usize, Q: Program, L: Ledger>(
    bank: PlainBank<CAP>,
    all: &mut Vec<Rank<Q, CAP, HOPS>>,
    order: &[u32],
    steps: &mut Steps<L>,
) -> Result<PlainBank<CAP>, NoMemory>
    requires runs { MayRunAll Q.rules CAP bank order.now all.old.items }
    ensures turns { IfOk result (λ b. AfterTurns CAP bank.entry b all.old.items all.new.items steps.old steps.new) }
    // It made sweeps in this order, and no other turn.
    ensures order { IfOk result (λ b. (k : ℕ) × SweepsOf Q.rules bank.entry.dims CAP bank.entry.slots order.now k
        (scene_of bank.entry all.old.items steps.old) (scene_of b all.new.items steps.new)) }
    ensures over { OnOk result ((r : ℕ) (x : RankState Q) → slice_get all.new.items r ≡ Some x → x.over ≡ true) }
    ensures on_bank { (manner : Manner) (starts : _) (n : ℕ) (h : ℕ → ℕ → Q)
        → DrivePlan Q.rules bank.entry.dims bank.entry.slots starts n
        → RanksOnBank Q.rules bank.entry.dims CAP bank.entry.slots manner starts h all.old.items (sent_of bank.entry)
        (got_of bank.entry)
        → IfOk result (λ b. (g : ℕ → ℕ → Q)
        × RanksOnBank Q.rules bank.entry.dims CAP bank.entry.slots manner starts g all.new.items (sent_of b)
        (got_of b)) }
    ensures steps { (manner : Manner) (starts : _) (n : ℕ) (h : ℕ → ℕ → Q)
        → DrivePlan Q.rules bank.entry.dims bank.entry.slots starts n
        → RanksOnBank Q.rules bank.entry.dims CAP bank.entry.slots manner starts h all.old.items (sent_of bank.entry)
        (got_of bank.entry)
        → steps.new ≤ steps.old + turns_within Q.rules manner bank.entry.dims starts n }
{
    closes_laws();
    rest_law();
    let mut bank = bank;
    loop {
        if all_over(all) {
            return Ok(bank);
        }
        bank = sweep(bank, all, order, steps)?;
    }
}

/// Whether no epoch follows for any rank.
fn all_over<const CAP: usize, const HOPS: usize, Q: Program>(all: &[Rank<Q, CAP, HOPS>]) -> bool
    ensures { result ≡ list_all (λ x. x.over) all.now }
{
    for rank in all {
        if !rank.over {
            return false;
        }
    }
    true
}
