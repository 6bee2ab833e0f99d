//! One call that drives an exchange of queries and replies on one thread.

ghost use Rattle.std.specs.Prelude.{◌≡◌, ◌+◌, ◌<◌, ◌≤◌, false, [], ◌∷◌, length, IfOk};
ghost use Rattle.item_buffer.specs.Capacity.{IsCap};
ghost use Rattle.std.specs.List.{sum_by};
ghost use Rattle.route_tensor.specs.Grid.{ranks};
ghost use Rattle.port_bank.specs.Port.{IsSlots};
ghost use Rattle.port_bank.specs.Plain.{IsBank, empty_bank, round_of_bank};
ghost use Rattle.port_bank.specs.Round.{IsRound};
ghost use Rattle.rank_group.specs.declared.closed_round.ClosedRound.{ClosedRound};
ghost use Rattle.rank_group.specs.Ranks.{IsOrder};
ghost use Rattle.rank_group.specs.Rounds.{round_inside};
ghost use Rattle.biconvey.specs.RanksOverBanks.{bi_turns_of};
ghost use Rattle.biconvey.specs.Drives.{AreAskers, askers_of};
ghost use Rattle.biconvey.specs.DrivePromises.{HasExchanged, HasSweptBoth};
ghost use Rattle.rank_node.specs.Fits.{FitsGrid};

use crate::nodes::{nodes_of, take_askers};
use crate::sweep::Banks;
use crate::sweeps::run_all;
use bale_items::{NoMemory, Steps};
use convey::closes_law;
use port_bank::PlainBank;
use query_node::BiNode;
use rank_group::{ClosedRound, Finished, Rounds};
use round_program::{Asker, Progs};
use route_tensor::Grid;
use std::alloc::Global;
use std::sync::ledger::Ledger;

/// Drives the askers of all ranks over two banks, of queries and of replies, with parcels of `CAP`
/// entries and `slots` (1, 2, 4 or 8) parcels on a link at a time. Each sweep turns the ranks in
/// the order given, until both ways of each are complete.
/// Each turn raises `steps` by one.
///
/// # Errors
/// `NoMemory` if a rank, a bank or the result found none. The askers are dropped.
pub fn drive_both<const CAP: usize, const HOPS: usize, A: Asker, L: Ledger>(
    alloc: Global,
    grid: &Grid,
    slots: u32,
    steady: bool,
    order: &[u32],
    askers: Progs<A>,
    steps: &mut Steps<L>,
) -> Result<Finished<A>, NoMemory>
    requires fits { FitsGrid CAP HOPS grid.now }
    requires slots { IsSlots slots }
    requires order { IsOrder (ranks grid.now) order.now }
    requires askers { AreAskers A.talk (ranks grid.now) askers }
    ensures exchanged { IfOk result (HasExchanged A.talk askers
        (record { dims = grid.now; cap = CAP; slots = slots; by_slots = false }) steady) }
    ensures swept { IfOk result (HasSweptBoth A.talk askers
        (record { dims = grid.now; cap = CAP; slots = slots; by_slots = false }) steady
        order.now steps.old steps.new) }

    // The turns are bounded before the exchange, also if it ends in `NoMemory`.
    ensures steps { steps.new ≤ steps.old + bi_turns_of grid.now (sum_by (λ s. length (A.talk.queries s)) askers) }
{
    closes_law();
    let mut all = nodes_of::<CAP, HOPS, A>(alloc, grid, steady, askers)?;
    let banks = two_banks::<CAP>(alloc, grid, slots)?;
    let banks = run_all(banks, &mut all, order, steps)?;
    finish(alloc, banks, all)
}

/// Two banks on which nothing was sent.
fn two_banks<const CAP: usize>(
    alloc: Global,
    grid: &Grid,
    slots: u32,
) -> Result<Banks<CAP>, NoMemory>
    requires cap { IsCap CAP }
    requires slots { IsSlots slots }
    ensures queries { IfOk result (λ b. b.queries ≡ empty_bank grid.now slots) }
    ensures replies { IfOk result (λ b. b.replies ≡ empty_bank grid.now slots) }
    ensures lawful { IfOk result (λ b. IsBank CAP (empty_bank grid.now slots)) }
{
    let queries = PlainBank::<CAP>::new(alloc, grid, slots)?;
    let replies = PlainBank::<CAP>::new(alloc, grid, slots)?;
    Ok(Banks { queries, replies })
}

/// What an exchange leaves.
fn finish<const CAP: usize, const HOPS: usize, A: Asker>(
    alloc: Global,
    banks: Banks<CAP>,
    all: Vec<BiNode<A, CAP, HOPS>>,
) -> Result<Finished<A>, NoMemory>
    ensures progs { IfOk result (λ f. f.progs ≡ askers_of all.items) }
    ensures rounds { IfOk result (λ f. (q : ClosedRound) × (r : ClosedRound) × (f.rounds ≡ q ∷ r ∷ [])
        × (round_inside q ≡ round_of_bank CAP banks.entry.queries) × IsRound (round_inside q)
        × (round_inside r ≡ round_of_bank CAP banks.entry.replies) × IsRound (round_inside r)) }
{
    let Banks { queries, replies } = banks;
    let mut rounds = Rounds::new(alloc);
    rounds.add(ClosedRound::Plain(queries.close()))?;
    rounds.add(ClosedRound::Plain(replies.close()))?;
    let progs = take_askers::<CAP, HOPS, A>(alloc, all)?;
    Ok(Finished { progs, rounds })
}
