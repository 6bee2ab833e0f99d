//! Turns a rank over a port that takes no memory.
ghost use Rattle.std.specs.Prelude.{◌≡◌, ◌≢◌, ◌⊎◌, ℕ, ◌+◌, ◌≤◌, true, false, Ok, OnOk};
ghost use Rattle.port_bank.specs.Frames.{SamePort};
ghost use Rattle.rank_node.specs.Movers.{Manner};
ghost use Rattle.rank_group.specs.Ranks.{IsRank, MayTurnRank, progress};

use crate::sweep::Rank;
use bale_items::{NoMemory, Steps};
use port_bank::Port;
use rank_node::Turn;
use round_program::Program;
use std::sync::ledger::Ledger;

/// Turns the node of a rank, and goes on to its next epoch if one has ended. Answers whether it
/// pushed something or an epoch ended.
///
/// # Errors
/// `NoMemory` comes only if no epoch follows.
pub(crate) fn turn_over<const CAP: usize, const HOPS: usize, Q: Program, P: Port<CAP>, L: Ledger>(
    rank: &mut Rank<Q, CAP, HOPS>,
    port: &mut P,
    steps: &mut Steps<L>,
) -> Result<bool, NoMemory>
    requires fixed { P.Memory.GROWS ≡ false }
    requires turns { MayTurnRank Q.rules CAP rank.old (P.view port.old) }
    ensures same_port { SamePort (P.view port.old) (P.view port.new) }
    ensures steps { steps.new ≡ steps.old + 1 }
    ensures epoch { OnOk result (progress rank.new ≤ progress rank.old + 1) }
    ensures pushed { result ≡ Ok true → (rank.new.node.run.next ≢ rank.old.node.run.next)
        ⊎ (progress rank.new ≡ progress rank.old + 1) }
    ensures none { result ≡ Ok false → (rank.new.node.run.next ≡ rank.old.node.run.next)
        × (progress rank.new ≡ progress rank.old) }
    ensures kept { OnOk result ((manner : Manner) (h : ℕ → Q)
        → IsRank Q.rules (P.view port.old).dims CAP manner (P.view port.old).rank h rank.old (P.view port.old).sent
        (P.view port.old).got
        → (g : ℕ → Q) × (g 0 ≡ h 0) × IsRank Q.rules (P.view port.old).dims CAP manner (P.view port.old).rank g rank.new
        (P.view port.new).sent (P.view port.new).got) }
{
    let pushed = rank.node.pushed();
    let Ok(turn) = rank.node.turn(port, steps) else {
        unreachable!()
    };
    match turn {
        Turn::Going => Ok(rank.node.pushed() != pushed),
        Turn::Ended => {
            rank.over = !rank.node.next()?;
            Ok(true)
        }
    }
}
