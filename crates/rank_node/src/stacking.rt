//! A rank whose items travel by an exstack.
ghost use Rattle.std.specs.Prelude.{◌≡◌, ◌≢◌, ℕ, ◌^◌, ◌<◌, true, false, length, Some, IfOk, IsOk, OnOk, Ok};
ghost use Rattle.item_buffer.specs.Capacity.{IsCap};
ghost use Rattle.route_tensor.specs.Grid.{ranks};
ghost use Rattle.exstack.specs.State.{stack_unread, lowest_unread_sender, may_exchange, may_proceed};
ghost use Rattle.exstack.specs.Agreement.{cycle_after};
ghost use Rattle.rank_node.specs.Movers.{IsNew, GoesToNextEpoch};
ghost use Rattle.rank_node.specs.Movers.MoverState.{Stacking};
ghost use Rattle.rank_node.specs.Movers.Manner.{ByExstack};
ghost use Rattle.port_bank.specs.Logs.{Logs};
ghost use Rattle.rank_node.specs.Pushes.{MayFillOn};
ghost use Rattle.rank_node.specs.Pulls.{PopsItems, FillsItems};
ghost use Rattle.rank_node.specs.Runs.{running};
ghost use Rattle.rank_node.specs.Sending.{to_send};
ghost use Rattle.rank_node.specs.Nodes.{IsNode};
ghost use Rattle.rank_node.specs.Moves.{AfterFill, MayTurn};
ghost use Rattle.rank_node.specs.Cycles.{InCycle, InExchange};
ghost use Rattle.rank_node.specs.Turns.{Turns, TurnsInFull, Polls};

use crate::arrivals::FromSender;
use crate::departures::OnExstack;
use crate::run::Run;
use crate::sends::{Sends, count_of, send_each, votes_now};
use crate::taking::{Taken, take_each};
use crate::turn::Turn;
use bale_items::NoMemory;
use exstack::{Exstack, Proceed, Stage};
use port_bank::Port;
use round_program::Program;
use route_tensor::Grid;
use std::alloc::Global;

/// One turn: one poll, which the stage at entry decides. A proceed poll comes after all that came
/// is taken in, and says that the rank is done if all is pushed; an exchange poll that begins
/// its round comes after pushes, in order, until one is refused or all is pushed.
pub(crate) fn turn_exstack<const CAP: usize, Q: Program, P: Port<CAP>>(
    run: &mut Run<Q>,
    exstack: &mut Exstack<CAP>,
    port: &mut P,
) -> Result<Turn, NoMemory>
    requires turns { MayTurn Q.rules (record { run = running run.old; mover = Stacking CAP exstack.old })
        (P.view port.old) }
    ensures turns { Turns CAP Q.rules (record { run = running run.old; mover = Stacking CAP exstack.old })
        (record { run = running run.new; mover = Stacking CAP exstack.new }) (P.view port.old) (P.view port.new) }
    ensures in_full { OnOk result (TurnsInFull Q.rules
        (record { run = running run.old; mover = Stacking CAP exstack.old })
        (record { run = running run.new; mover = Stacking CAP exstack.new }) (P.view port.old) (P.view port.new)) }
    ensures memory { P.Memory.GROWS ≡ false → IsOk result }
    ensures ended { result ≡ Ok Turn.Ended → exstack.new.stage ≡ Stage.AllDone }
    ensures going { result ≡ Ok Turn.Going → exstack.new.stage ≢ Stage.AllDone }
{
    match exstack.stage() {
        Stage::Start | Stage::Proceeding | Stage::Full => proceed(run, exstack, port),
        Stage::Filling => {
            fill(run, exstack);
            exchange(run, exstack, port)
        }
        Stage::Exchanging => exchange(run, exstack, port),
        Stage::AllDone => Ok(Turn::Ended),
    }
}

/// Takes in what came, and makes what is missing of a proceed round.
fn proceed<const CAP: usize, Q: Program, P: Port<CAP>>(
    run: &mut Run<Q>,
    exstack: &mut Exstack<CAP>,
    port: &mut P,
) -> Result<Turn, NoMemory>
    requires may { may_proceed exstack.old.stage ≡ true }
    requires turns { MayTurn Q.rules (record { run = running run.old; mover = Stacking CAP exstack.old })
        (P.view port.old) }
    ensures polls { Polls CAP Q.rules (running run.old) (running run.new) exstack.old exstack.new (P.view port.old)
        (P.view port.new) }
    ensures cycle { (quota : ℕ → ℕ) (n : ℕ) → InCycle Q.rules quota n (running run.old) exstack.old
        (P.view port.old).sent
        (P.view port.old).got
        → InCycle Q.rules quota (cycle_after n exstack.old.stage) (running run.new) exstack.new (P.view port.new).sent
        (P.view port.new).got }
    ensures in_full { OnOk result (TurnsInFull Q.rules
        (record { run = running run.old; mover = Stacking CAP exstack.old })
        (record { run = running run.new; mover = Stacking CAP exstack.new }) (P.view port.old) (P.view port.new)) }
    ensures memory { P.Memory.GROWS ≡ false → IsOk result }
    ensures ended { result ≡ Ok Turn.Ended → exstack.new.stage ≡ Stage.AllDone }
    ensures going { result ≡ Ok Turn.Going → exstack.new.stage ≢ Stage.AllDone }
{
    let voting = votes_now(run.sends);
    run.taken = pop_all(&mut run.prog, exstack, voting, run.taken);
    let done = run.next == count_of(&run.prog, run.sends);
    let polled = exstack.poll_proceed(port, done);
    exstack.known();
    match polled? {
        Proceed::GoOn | Proceed::NotYet(_) => Ok(Turn::Going),
        Proceed::AllDone => Ok(Turn::Ended),
    }
}

/// Makes what is missing of an exchange round.
fn exchange<const CAP: usize, Q: Program, P: Port<CAP>>(
    run: &mut Run<Q>,
    exstack: &mut Exstack<CAP>,
    port: &mut P,
) -> Result<Turn, NoMemory>
    requires may { may_exchange exstack.old.stage ≡ true }
    requires turns { MayTurn Q.rules (record { run = running run.old; mover = Stacking CAP exstack.old })
        (P.view port.old) }
    ensures polls { Polls CAP Q.rules (running run.old) (running run.new) exstack.old exstack.new (P.view port.old)
        (P.view port.new) }
    ensures cycle { (quota : ℕ → ℕ) (n : ℕ) → InExchange Q.rules quota n (running run.old) exstack.old
        (P.view port.old).sent
        (P.view port.old).got
        → InCycle Q.rules quota n (running run.new) exstack.new (P.view port.new).sent (P.view port.new).got }
    ensures in_full { OnOk result (TurnsInFull Q.rules
        (record { run = running run.old; mover = Stacking CAP exstack.old })
        (record { run = running run.new; mover = Stacking CAP exstack.new }) (P.view port.old) (P.view port.new)) }
    ensures memory { P.Memory.GROWS ≡ false → IsOk result }
    ensures going { IfOk result (λ t. t ≡ Turn.Going) }
    ensures stage { exstack.new.stage ≢ Stage.AllDone }
{
    let polled = exstack.poll_exchange(port);
    exstack.known();
    let _made = polled?;
    Ok(Turn::Going)
}

/// Pushes what is left to send, in order, until a push is refused or all is pushed.
fn fill<const CAP: usize, Q: Program>(run: &mut Run<Q>, exstack: &mut Exstack<CAP>)
    requires filling { exstack.old.stage ≡ Stage.Filling }
    requires node { (h : ℕ → Q) × (sent : Logs) × (got : Logs)
        × IsNode Q.rules h (record { run = running run.old; mover = Stacking CAP exstack.old }) sent got }
    ensures cycle { (quota : ℕ → ℕ) (n : ℕ) (sent got : Logs)
        → InCycle Q.rules quota n (running run.old) exstack.old sent got
        → InExchange Q.rules quota n (running run.new) exstack.new sent got }
    ensures filled { AfterFill Q.rules CAP (running run.old) (running run.new) exstack.old exstack.new }
    ensures same { exstack.new ≡ record exstack.old { outs = exstack.new.outs; popped = exstack.new.popped } }
{
    run.next = push_on(&run.prog, run.sends, exstack, run.next);
    exstack.known();
}

/// Pushes the items to send from number `from` on, in order, until one is refused or all are
/// pushed. Answers how many are pushed by then.
fn push_on<const CAP: usize, Q: Program>(
    prog: &Box<Q>,
    sends: Sends,
    exstack: &mut Exstack<CAP>,
    from: u64,
) -> u64
    requires { MayFillOn (to_send Q.rules prog.now.value sends) exstack.old from }
    ensures { FillsItems CAP (to_send Q.rules prog.now.value sends) exstack.old exstack.new from result }
{
    let mut out = OnExstack { exstack };
    push_each(prog, sends, &mut out, from)
}

/// Pushes the items to send through `out`, which is the exstack before and after it.
fn push_each<const CAP: usize, Q: Program>(
    prog: &Box<Q>,
    sends: Sends,
    out: &mut OnExstack<'_, CAP>,
    from: u64,
) -> u64
    requires { MayFillOn (to_send Q.rules prog.now.value sends) out.old.exstack.now from }
    ensures fills { FillsItems CAP (to_send Q.rules prog.now.value sends) out.old.exstack.now out.new.exstack.now from
        result }
    ensures same_exstack { out.new.exstack.ghost_name ≡ out.old.exstack.ghost_name }
{
    send_each(prog, sends, from, out)
}

/// Pops until nothing is left, and sums or absorbs what came.
fn pop_all<const CAP: usize, Q: Program>(
    prog: &mut Box<Q>,
    exstack: &mut Exstack<CAP>,
    voting: bool,
    taken: Taken,
) -> Taken
    ensures pops { PopsItems Q.rules voting exstack.old exstack.new prog.old.value prog.new.value taken.sum result.sum
        taken.spoiled result.spoiled }
    ensures read { stack_unread exstack.new ≡ 0 }
{
    let mut taken = taken;
    while let Some(sender) = exstack.next_sender() {
        taken = pop_batch(prog, exstack, sender, voting, taken);
    }
    taken
}

/// Sums or absorbs all unread items of the sender from which the next pop takes.
fn pop_batch<const CAP: usize, Q: Program>(
    prog: &mut Box<Q>,
    exstack: &mut Exstack<CAP>,
    sender: u32,
    voting: bool,
    taken: Taken,
) -> Taken
    requires lowest { lowest_unread_sender exstack.old ≡ Some sender }
    ensures pops { PopsItems Q.rules voting exstack.old exstack.new prog.old.value prog.new.value taken.sum result.sum
        taken.spoiled result.spoiled }
    ensures less { stack_unread exstack.new < stack_unread exstack.old }
{
    exstack.known();
    let came = FromSender {
        sender,
        entries: exstack.batch(sender),
    };
    let taken = take_each(prog, voting, came, taken);
    exstack.pop_all(sender);
    taken
}

/// The exstack of `rank`, at the start of its first epoch.
pub(crate) fn new_exstack<const CAP: usize>(
    alloc: Global,
    grid: &Grid,
    rank: u32,
) -> Result<Exstack<CAP>, NoMemory>
    requires cap { IsCap CAP }
    requires one_hop { length grid.now ≡ 1 }
    requires rank { rank < ranks grid.now }
    ensures { IfOk result (λ x. IsNew grid.now rank ByExstack (Stacking CAP x)) }
{
    let exstack = Exstack::new(alloc, grid, rank)?;
    exstack.known();
    Ok(exstack)
}

/// Goes from an epoch that is over to the next.
pub(crate) fn reset_exstack<const CAP: usize>(exstack: &mut Exstack<CAP>)
    requires all_done { exstack.old.stage ≡ Stage.AllDone }
    requires epochs { exstack.old.epoch < 2 ^ 63 }
    ensures { GoesToNextEpoch (Stacking CAP exstack.old) (Stacking CAP exstack.new) }
{
    exstack.reset();
    exstack.known();
}
