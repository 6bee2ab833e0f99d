//! ig by queries and replies: the columns are summed in one round, then each rank asks for the sums
//! of its entries' columns, and then the answer is written.
ghost use Rattle.std.specs.Prelude.{◌≡◌, ◌≤◌, ◌+◌, ◌*◌, ◌++◌, ℕ, true, false, List, map, length, OnOk, IfOk};
ghost use Rattle.route_tensor.specs.Grid.{ranks};
ghost use Rattle.rank_node.specs.Movers.{manner_of};
ghost use Rattle.rank_group.specs.Transcript.{turns_within};
ghost use Rattle.biconvey.specs.RanksOverBanks.{bi_turns_of};
ghost use Rattle.round_program.specs.Canonical.{InRound, EndsWithin, HaveEnded};
ghost use Rattle.app_cases.specs.Any.{any_rules, sums_way};
ghost use Rattle.app_histo_ig.specs.Sums.{sums_rules};
ghost use Rattle.app_histo_ig.specs.SumsRuns.{sums_starts};
ghost use Rattle.app_histo_ig.specs.AskingRuns.{AreAskersOf};
ghost use Rattle.app_histo_ig.specs.ColumnAnswers.{IgHeard};
ghost use Rattle.bale_words.specs.Ranges.{InRanges};
ghost use Rattle.bale_runs.specs.Asking.{AskedInOrder, HasSummed, LeftByQueries, RunSweptBy, SweptByAsking, RecordsBy, NotifiedBy, TurnsBy, TurnsOfAsking, FewestBy};
ghost use Rattle.bale_runs.specs.RunEnds.{CommandFits, IsRunEnd};
ghost use Rattle.bale_runs.specs.Jobs.{by_asking};
ghost use Rattle.bale_runs.specs.Runs.{made_for, SweptInOrder};

use crate::exchange::RunEnd;
use app_cases::{AnyProgram, put_all, take_all};
use app_histo_ig::{IgAsker, IgSums, ig_askers, ig_sums_start};
use bale_answers::finish_by_asking;
use bale_items::NoMemory;
use bale_subjects::{Refusal, Subject, in_order};
use bale_types::Sink;
use bale_words::{Command, Task, Travel};
use biconvey::{bi_serial, bi_threads};
use case_table::{case_serial, case_threads};
use mtx_text::Matrix;
use rank_group::{Finished, Gate, Rounds, Steps, Via};
use round_program::Progs;
use std::alloc::Global;
use std::sync::Wait;
use std::sync::ledger::Ledger;
use std::thread::Threads;

/// Runs a command that goes by asking, and writes its answer.
pub(crate) fn ask_serially<K: Sink, L: Ledger>(
    alloc: Global,
    command: &Command,
    subject: &Subject,
    out: &mut K,
    steps: &mut Steps<L>,
) -> Result<RunEnd, Refusal>
    requires asking { by_asking command.now ≡ true }
    requires fit { CommandFits command.now subject.now true }
    ensures finish { IsRunEnd command.now subject.now (RecordsBy true command.now subject.now
        (made_for true command.now)) K.taken K.faults out.old out.new result }
    ensures steps { TurnsBy true command.now subject.now steps.old steps.new }
    ensures fewest { IfOk result (λ f. FewestBy true command.now subject.now steps.old steps.new) }
    ensures swept { IfOk result (λ f. RunSweptBy true command.now subject.now steps.old steps.new f.rounds) }
{
    match subject {
        Subject::Matrix(m) => ask_matrix_serially(alloc, command, m, out, steps),
        Subject::Lines(_) => unreachable!(),
    }
}

/// Runs a command that goes by asking, with its ranks on threads, and writes its answer.
pub(crate) fn ask_on_threads<R: Threads + Wait + Sync, K: Sink, G: Gate + Sync>(
    rt: &R,
    alloc: Global,
    command: &Command,
    subject: &Subject,
    out: &mut K,
    gate: &G,
) -> Result<RunEnd, Refusal>
    requires asking { by_asking command.now ≡ true }
    requires fit { CommandFits command.now subject.now false }
    ensures finish { IsRunEnd command.now subject.now (RecordsBy true command.now subject.now
        (made_for false command.now)) K.taken K.faults out.old out.new result }
    ensures notified { OnOk result (NotifiedBy true command.now subject.now (G.notified gate.now)) }
{
    match subject {
        Subject::Matrix(m) => ask_matrix_on_threads(rt, alloc, command, m, out, gate),
        Subject::Lines(_) => unreachable!(),
    }
}

/// The three closed rounds of a matrix, and then the answer, by the askers after each has heard its
/// replies.
fn ask_matrix_serially<K: Sink, L: Ledger>(
    alloc: Global,
    command: &Command,
    m: &Matrix,
    out: &mut K,
    steps: &mut Steps<L>,
) -> Result<RunEnd, Refusal>
    requires asking { by_asking command.now ≡ true }
    requires ranges { InRanges command.now }
    ensures finish { IsRunEnd command.now (Subject.Matrix m.now) (RecordsBy true command.now (Subject.Matrix m.now)
        (made_for true command.now)) K.taken K.faults out.old out.new result }
    ensures steps { TurnsOfAsking m.now command.now.travel.steady command.now.grid
        steps.old steps.new }
    ensures fewest { IfOk result (λ f. steps.old + 3 * ranks command.now.grid ≤ steps.new) }
    ensures swept { IfOk result (λ f. SweptByAsking m.now (made_for true command.now) command.now.travel.steady
        steps.old steps.new f.rounds) }
{
    let summed = sum_serially(alloc, command, m, steps)?;
    let Finished {
        progs,
        rounds: sums,
    } = summed;
    let replied = hear_serially(alloc, command, m, progs, steps)?;
    finish_asking(command, m, sums, replied, out)
}

/// The three closed rounds of a matrix with the ranks on threads, and then the answer.
fn ask_matrix_on_threads<R: Threads + Wait + Sync, K: Sink, G: Gate + Sync>(
    rt: &R,
    alloc: Global,
    command: &Command,
    m: &Matrix,
    out: &mut K,
    gate: &G,
) -> Result<RunEnd, Refusal>
    requires asking { by_asking command.now ≡ true }
    requires ranges { InRanges command.now }
    ensures finish { IsRunEnd command.now (Subject.Matrix m.now) (RecordsBy true command.now (Subject.Matrix m.now)
        (made_for false command.now)) K.taken K.faults out.old out.new result }
    ensures notified { OnOk result (NotifiedBy true command.now (Subject.Matrix m.now) (G.notified gate.now)) }
{
    let summed = sum_on_threads(rt, alloc, command, m, gate)?;
    let Finished {
        progs,
        rounds: sums,
    } = summed;
    let replied = hear_on_threads(rt, alloc, command, m, progs, gate)?;
    finish_asking(command, m, sums, replied, out)
}

/// The programs that have summed the columns in their one round, and that round.
fn sum_serially<L: Ledger>(
    alloc: Global,
    command: &Command,
    m: &Matrix,
    steps: &mut Steps<L>,
) -> Result<Finished<AnyProgram>, NoMemory>
    requires ranges { InRanges command.now }
    ensures summed { IfOk result (HasSummed m.now (made_for true command.now) command.now.travel.steady) }
    ensures steps { steps.new ≤ steps.old + turns_within sums_rules
        (manner_of Via.Convey command.now.travel.steady) command.now.grid
        (sums_starts (ranks command.now.grid) m.now) 1 }
    ensures fewest { OnOk result (steps.old + 2 * ranks command.now.grid ≤ steps.new) }
    ensures swept { IfOk result (λ run. SweptInOrder (map sums_way.case (sums_starts (ranks command.now.grid) m.now))
        (made_for true command.now) (manner_of Via.Convey command.now.travel.steady)
        steps.old steps.new run.rounds) }
{
    let grid = &command.grid;
    let Travel {
        buffer,
        slots,
        steady,
        ..
    } = command.travel;
    let progs = start_sums(alloc, m, grid.ranks())?;
    let order = in_order(alloc, grid.ranks())?;
    case_serial(
        alloc,
        grid,
        buffer,
        Via::Convey,
        slots,
        steady,
        &order,
        progs,
        steps,
    )
}

/// The programs that have summed the columns on threads in their one round, and that round.
fn sum_on_threads<R: Threads + Wait + Sync, G: Gate + Sync>(
    rt: &R,
    alloc: Global,
    command: &Command,
    m: &Matrix,
    gate: &G,
) -> Result<Finished<AnyProgram>, NoMemory>
    requires ranges { InRanges command.now }
    ensures summed { IfOk result (HasSummed m.now (made_for false command.now) command.now.travel.steady) }
    ensures notified { OnOk result (NotifiedBy true command.now (Subject.Matrix m.now) (G.notified gate.now)) }
{
    let grid = &command.grid;
    let Travel {
        buffer,
        slots,
        steady,
        ..
    } = command.travel;
    let progs = start_sums(alloc, m, grid.ranks())?;
    case_threads(
        rt,
        alloc,
        grid,
        buffer,
        Via::Convey,
        slots,
        steady,
        progs,
        gate,
    )
}

/// The askers that these programs leave, after each has heard its replies, and the rounds of the
/// queries and the replies.
fn hear_serially<L: Ledger>(
    alloc: Global,
    command: &Command,
    m: &Matrix,
    added: Progs<AnyProgram>,
    steps: &mut Steps<L>,
) -> Result<Finished<IgAsker>, NoMemory>
    requires ranges { InRanges command.now }
    requires ended { HaveEnded any_rules (map sums_way.case (sums_starts (ranks command.now.grid) m.now)) added }
    ensures asked { IfOk result (LeftByQueries m.now (made_for true command.now) command.now.travel.steady) }
    ensures steps { steps.new ≤ steps.old + bi_turns_of command.now.grid (length m.now.entries) }
    ensures fewest { OnOk result (steps.old + ranks command.now.grid ≤ steps.new) }
    ensures swept { IfOk result (λ run. AskedInOrder m.now (made_for true command.now) command.now.travel.steady
        steps.old steps.new run.rounds) }
{
    m.known();
    let grid = &command.grid;
    let Travel {
        buffer,
        slots,
        steady,
        ..
    } = command.travel;
    let order = in_order(alloc, grid.ranks())?;
    let askers = start_askers(alloc, m, added)?;
    bi_serial(alloc, grid, buffer, slots, steady, &order, askers, steps)
}

/// The askers that these programs leave, after each has heard its replies on a thread, and the two
/// rounds.
fn hear_on_threads<R: Threads + Wait + Sync, G: Gate + Sync>(
    rt: &R,
    alloc: Global,
    command: &Command,
    m: &Matrix,
    added: Progs<AnyProgram>,
    gate: &G,
) -> Result<Finished<IgAsker>, NoMemory>
    requires ranges { InRanges command.now }
    requires ended { HaveEnded any_rules (map sums_way.case (sums_starts (ranks command.now.grid) m.now)) added }
    ensures { IfOk result (LeftByQueries m.now (made_for false command.now) command.now.travel.steady) }
{
    m.known();
    let grid = &command.grid;
    grid.known();
    let Travel {
        buffer,
        slots,
        steady,
        ..
    } = command.travel;
    let askers = start_askers(alloc, m, added)?;
    bi_threads(rt, alloc, grid, buffer, slots, steady, askers, gate)
}

/// The programs that sum the columns of a matrix, on so many ranks, from 1 to 64.
fn start_sums(alloc: Global, m: &Matrix, ranks: u32) -> Result<Progs<AnyProgram>, NoMemory>
    requires some { 1 ≤ ranks }
    requires few { ranks ≤ 64 }
    ensures starts { IfOk result (λ ps. ps ≡ map sums_way.case (sums_starts ranks m.now)) }
    ensures begins { IfOk result (λ ps. (shape : List ℕ) × (most : ℕ) × InRound any_rules ranks 0 shape most ps
        × EndsWithin any_rules ps most) }
{
    let progs = ig_sums_start(alloc, m, ranks)?;
    put_all(alloc, progs)
}

/// The askers that these programs leave.
fn start_askers(
    alloc: Global,
    m: &Matrix,
    progs: Progs<AnyProgram>,
) -> Result<Progs<IgAsker>, NoMemory>
    requires ended { (ranks : ℕ) × (1 ≤ ranks)
        × HaveEnded any_rules (map sums_way.case (sums_starts ranks m.now)) progs }
    ensures askers { (ranks : ℕ) → 1 ≤ ranks → HaveEnded any_rules (map sums_way.case (sums_starts ranks m.now)) progs
        → IfOk result (λ qs. AreAskersOf m.now ranks qs) }
{
    m.known();
    let sums = take_all::<IgSums>(alloc, progs)?;
    ig_askers(alloc, m, sums)
}

/// The end of a run by asking: its rounds are put together, and then its answer is written.
fn finish_asking<K: Sink>(
    command: &Command,
    m: &Matrix,
    sums: Rounds,
    replied: Finished<IgAsker>,
    out: &mut K,
) -> Result<RunEnd, Refusal>
    requires task { command.now.task ≡ Task.Ig }
    requires heard { IgHeard m.now replied.progs }
    ensures { IsRunEnd command.now (Subject.Matrix m.now) (λ rounds. rounds ≡ sums ++ replied.rounds)
        K.taken K.faults out.old out.new result }
{
    let Finished {
        progs,
        rounds: exchanged,
    } = replied;
    let mut rounds = sums;
    rounds.append(exchanged)?;
    let ending = finish_by_asking(m, &progs, command.travel.generated, out);
    Ok(RunEnd { ending, rounds })
}
