//! The run of a command for its subject: the programs, driven, and then the answer, written.
ghost use Rattle.std.specs.Prelude.{◌≡◌, ◌<◌, Bool, true, false, IfOk, OnOk};
ghost use Rattle.bale_runs.specs.Asking.{FewestOfCommand, SweptOfCommand, NotifiedBy, TurnsOfCommand};
ghost use Rattle.bale_runs.specs.Reports.{ReportsCommand, NotifiedOfEpochs};
ghost use Rattle.bale_runs.specs.RunEnds.{CommandFits, IsKnown, IsRunEnd};
ghost use Rattle.bale_runs.specs.Jobs.{as_asked, by_asking, via_of, manner_for};
ghost use Rattle.bale_runs.specs.Runs.{made_for, HaveRunTask, SweptInOrder, RecordsTask, IsTaskRun, TurnsOfTask, FewestOfTask};
ghost use Rattle.route_tensor.specs.Grid.{ranks};
ghost use Rattle.bale_answers.specs.Tasks.{starts_of};
ghost use Rattle.bale_items.specs.Ledgers.{IsBlankOf};

use crate::asking::{ask_on_threads, ask_serially};
use app_cases::AnyProgram;
use bale_answers::{AnswerEnd, finish_task, start_task};
use bale_items::NoMemory;
use bale_subjects::{Refusal, Subject, in_order};
use bale_types::Sink;
use bale_words::{Command, Driving, Task, Transport, Travel};
use case_table::{case_serial, case_threads};
use rank_group::{Finished, Gate, Rounds, Steps, Via};
use std::alloc::Global;
use std::marker::Brand;
use std::sync::Wait;
use std::sync::ledger::{Blank, Ledger};
use std::thread::Threads;

/// A run that came to its end: how its answer was written, and what was exchanged.
#[derive(Drop)]
pub struct RunEnd {
    /// The answer's status, and whether it was written
    pub ending: AnswerEnd,
    /// One closed round, or three for ig over biconvey
    pub rounds: Rounds,
}

/// Runs the command for its subject as its words ask, the ranks on threads or all on this one, and
/// writes its answer.
/// Before each turn of a rank's thread the gate is notified of it. It waits for its threads, and
/// returns when they do.
///
/// # Errors
/// `NoMemory` if the programs, the drive or the answer found none: then nothing is written.
pub fn run_command<R: Threads + Wait + Sync, K: Sink, G: Gate + Sync>(
    rt: &R,
    alloc: Global,
    command: &Command,
    subject: &Subject,
    out: &mut K,
    gate: &G,
) -> Result<RunEnd, Refusal>
    requires fit { CommandFits command.now subject.now (as_asked command.now) }
    ensures finish { IsRunEnd command.now subject.now (ReportsCommand (as_asked command.now) command.now subject.now)
        K.taken K.faults out.old out.new result }

    // On threads the gate was notified of a turn of each rank in each epoch.
    ensures notified { as_asked command.now ≡ false
        → IfOk result (λ f. NotifiedOfEpochs command.now.grid (G.notified gate.now) f.rounds) }
{
    if drives_serially(command) {
        run_uncounted::<Brand, K>(alloc, command, subject, out, Blank::new(1))
    } else {
        run_on_threads(rt, alloc, command, subject, out, gate)
    }
}

/// Whether the words ask for one thread.
pub fn drives_serially(command: &Command) -> bool
    ensures { result ≡ as_asked command.now }
{
    matches!(command.travel.driving, Driving::Serial)
}

/// A run on this thread whose turns nobody asks for.
fn run_uncounted<L: Ledger, K: Sink>(
    alloc: Global,
    command: &Command,
    subject: &Subject,
    out: &mut K,
    blank: Blank,
) -> Result<RunEnd, Refusal>
    requires blank { IsBlankOf L.name L.parts blank.name blank.parts }
    requires fit { CommandFits command.now subject.now true }
    ensures { IsRunEnd command.now subject.now (ReportsCommand true command.now subject.now)
        K.taken K.faults out.old out.new result }
{
    let mut steps = Steps::<L>::new(blank);
    run_serially(alloc, command, subject, out, &mut steps)
}

/// Runs the command for its subject, all ranks on this thread, and writes its answer. Each turn of
/// a rank raises `steps` by one.
/// It always returns.
///
/// # Errors
/// `NoMemory` if the programs, the drive or the answer found none: then nothing is written.
pub fn run_serially<K: Sink, L: Ledger>(
    alloc: Global,
    command: &Command,
    subject: &Subject,
    out: &mut K,
    steps: &mut Steps<L>,
) -> Result<RunEnd, Refusal>
    requires { CommandFits command.now subject.now true }
    ensures finish { IsRunEnd command.now subject.now (ReportsCommand true command.now subject.now)
        K.taken K.faults out.old out.new result }
    ensures steps { TurnsOfCommand command.now subject.now steps.old steps.new }
    ensures fewest { IfOk result (λ f. FewestOfCommand command.now subject.now steps.old steps.new) }
    ensures swept { IfOk result (λ f. SweptOfCommand command.now subject.now steps.old steps.new f.rounds) }
{
    command.grid.known();
    known_subject(subject);
    if by_asking(command) {
        ask_serially(alloc, command, subject, out, steps)
    } else {
        exchange_serially(alloc, command, subject, out, steps)
    }
}

/// Runs the command for its subject, with its ranks on threads, and writes its answer. `gate` is
/// notified of each turn.
fn run_on_threads<R: Threads + Wait + Sync, K: Sink, G: Gate + Sync>(
    rt: &R,
    alloc: Global,
    command: &Command,
    subject: &Subject,
    out: &mut K,
    gate: &G,
) -> Result<RunEnd, Refusal>
    requires { CommandFits command.now subject.now false }
    ensures finish { IsRunEnd command.now subject.now (ReportsCommand false command.now subject.now)
        K.taken K.faults out.old out.new result }
    ensures notified { IfOk result (λ f. NotifiedOfEpochs command.now.grid (G.notified gate.now) f.rounds) }
{
    command.grid.known();
    known_subject(subject);
    if by_asking(command) {
        ask_on_threads(rt, alloc, command, subject, out, gate)
    } else {
        exchange_on_threads(rt, alloc, command, subject, out, gate)
    }
}

/// Does nothing, and states that a matrix keeps what every matrix keeps.
fn known_subject(subject: &Subject)
    ensures { IsKnown subject.now }
{
    if let Subject::Matrix(m) = subject {
        m.known();
    }
}

/// Whether the command goes by queries and replies.
fn by_asking(command: &Command) -> bool
    ensures { result ≡ by_asking command.now }
{
    matches!(command.travel.transport, Transport::Biconvey) && matches!(command.task, Task::Ig)
}

/// The run of the application's programs on this thread.
fn exchange_serially<K: Sink, L: Ledger>(
    alloc: Global,
    command: &Command,
    subject: &Subject,
    out: &mut K,
    steps: &mut Steps<L>,
) -> Result<RunEnd, Refusal>
    requires { CommandFits command.now subject.now true }
    ensures finish { IsRunEnd command.now subject.now (RecordsTask command.now.task subject.now
        (made_for true command.now) (manner_for command.now)) K.taken K.faults out.old out.new result }
    ensures steps { TurnsOfTask command.now.task subject.now
        (manner_for command.now) command.now.grid steps.old steps.new }
    ensures fewest { IfOk result (λ f. FewestOfTask command.now.task subject.now
        command.now.grid steps.old steps.new) }
    ensures swept { IfOk result (λ f. SweptInOrder (starts_of command.now.task (ranks command.now.grid) subject.now)
        (made_for true command.now) (manner_for command.now) steps.old steps.new f.rounds) }
{
    let run = drive_serially(alloc, command, subject, steps)?;
    finish_run(alloc, command, subject, run, out)
}

/// The run of the application's programs on threads.
fn exchange_on_threads<R: Threads + Wait + Sync, K: Sink, G: Gate + Sync>(
    rt: &R,
    alloc: Global,
    command: &Command,
    subject: &Subject,
    out: &mut K,
    gate: &G,
) -> Result<RunEnd, Refusal>
    requires { CommandFits command.now subject.now false }
    ensures finish { IsRunEnd command.now subject.now (RecordsTask command.now.task subject.now
        (made_for false command.now) (manner_for command.now)) K.taken K.faults out.old out.new result }
    ensures notified { OnOk result (NotifiedBy false command.now subject.now (G.notified gate.now)) }
{
    let run = drive_on_threads(rt, alloc, command, subject, gate)?;
    finish_run(alloc, command, subject, run, out)
}

/// The application's programs after their last round on this thread, and that run's closed round.
fn drive_serially<L: Ledger>(
    alloc: Global,
    command: &Command,
    subject: &Subject,
    steps: &mut Steps<L>,
) -> Result<Finished<AnyProgram>, NoMemory>
    requires { CommandFits command.now subject.now true }
    ensures run { IfOk result (IsTaskRun command.now.task subject.now (made_for true command.now)
        (manner_for command.now)) }
    ensures steps { TurnsOfTask command.now.task subject.now
        (manner_for command.now) command.now.grid steps.old steps.new }
    ensures fewest { IfOk result (λ f. FewestOfTask command.now.task subject.now
        command.now.grid steps.old steps.new) }
    ensures swept { IfOk result (λ f. SweptInOrder (starts_of command.now.task (ranks command.now.grid) subject.now)
        (made_for true command.now) (manner_for command.now) steps.old steps.new f.rounds) }
{
    let grid = &command.grid;
    let Travel {
        buffer,
        slots,
        steady,
        transport,
        ..
    } = command.travel;
    let progs = start_task(alloc, &command.task, subject, grid.ranks())?;
    let order = in_order(alloc, grid.ranks())?;
    case_serial(
        alloc,
        grid,
        buffer,
        via_of(transport),
        slots,
        steady,
        &order,
        progs,
        steps,
    )
}

/// The application's programs after their last round, on threads, and that run's closed round.
fn drive_on_threads<R: Threads + Wait + Sync, G: Gate + Sync>(
    rt: &R,
    alloc: Global,
    command: &Command,
    subject: &Subject,
    gate: &G,
) -> Result<Finished<AnyProgram>, NoMemory>
    requires { CommandFits command.now subject.now false }
    ensures run { IfOk result (IsTaskRun command.now.task subject.now (made_for false command.now)
        (manner_for command.now)) }
    ensures notified { OnOk result (NotifiedBy false command.now subject.now (G.notified gate.now)) }
{
    let grid = &command.grid;
    let Travel {
        buffer,
        slots,
        steady,
        transport,
        ..
    } = command.travel;
    let progs = start_task(alloc, &command.task, subject, grid.ranks())?;
    case_threads(
        rt,
        alloc,
        grid,
        buffer,
        via_of(transport),
        slots,
        steady,
        progs,
        gate,
    )
}

/// How items travel by a transport.
fn via_of(transport: Transport) -> Via
    ensures { result ≡ via_of transport }
{
    match transport {
        Transport::Exstack => Via::Exstack,
        Transport::Convey | Transport::Biconvey => Via::Convey,
    }
}

/// The end of a run that was driven: its answer is written, and its rounds hold what was exchanged.
fn finish_run<K: Sink>(
    alloc: Global,
    command: &Command,
    subject: &Subject,
    run: Finished<AnyProgram>,
    out: &mut K,
) -> Result<RunEnd, Refusal>
    requires fit { (serial : Bool) × CommandFits command.now subject.now serial }
    requires ended { HaveRunTask command.now.task subject.now run.progs }
    ensures { IsRunEnd command.now subject.now (λ rounds. rounds ≡ run.rounds)
        K.taken K.faults out.old out.new result }
{
    let Finished { progs, rounds } = run;
    let generated = command.travel.generated;
    let ending = finish_task(alloc, &command.task, subject, generated, progs, out)?;
    Ok(RunEnd { ending, rounds })
}
