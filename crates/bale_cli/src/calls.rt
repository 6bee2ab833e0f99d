//! The top calls: from the words and the bytes that come in to the bytes that go out.
ghost use Rattle.std.specs.Prelude.{◌≡◌, ◌≢◌, ◌≤◌, Some, map, string_bytes, IfOk, IfErr};
ghost use Rattle.bale_words.specs.Ranges.{InRanges};
ghost use Rattle.bale_words.specs.Words.{command_of};
ghost use Rattle.bale_runs.specs.Jobs.{as_asked, on_one_thread};
ghost use Rattle.bale_cli.specs.Outcomes.{Answered, IsOutcome};
ghost use Rattle.bale_cli.specs.Run.{AreTurns, GateNotified, IsRun, TurnedInOrder};

use bale_runs::{RunEnd, drives_serially, run_command, run_serially};
use bale_subjects::{Refusal, Subject, read_words, report, subject_for};
use bale_types::{Sink, Source};
use bale_words::Command;
use mtx_text::{OnThreads, OneThread};
use rank_group::{Gate, Rounds, Steps, threads_for};
use std::alloc::Global;
use std::sync::Wait;
use std::sync::ledger::Ledger;
use std::thread::Threads;

/// How a run ended.
#[derive(Drop)]
pub struct Outcome {
    /// 0, or 1 if topo finds no order, or the status of the refusal: 2 usage, 3 read fault, 4
    /// write fault, 5 a text that isn't what was asked of, 6 unfit, 7 no memory
    pub status: u8,
    /// What was exchanged, if an answer was written or its writing failed: one closed round, or
    /// three for ig over biconvey; else none.
    pub rounds: Rounds,
}

/// Runs the command of the words after the program's name on the text of `source`, the ranks on
/// threads or all on this one, as the words say, and writes the answer to `out` or why there is
/// none to `err`. Before each turn of a rank's thread the gate is notified of it.
///
/// If the source tells its text, out and err take exactly what the serial answer says, unless a
/// read or a write failed or an allocation was refused. It waits for its threads, and returns when
/// they do. `IsRun` of specs/Run says it field by field.
pub fn run<R: Threads + Wait + Sync, S: Source, K: Sink, E: Sink, G: Gate + Sync>(
    rt: &R,
    alloc: Global,
    words: &[String],
    source: &mut S,
    out: &mut K,
    err: &mut E,
    gate: &G,
) -> Outcome
    ensures run { IsRun as_asked (GateNotified (G.notified gate.now)) (map string_bytes words.now)
        S.left S.faults source.old source.new K.taken K.faults out.old out.new
        E.taken E.faults err.old err.new result.status result.rounds }
{
    let answered = answer(rt, alloc, words, source, out, gate);
    outcome_of(alloc, answered, err)
}

/// Runs the command of the words after the program's name on the text of `source`, all ranks on
/// this thread whatever the words say, and writes the answer to `out` or why there is none to
/// `err`. Each turn of a rank raises `steps` by one.
/// It always returns.
///
/// when the source tells its text, out and err take exactly what the serial answer says, unless a
/// read or a write failed or an allocation was refused (`IsRun`).
pub fn run_serial<S: Source, K: Sink, E: Sink, L: Ledger>(
    alloc: Global,
    words: &[String],
    source: &mut S,
    out: &mut K,
    err: &mut E,
    steps: &mut Steps<L>,
) -> Outcome
    ensures run { IsRun on_one_thread (TurnedInOrder steps.old steps.new) (map string_bytes words.now)
        S.left S.faults source.old source.new K.taken K.faults out.old out.new
        E.taken E.faults err.old err.new result.status result.rounds }

    // The turns are bounded, and if the words and the text ask for no run, or they are refused,
    // there are none.
    ensures turns { AreTurns (S.left source.old) (command_of (map string_bytes words.now)) steps.old steps.new }
    ensures no_turns { result.status ≢ 0 → result.status ≢ 1 → result.status ≢ 4 → result.status ≢ 7
        → steps.new ≡ steps.old }
{
    let answered = answer_serially(alloc, words, source, out, steps);
    outcome_of(alloc, answered, err)
}

/// How a run ended, which is said on `err` if there is no answer.
fn outcome_of<E: Sink>(alloc: Global, answered: Result<RunEnd, Refusal>, err: &mut E) -> Outcome
    requires low { IfOk answered (λ f. f.ending.status ≤ 1) }
    ensures { IsOutcome answered E.taken E.faults err.old err.new result.status result.rounds }
{
    match answered {
        Ok(RunEnd { ending, rounds }) => match ending.written {
            Ok(()) => Outcome {
                status: ending.status,
                rounds,
            },
            Err(_) => {
                report(err, Refusal::WriteFault);
                Outcome { status: 4, rounds }
            }
        },
        Err(refusal) => {
            report(err, refusal);
            Outcome {
                status: refusal.status(),
                rounds: Rounds::new(alloc),
            }
        }
    }
}

/// The run that the words ask for, and its answer on out, or why there is none.
fn answer<R: Threads + Wait + Sync, S: Source, K: Sink, G: Gate + Sync>(
    rt: &R,
    alloc: Global,
    words: &[String],
    source: &mut S,
    out: &mut K,
    gate: &G,
) -> Result<RunEnd, Refusal>
    ensures { Answered as_asked (GateNotified (G.notified gate.now)) (command_of (map string_bytes words.now))
        S.left S.faults source.old source.new K.taken K.faults out.old out.new result }
{
    match read_words(alloc, words) {
        Ok(command) => answer_of(rt, alloc, &command, source, out, gate),
        Err(refusal) => Err(refusal),
    }
}

/// The run of a command, and its answer on out, or why there is none.
fn answer_of<R: Threads + Wait + Sync, S: Source, K: Sink, G: Gate + Sync>(
    rt: &R,
    alloc: Global,
    command: &Command,
    source: &mut S,
    out: &mut K,
    gate: &G,
) -> Result<RunEnd, Refusal>
    requires ranges { InRanges command.now }
    ensures { Answered as_asked (GateNotified (G.notified gate.now)) (Some command.now)
        S.left S.faults source.old source.new K.taken K.faults out.old out.new result }
{
    let serial = drives_serially(command);
    let execution = OnThreads::new(rt, threads_to_read(rt, command, serial));
    match subject_for(&execution, alloc, command, source, serial) {
        Ok(subject) => run_command(rt, alloc, command, &subject, out, gate),
        Err(refusal) => Err(refusal),
    }
}

/// On how many threads a matrix is read: as many as turn the ranks.
fn threads_to_read<R: Threads>(rt: &R, command: &Command, serial: bool) -> u32 {
    if serial {
        return 1;
    }
    threads_for(rt, command.grid.ranks()) as u32
}

/// The run of a command with all ranks on this thread, and its answer on out, or why there is none.
fn answer_serially<S: Source, K: Sink, L: Ledger>(
    alloc: Global,
    words: &[String],
    source: &mut S,
    out: &mut K,
    steps: &mut Steps<L>,
) -> Result<RunEnd, Refusal>
    ensures answered { Answered on_one_thread (TurnedInOrder steps.old steps.new)
        (command_of (map string_bytes words.now))
        S.left S.faults source.old source.new K.taken K.faults out.old out.new result }
    ensures turns { AreTurns (S.left source.old) (command_of (map string_bytes words.now)) steps.old steps.new }
    ensures no_turns { IfErr result (λ r. r ≢ Refusal.NoMemory → steps.new ≡ steps.old) }
{
    match read_words(alloc, words) {
        Ok(command) => answer_of_serially(alloc, &command, source, out, steps),
        Err(refusal) => Err(refusal),
    }
}

fn answer_of_serially<S: Source, K: Sink, L: Ledger>(
    alloc: Global,
    command: &Command,
    source: &mut S,
    out: &mut K,
    steps: &mut Steps<L>,
) -> Result<RunEnd, Refusal>
    requires ranges { InRanges command.now }
    ensures answered { Answered on_one_thread (TurnedInOrder steps.old steps.new) (Some command.now)
        S.left S.faults source.old source.new K.taken K.faults out.old out.new result }
    ensures turns { AreTurns (S.left source.old) (Some command.now) steps.old steps.new }
    ensures no_turns { IfErr result (λ r. r ≢ Refusal.NoMemory → steps.new ≡ steps.old) }
{
    match subject_for(&OneThread, alloc, command, source, true) {
        Ok(subject) => run_serially(alloc, command, &subject, out, steps),
        Err(refusal) => Err(refusal),
    }
}
