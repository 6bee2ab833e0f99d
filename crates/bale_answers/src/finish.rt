//! The end of a run: the programs after their last round, and then the answer, written.

ghost use Rattle.std.specs.Prelude.{◌≡◌, ◌≤◌, ◌<◌, ◌^◌, ℕ, List, length, OnOk, OnErr, IfOk};
ghost use Rattle.bale_types.specs.Stream.{taken_with, IsTakenPrefix};
ghost use Rattle.bale_types.specs.Out.{appended_bytes, HandsOn};
ghost use Rattle.round_program.specs.Canonical.{HaveEnded};
ghost use Rattle.app_cases.specs.Any.{any_rules};
ghost use Rattle.app_histo_ig.specs.ColumnAnswers.{IgHeard};
ghost use Rattle.bale_answers.specs.Needs.{CanWrite};
ghost use Rattle.bale_answers.specs.Answer.{HasWritten, TakesMore};
ghost use Rattle.bale_answers.specs.AnswerEnds.{IsAnswerEnd};
ghost use Rattle.bale_answers.specs.Logs.{bytes_of};
ghost use Rattle.bale_answers.specs.Summary.{summary_of};
ghost use Rattle.bale_answers.specs.Tasks.{IsAnswer, starts_of};

use crate::application::{Application, Written};
use crate::column_answers::IgHeardAnswer;
use crate::counter::Counter;
use app_cases::{AnyProgram, take_all};
use app_histo_ig::IgAsker;
use bale_items::NoMemory;
use bale_subjects::Subject;
use bale_types::{Failed, Line, Out, Sink};
use bale_words::{Generated, Task};
use mtx_text::Matrix;
use round_program::Progs;
use std::alloc::Global;

/// The answer's status, and whether it was written.
#[derive(Drop)]
pub struct AnswerEnd {
    /// 0, or 1 if topo finds no order
    pub status: u8,
    /// An error if a write failed
    pub written: Result<(), Failed>,
}

/// Writes the answer of ig by the ranks that asked one another, each after its last reply. No
/// memory is taken.
pub fn finish_by_asking<K: Sink>(
    m: &Matrix,
    askers: &Progs<IgAsker>,
    generated: Option<Generated>,
    out: &mut K,
) -> AnswerEnd
    requires heard { IgHeard m.now askers.now }
    ensures { IsAnswerEnd Task.Ig (Subject.Matrix m.now) generated K.taken K.faults out.old out.new result }
{
    m.known();
    write_as::<IgHeardAnswer, K>(&(), m, askers, generated, out)
}

/// Writes the answer of one application.
pub(crate) fn finish_as<A: Application, K: Sink>(
    alloc: Global,
    options: &A::Options,
    of: &A::Of,
    generated: Option<Generated>,
    progs: Progs<AnyProgram>,
    out: &mut K,
) -> Result<AnswerEnd, NoMemory>
    requires needs { A.needs options.now of.now }
    requires ended { (ranks : ℕ) × (1 ≤ ranks) × (ranks ≤ 64)
        × (0 < length (starts_of (A.task options.now) ranks (A.subject of.now)))
        × HaveEnded any_rules (starts_of (A.task options.now) ranks (A.subject of.now)) progs }
    ensures ending { IfOk result (IsAnswerEnd (A.task options.now) (A.subject of.now) generated
        K.taken K.faults out.old out.new) }
    ensures no_answer { OnErr result (out.new ≡ out.old) }
{
    let progs = take_all(alloc, progs)?;
    let answer = A::end(alloc, options, of, progs)?;
    Ok(write_as::<A, K>(options, of, &answer, generated, out))
}

/// Writes an answer: its bytes, or, at status 0 and if the matrix was generated, their summary.
/// No memory is taken.
fn write_as<A: Written, K: Sink>(
    options: &A::Options,
    of: &A::Of,
    answer: &A::Answer,
    generated: Option<Generated>,
    out: &mut K,
) -> AnswerEnd
    requires { CanWrite A.needs A.answers options.now of.now answer.now }
    ensures { IsAnswerEnd (A.task options.now) (A.subject of.now) generated K.taken K.faults out.old out.new result }
{
    let status = A::status(options, answer, of);
    let written = if generated.is_some() && status == 0 {
        write_summary::<A, K>(options, answer, of, out)
    } else {
        write_answer::<A, K>(options, answer, of, out)
    };
    AnswerEnd { status, written }
}

/// Writes the answer through a buffer.
fn write_answer<A: Written, K: Sink>(
    options: &A::Options,
    answer: &A::Answer,
    of: &A::Of,
    sink: &mut K,
) -> Result<(), Failed>
    requires { CanWrite A.needs A.answers options.now of.now answer.now }
    ensures answer { HasWritten (IsAnswer (A.task options.now) (A.subject of.now)) (λ bytes. bytes) (K.taken sink.old)
        (K.taken sink.new) result }
    ensures short { (bytes : List ℕ) → IsAnswer (A.task options.now) (A.subject of.now) bytes
        → length bytes < 2 ^ 56 }
    ensures sink { TakesMore K.taken K.faults sink.old sink.new result }
{
    let mut out = Out::new(sink);
    write_all::<A, K>(options, answer, of, &mut out)
}

fn write_all<A: Written, K: Sink>(
    options: &A::Options,
    answer: &A::Answer,
    of: &A::Of,
    out: &mut Out<'_, K>,
) -> Result<(), Failed>
    requires { CanWrite A.needs A.answers options.now of.now answer.now }
    ensures answer { HasWritten (IsAnswer (A.task options.now) (A.subject of.now)) (λ bytes. bytes)
        (appended_bytes K.taken out.old) (K.taken out.new.sink.now) result }
    ensures short { (bytes : List ℕ) → IsAnswer (A.task options.now) (A.subject of.now) bytes
        → length bytes < 2 ^ 56 }
    ensures sink { HandsOn K.taken K.faults out.old out.new result }
{
    A::write(options, answer, of, out)?;
    out.flush()
}

/// Counts the bytes of the answer, and writes the line of their summary.
fn write_summary<A: Written, K: Sink>(
    options: &A::Options,
    answer: &A::Answer,
    of: &A::Of,
    sink: &mut K,
) -> Result<(), Failed>
    requires { CanWrite A.needs A.answers options.now of.now answer.now }
    ensures answer { HasWritten (IsAnswer (A.task options.now) (A.subject of.now)) summary_of (K.taken sink.old)
        (K.taken sink.new) result }
    ensures sink { TakesMore K.taken K.faults sink.old sink.new result }
{
    let mut counter = Counter::new();
    let counted = write_answer::<A, Counter>(options, answer, of, &mut counter);
    match counted {
        Ok(()) => write_line(&counter, sink),
        Err(_) => unreachable!(),
    }
}

/// Writes the line of a count through a buffer.
fn write_line<K: Sink>(counter: &Counter, sink: &mut K) -> Result<(), Failed>
    requires short { length (bytes_of counter.now.log) < 2 ^ 56 }
    ensures ok { OnOk result (K.taken sink.new ≡ taken_with (K.taken sink.old) (summary_of (bytes_of
        counter.now.log))) }
    ensures err { OnErr result (IsTakenPrefix (K.taken sink.new)
        (taken_with (K.taken sink.old) (summary_of (bytes_of counter.now.log)))) }
    ensures sink { TakesMore K.taken K.faults sink.old sink.new result }
{
    let line = summary_line(counter);
    let mut out = Out::new(sink);
    flush_text(&mut out, line.bytes())
}

fn flush_text<K: Sink>(out: &mut Out<'_, K>, bytes: &[u8]) -> Result<(), Failed>
    ensures ok { OnOk result (K.taken out.new.sink.now ≡ taken_with (appended_bytes K.taken out.old) bytes.now) }
    ensures err { OnErr result (IsTakenPrefix (K.taken out.new.sink.now) (taken_with (appended_bytes K.taken
        out.old) bytes.now)) }
    ensures sink { HandsOn K.taken K.faults out.old out.new result }
{
    out.text(bytes)?;
    out.flush()
}

/// `lines L bytes B sum S`.
#[tactic(auto, unfolding(crate::specs::Summary::summary_of))]
fn summary_line(counter: &Counter) -> Line
    requires short { length (bytes_of counter.now.log) < 2 ^ 56 }
    ensures { result ≡ summary_of (bytes_of counter.now.log) }
{
    counter.known();
    let mut line = Line::new();
    line.text(b"lines ");
    line.number(counter.lines);
    line.text(b" bytes ");
    line.number(counter.bytes);
    line.text(b" sum ");
    line.number(counter.sum);
    line.byte(b'\n');
    line
}
