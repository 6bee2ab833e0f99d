//! Which application does a task: its programs as they begin, and, after their last round, its
//! answer.

ghost use Rattle.round_program.specs.Ranks.{AreRanks};
ghost use Rattle.std.specs.Prelude.{◌≡◌, ◌≤◌, ◌<◌, ℕ, List, length, IfOk, OnErr};
ghost use Rattle.round_program.specs.Canonical.{InRound, EndsWithin, HaveEnded};
ghost use Rattle.app_cases.specs.Any.{any_rules};
ghost use Rattle.bale_answers.specs.AnswerEnds.{IsAnswerEnd};
ghost use Rattle.bale_answers.specs.Tasks.{starts_of};
ghost use Rattle.bale_answers.specs.Needs.{IsFit, IsFitOn};

use crate::application::Application;
use crate::column_answers::{HistoAnswer, IgAnswer};
use crate::finish::{AnswerEnd, finish_as};
use crate::line_answer::TallyAnswer;
use crate::matrix_answers::{PermuteAnswer, TransposeAnswer};
use crate::order_answer::OrderAnswer;
use crate::walk_answers::{DeltaAnswer, SsspAnswer};
use app_cases::{AnyProgram, put_all};
use bale_items::NoMemory;
use bale_subjects::Subject;
use bale_types::Sink;
use bale_words::{Generated, Task};
use mtx_text::Matrix;
use round_program::Progs;
use std::alloc::Global;

/// The programs of so many ranks, from 1 to 64, for a task and a subject that fit each other.
///
/// # Errors
/// `NoMemory` if the programs found none.
pub fn start_task(
    alloc: Global,
    task: &Task,
    subject: &Subject,
    ranks: u32,
) -> Result<Progs<AnyProgram>, NoMemory>
    requires fit { IsFit task.now subject.now }
    requires ranks { AreRanks ranks }
    ensures starts { IfOk result (λ ps. ps ≡ starts_of task.now ranks subject.now) }
    ensures begins { IfOk result (λ ps. (shape : List ℕ) × (most : ℕ) × InRound any_rules ranks 0 shape most ps
        × EndsWithin any_rules ps most) }
{
    match subject {
        Subject::Matrix(m) => start_on(alloc, task, m, ranks),
        Subject::Lines(lines) => start_as::<TallyAnswer>(alloc, &(), lines, ranks),
    }
}

/// Writes the answer of a task for its subject, by the programs after their last round: its bytes,
/// or, at status 0 and if the matrix was generated, their summary.
///
/// # Errors
/// `NoMemory` if the answer found none: then nothing is written.
pub fn finish_task<K: Sink>(
    alloc: Global,
    task: &Task,
    subject: &Subject,
    generated: Option<Generated>,
    progs: Progs<AnyProgram>,
    out: &mut K,
) -> Result<AnswerEnd, NoMemory>
    requires fit { IsFit task.now subject.now }
    requires ended { (ranks : ℕ) × (1 ≤ ranks) × (ranks ≤ 64) × (0 < length (starts_of task.now ranks subject.now))
        × HaveEnded any_rules (starts_of task.now ranks subject.now) progs }
    ensures ending { IfOk result (IsAnswerEnd task.now subject.now generated K.taken K.faults out.old out.new) }
    ensures no_answer { OnErr result (out.new ≡ out.old) }
{
    match subject {
        Subject::Matrix(m) => finish_on(alloc, task, m, generated, progs, out),
        Subject::Lines(lines) => {
            finish_as::<TallyAnswer, K>(alloc, &(), lines, generated, progs, out)
        }
    }
}

/// The programs for a task and a matrix that fit each other.
fn start_on(
    alloc: Global,
    task: &Task,
    m: &Matrix,
    ranks: u32,
) -> Result<Progs<AnyProgram>, NoMemory>
    requires fit { IsFitOn task.now m.now }
    requires ranks { AreRanks ranks }
    ensures starts { IfOk result (λ ps. ps ≡ starts_of task.now ranks (Subject.Matrix m.now)) }
    ensures begins { IfOk result (λ ps. (shape : List ℕ) × (most : ℕ) × InRound any_rules ranks 0 shape most ps
        × EndsWithin any_rules ps most) }
{
    m.known();
    match task {
        Task::Histo => start_as::<HistoAnswer>(alloc, &(), m, ranks),
        Task::Ig => start_as::<IgAnswer>(alloc, &(), m, ranks),
        Task::Permute(by) => start_as::<PermuteAnswer>(alloc, by, m, ranks),
        Task::Transpose => start_as::<TransposeAnswer>(alloc, &(), m, ranks),
        Task::Topo => start_as::<OrderAnswer>(alloc, &(), m, ranks),
        Task::Sssp(source, None) => start_as::<SsspAnswer>(alloc, source, m, ranks),
        Task::Sssp(source, Some(delta)) => {
            start_as::<DeltaAnswer>(alloc, &(*source, *delta), m, ranks)
        }
        Task::Tally => unreachable!(),
    }
}

/// Writes the answer of a task for a matrix.
fn finish_on<K: Sink>(
    alloc: Global,
    task: &Task,
    m: &Matrix,
    generated: Option<Generated>,
    progs: Progs<AnyProgram>,
    out: &mut K,
) -> Result<AnswerEnd, NoMemory>
    requires fit { IsFitOn task.now m.now }
    requires ended { (ranks : ℕ) × (1 ≤ ranks) × (ranks ≤ 64)
        × (0 < length (starts_of task.now ranks (Subject.Matrix m.now)))
        × HaveEnded any_rules (starts_of task.now ranks (Subject.Matrix m.now)) progs }
    ensures ending { IfOk result (IsAnswerEnd task.now (Subject.Matrix m.now) generated K.taken K.faults out.old
        out.new) }
    ensures no_answer { OnErr result (out.new ≡ out.old) }
{
    m.known();
    match task {
        Task::Histo => finish_as::<HistoAnswer, K>(alloc, &(), m, generated, progs, out),
        Task::Ig => finish_as::<IgAnswer, K>(alloc, &(), m, generated, progs, out),
        Task::Permute(by) => finish_as::<PermuteAnswer, K>(alloc, by, m, generated, progs, out),
        Task::Transpose => finish_as::<TransposeAnswer, K>(alloc, &(), m, generated, progs, out),
        Task::Topo => finish_as::<OrderAnswer, K>(alloc, &(), m, generated, progs, out),
        Task::Sssp(source, None) => {
            finish_as::<SsspAnswer, K>(alloc, source, m, generated, progs, out)
        }
        Task::Sssp(source, Some(delta)) => {
            finish_as::<DeltaAnswer, K>(alloc, &(*source, *delta), m, generated, progs, out)
        }
        Task::Tally => unreachable!(),
    }
}

/// The programs of one application, put as any of them.
fn start_as<A: Application>(
    alloc: Global,
    options: &A::Options,
    of: &A::Of,
    ranks: u32,
) -> Result<Progs<AnyProgram>, NoMemory>
    requires needs { A.needs options.now of.now }
    requires ranks { AreRanks ranks }
    ensures starts { IfOk result (λ ps. ps ≡ starts_of (A.task options.now) ranks (A.subject of.now)) }
    ensures begins { IfOk result (λ ps. (shape : List ℕ) × (most : ℕ) × InRound any_rules ranks 0 shape most ps
        × EndsWithin any_rules ps most) }
{
    let progs = A::start(alloc, options, of, ranks)?;
    put_all(alloc, progs)
}
