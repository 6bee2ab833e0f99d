//! Whether a command can be answered for a matrix or for lines.

ghost use Rattle.std.specs.Prelude.{◌≡◌, ◌*◌, ◌<◌, ◌==◌, ◌||◌, ◌&&◌, is_some, IfOk};
ghost use Rattle.least_walks.specs.Walks.{no_negative};
ghost use Rattle.bale_words.specs.declared.task.Task.TheVariants.{Permute, Sssp, Topo};
ghost use Rattle.bale_words.specs.declared.command.Permutations.TheVariants.{Lists};
ghost use Rattle.bale_subjects.specs.Fitness.{task_unfitness, unfitness};

use crate::numberings::numbers_all;
use crate::subject::Subject;
use bale_items::NoMemory;
use bale_words::{Command, Numbers, Permutations, Task, Transport};
use least_walks::no_negative;
use mtx_text::Matrix;
use std::alloc::Global;

/// Why a command can't be answered for its subject.
#[derive(Clone, Copy, PartialEq, Eq, Debug)]
pub enum Unfit {
    /// Exstacks go over one hop: the grid has more than one number.
    ExstackGrid,
    /// The matrix has not as many columns as rows.
    NotSquare,
    /// An edge has a negative weight.
    NegativeWeight,
    /// The source is no vertex.
    Source,
    /// The list for the rows hasn't each number from 1 to their number once.
    RowPermutation,
    /// The list for the columns hasn't each number from 1 to their number once.
    ColumnPermutation,
    /// A serial drive would send more than rows times entries allow: 16,777,216.
    SerialSize,
    /// Delta-stepping on a serial drive would send the votes of too many rounds: more than 1,024
    /// rows.
    DeltaRows,
}

/// The first test that fails, of those of the command, for this subject, driven serially or by
/// threads.
///
/// # Errors
/// `NoMemory` if the marks of a list's numbers found none.
pub(crate) fn unfitness(
    alloc: Global,
    command: &Command,
    subject: &Subject,
    serial: bool,
) -> Result<Option<Unfit>, NoMemory>
    ensures { IfOk result (λ u. u ≡ unfitness command.now subject.now serial) }
{
    if command.travel.transport == Transport::Exstack && command.grid.hops() != 1 {
        return Ok(Some(Unfit::ExstackGrid));
    }
    match subject {
        Subject::Matrix(m) => task_unfitness(alloc, &command.task, m, serial),
        Subject::Lines(_) => Ok(None),
    }
}

/// The first test that fails, of those of the task.
///
/// # Errors
/// `NoMemory` if the marks of a list's numbers found none.
fn task_unfitness(
    alloc: Global,
    task: &Task,
    m: &Matrix,
    serial: bool,
) -> Result<Option<Unfit>, NoMemory>
    ensures { IfOk result (λ u. u ≡ task_unfitness task.now m.now serial) }
{
    match task {
        Task::Permute(Permutations::Lists(rows, cols)) => no_moves(alloc, m, rows, cols, serial),
        Task::Topo => Ok(no_order(m, serial)),
        Task::Sssp(source, delta) => Ok(no_walks(m, *source, *delta, serial)),
        _ => Ok(None),
    }
}

/// Why rows and columns can't get these new numbers.
fn no_moves(
    alloc: Global,
    m: &Matrix,
    rows: &Option<Numbers>,
    cols: &Option<Numbers>,
    serial: bool,
) -> Result<Option<Unfit>, NoMemory>
    ensures { IfOk result (λ u. u ≡ task_unfitness (Permute (Lists rows.now cols.now)) m.now serial) }
{
    if !numbers_all(alloc, m.rows(), rows)? {
        return Ok(Some(Unfit::RowPermutation));
    }
    if !numbers_all(alloc, m.cols(), cols)? {
        return Ok(Some(Unfit::ColumnPermutation));
    }
    Ok(None)
}

/// Why least walks from a source can't be answered; the source is counted from 1.
fn no_walks(m: &Matrix, source: u32, delta: Option<u64>, serial: bool) -> Option<Unfit>
    ensures { result ≡ task_unfitness (Sssp source delta) m.now serial }
{
    let entries = m.entries();
    if m.cols() != m.rows() {
        return Some(Unfit::NotSquare);
    }
    if !no_negative(entries) {
        return Some(Unfit::NegativeWeight);
    }
    if source == 0 || source > m.rows() {
        return Some(Unfit::Source);
    }
    if serial && m.rows() as u64 * entries.len() as u64 > 16_777_216 {
        return Some(Unfit::SerialSize);
    }
    if serial && delta.is_some() && m.rows() > 1024 {
        return Some(Unfit::DeltaRows);
    }
    None
}

/// Why there can be no order of rows and columns.
fn no_order(m: &Matrix, serial: bool) -> Option<Unfit>
    ensures { result ≡ task_unfitness Topo m.now serial }
{
    if m.cols() != m.rows() {
        return Some(Unfit::NotSquare);
    }
    None
}
