//! The command of words, and what it is asked of.

ghost use Rattle.std.specs.Prelude.{◌≡◌, ◌≢◌, ◌⊎◌, ℕ, true, false, is_some, List, map, drop, string_bytes, Some, None, OnOk, IfOk, IfErr, Ok, Err};
ghost use Rattle.bale_types.specs.Stream.{Blames};
ghost use Rattle.mtx_text.specs.Generated.{generated_matrix};
ghost use Rattle.app_tally.specs.Texts.{lines_of_text};
ghost use Rattle.bale_words.specs.Ranges.{InRanges, MayGenerate};
ghost use Rattle.bale_words.specs.Words.{command_of};
ghost use Rattle.bale_subjects.specs.Refusals.{IsOfText};
ghost use Rattle.bale_subjects.specs.Reading.{HasText, SourceHad, reads};
ghost use Rattle.bale_subjects.specs.Fitness.{unfitness};
ghost use Rattle.bale_subjects.specs.Reading.{IsOfReading, IsRead, IsSubjectOf, OnText};
ghost use Rattle.bale_subjects.specs.Subjects.{is_tally, matrix_asked, of_lines, of_matrix, subject_asked, suits};

use crate::refusal::Refusal;
use crate::subject::Subject;
use crate::unfit::{Unfit, unfitness};
use app_tally::read_lines;
use bale_items::NoMemory;
use bale_types::Source;
use bale_words::{Command, Generated, Task, WordsFault, read_command};
use mtx_text::{Execution, Matrix, gen_matrix, read_matrix_by};
use std::alloc::Global;

/// The command that the words give, with its numbers in their ranges.
///
/// # Errors
/// `Usage` if the words give none, and `NoMemory`.
pub fn read_words(alloc: Global, words: &[String]) -> Result<Command, Refusal>
    ensures command { IfOk result (λ c. command_of (map string_bytes words.now) ≡ Some c) }
    ensures ranges { IfOk result (λ c. InRanges c) }
    ensures usage { result ≡ Err Refusal.Usage → command_of (map string_bytes words.now) ≡ None }
    ensures kinds { IfErr result (λ r. (r ≡ Refusal.Usage) ⊎ (r ≡ Refusal.NoMemory)) }
{
    match read_command(alloc, words) {
        Ok(command) => Ok(command),
        Err(WordsFault::Usage) => Err(Refusal::Usage),
        Err(WordsFault::NoMemory) => Err(Refusal::NoMemory),
    }
}

/// The subject of a command that it fits, driven serially or by threads: for tally the lines of the
/// text, else its matrix or the generated one, for which nothing is read. The text of a matrix is
/// parsed as `on` says.
///
/// # Errors
/// `ReadFault` if the source failed, `BadText` if its text isn't what the command is asked
/// of, `Unfit` with the first test of fitness that fails, and `NoMemory`.
pub fn subject_for<X: Execution, S: Source>(
    on: &X,
    alloc: Global,
    command: &Command,
    source: &mut S,
    serial: bool,
) -> Result<Subject, Refusal>
    requires ready { X.ready }
    requires ranges { InRanges command.now }
    ensures subject { IfOk result (λ s. IsSubjectOf command.now (S.left source.old) s) }
    ensures fits { IfOk result (λ s. unfitness command.now s serial ≡ None) }
    ensures faults { Blames (result ≡ Err Refusal.ReadFault) (S.faults source.old) (S.faults source.new) }
    ensures bad { (text : List ℕ) (b : _) → SourceHad (Some command.now) (S.left source.old) text
        → result ≡ Err (Refusal.BadText b) → subject_asked command.now text ≡ Err (Refusal.BadText b) }
    ensures bad_read { (b : _) → result ≡ Err (Refusal.BadText b) → reads (Some command.now) ≡ true }
    ensures unfit { (u : Unfit) → result ≡ Err (Refusal.Unfit u)
        → (s : Subject) × IsSubjectOf command.now (S.left source.old) s × (unfitness command.now s serial ≡ Some u) }
    ensures kinds { IfErr result (λ r. (r ≢ Refusal.WriteFault) × (r ≢ Refusal.Usage)) }
    ensures unread { reads (Some command.now) ≡ false → source.new ≡ source.old }
    ensures read_whole { (text : List ℕ) → S.left source.old ≡ Some text → reads (Some command.now) ≡ true
        → OnOk result (S.left source.new ≡ Some (drop 16_777_217 text)) }
    ensures read_bad { (text : List ℕ) → S.left source.old ≡ Some text → reads (Some command.now) ≡ true
        → IfErr result (λ r. IsOfText r → S.left source.new ≡ Some (drop 16_777_217 text)) }
{
    let subject = read_subject(on, alloc, command, source)?;
    match unfitness(alloc, command, &subject, serial)? {
        Some(unfit) => Err(Refusal::Unfit(unfit)),
        None => Ok(subject),
    }
}

/// The subject of a command.
fn read_subject<X: Execution, S: Source>(
    on: &X,
    alloc: Global,
    command: &Command,
    source: &mut S,
) -> Result<Subject, Refusal>
    requires ready { X.ready }
    requires ranges { InRanges command.now }
    ensures asked { (text : List ℕ) → SourceHad (Some command.now) (S.left source.old) text
        → IsRead (subject_asked command.now text) result }
    ensures suits { IfOk result (λ s. suits command.now.task s ≡ true) }
    ensures faults { Blames (result ≡ Err Refusal.ReadFault) (S.faults source.old) (S.faults source.new) }
    ensures kinds { IfErr result IsOfReading }
    ensures bad_read { (b : _) → result ≡ Err (Refusal.BadText b) → reads (Some command.now) ≡ true }
    ensures unread { reads (Some command.now) ≡ false → source.new ≡ source.old }
    ensures read_whole { (text : List ℕ) → S.left source.old ≡ Some text → reads (Some command.now) ≡ true
        → OnText result (S.left source.new ≡ Some (drop 16_777_217 text)) }
{
    if is_tally(&command.task) {
        read_lines_of(alloc, source)
    } else {
        read_matrix_of(on, alloc, command.travel.generated, source)
    }
}

fn is_tally(task: &Task) -> bool
    ensures { result ≡ is_tally task.now }
{
    matches!(task, Task::Tally)
}

/// The lines of the text.
fn read_lines_of<S: Source>(alloc: Global, source: &mut S) -> Result<Subject, Refusal>
    ensures asked { (text : List ℕ) → S.left source.old ≡ Some text → IsRead (of_lines (lines_of_text text)) result }
    ensures lines { (t : _) → is_tally t ≡ true → IfOk result (λ s. suits t s ≡ true) }
    ensures faults { Blames (result ≡ Err Refusal.ReadFault) (S.faults source.old) (S.faults source.new) }
    ensures kinds { IfErr result IsOfReading }
    ensures read_whole { (text : List ℕ) → S.left source.old ≡ Some text
        → OnText result (S.left source.new ≡ Some (drop 16_777_217 text)) }
{
    let lines = read_lines(alloc, source)?;
    Ok(Subject::Lines(lines))
}

/// The matrix of the text, or the generated one.
fn read_matrix_of<X: Execution, S: Source>(
    on: &X,
    alloc: Global,
    band: Option<Generated>,
    source: &mut S,
) -> Result<Subject, Refusal>
    requires ready { X.ready }
    requires band { MayGenerate band }
    ensures asked { (text : List ℕ) → HasText band (S.left source.old) text
        → IsRead (of_matrix (matrix_asked band text)) result }
    ensures matrix { (t : _) → is_tally t ≡ false → IfOk result (λ s. suits t s ≡ true) }
    ensures faults { Blames (result ≡ Err Refusal.ReadFault) (S.faults source.old) (S.faults source.new) }
    ensures kinds { IfErr result IsOfReading }
    ensures bad_read { (b : _) → result ≡ Err (Refusal.BadText b) → is_some band ≡ false }
    ensures unread { is_some band ≡ true → source.new ≡ source.old }
    ensures read_whole { (text : List ℕ) → S.left source.old ≡ Some text → is_some band ≡ false
        → OnText result (S.left source.new ≡ Some (drop 16_777_217 text)) }
{
    let matrix = match band {
        None => read_matrix_by(on, alloc, source)?,
        Some(band) => gen_matrix(alloc, band.rows, band.entries, band.seed)?,
    };
    Ok(Subject::Matrix(matrix))
}
