//! permute and transpose, from a matrix to the text of another.

ghost use Rattle.std.specs.Prelude.{ℕ, ◌≡◌, ◌≤◌, IfOk};
ghost use Rattle.round_program.specs.Canonical.{HaveEnded};
ghost use Rattle.app_permute.specs.Reorderings.{reordering_of, transpose_of};
ghost use Rattle.app_permute.specs.Permutes.{permute_rules};
ghost use Rattle.app_permute.specs.PermuteRuns.{permute_starts};
ghost use Rattle.app_permute.specs.Transposes.{transpose_rules};
ghost use Rattle.app_permute.specs.TransposeRuns.{transpose_starts};
ghost use Rattle.bale_subjects.specs.Numberings.{perms_for};
ghost use Rattle.bale_answers.specs.Needs.{CanMove};

use crate::application::{Application, Written};
use app_permute::{
    Permute, Transpose, permute_end, permute_start, seed_perms, transpose_end, transpose_start,
};
use bale_items::NoMemory;
use bale_subjects::new_numbers;
use bale_types::{Failed, Out, Sink};
use bale_words::Permutations;
use mtx_text::{Matrix, write_matrix};
use round_program::Progs;
use std::alloc::Global;

/// The matrix with new numbers for its rows and columns.
pub(crate) struct PermuteAnswer;

impl Written for PermuteAnswer {
    ghost use Rattle.std.specs.Prelude.{◌≡◌};
    ghost use Rattle.app_permute.specs.Reorderings.{reordering_of};
    ghost use Rattle.bale_subjects.specs.declared.subject.Subject.TheVariants as subjects;
    ghost use Rattle.bale_words.specs.declared.task.Task.TheVariants as tasks;
    ghost use Rattle.bale_subjects.specs.Numberings.{perms_for};
    ghost use Rattle.bale_answers.specs.Needs.{CanMove};

    type Options = Permutations;

    type Of = Matrix;

    type Answer = Matrix;

    ghost task = { λ by. tasks.Permute by };

    ghost subject = { λ m. subjects.Matrix m };

    ghost needs = { CanMove };

    ghost answers = { λ by m b. b ≡ reordering_of (perms_for by m).rows (perms_for by m).cols m };

    fn status(by: &Permutations, answer: &Matrix, m: &Matrix) -> u8 {
        0
    }

    #[tactic(auto, using(crate::proofs::Lengths::text_short))]
    fn write<K: Sink>(
        by: &Permutations,
        answer: &Matrix,
        m: &Matrix,
        out: &mut Out<'_, K>,
    ) -> Result<(), Failed> {
        answer.known();
        write_matrix(answer, out)
    }
}

impl Application for PermuteAnswer {
    ghost use Rattle.bale_words.specs.declared.task.Task.TheVariants as tasks;
    ghost use Rattle.bale_subjects.specs.declared.subject.Subject.TheVariants as subjects;
    ghost use Rattle.bale_answers.specs.Tasks.{begun_with_fits};
    ghost use Rattle.app_permute.specs.PermuteRuns.{permute_starts};
    ghost use Rattle.bale_subjects.specs.Numberings.{perms_for};

    type Prog = Permute;

    ghost starts = { λ by ranks m. permute_starts ranks m (perms_for by m).rows (perms_for by m).cols };

    ghost of_task = { λ by p of. begun_with_fits (tasks.Permute by) p (subjects.Matrix of) };

    fn start(
        alloc: Global,
        by: &Permutations,
        m: &Matrix,
        ranks: u32,
    ) -> Result<Progs<Permute>, NoMemory> {
        m.known();
        match by {
            Permutations::Seed(seed) => {
                let perms = seed_perms(alloc, m.rows(), m.cols(), *seed)?;
                permute_start(alloc, m, perms.rows(), perms.cols(), ranks)
            }
            Permutations::Lists(rows, cols) => {
                let rows = new_numbers(alloc, m.rows(), rows)?;
                let cols = new_numbers(alloc, m.cols(), cols)?;
                permute_start(alloc, m, rows.as_slice(), cols.as_slice(), ranks)
            }
        }
    }

    fn end(
        alloc: Global,
        by: &Permutations,
        m: &Matrix,
        progs: Progs<Permute>,
    ) -> Result<Matrix, NoMemory>
        requires needs { CanMove by.now m.now }
        requires ended { (ranks : ℕ) × (1 ≤ ranks) × (ranks ≤ 64)
            × HaveEnded permute_rules (permute_starts ranks m.now (perms_for by.now m.now).rows
            (perms_for by.now m.now).cols) progs }
        ensures { IfOk result (λ b. b ≡ reordering_of (perms_for by.now m.now).rows (perms_for by.now m.now).cols
            m.now) }
    {
        m.known();
        permute_end(alloc, m, &progs)
    }
}

/// The matrix with rows and columns exchanged.
pub(crate) struct TransposeAnswer;

impl Written for TransposeAnswer {
    ghost use Rattle.std.specs.Prelude.{◌≡◌};
    ghost use Rattle.app_permute.specs.Reorderings.{transpose_of};
    ghost use Rattle.bale_subjects.specs.declared.subject.Subject.TheVariants as subjects;
    ghost use Rattle.bale_words.specs.declared.task.Task.TheVariants as tasks;

    type Options = ();

    type Of = Matrix;

    type Answer = Matrix;

    ghost task = { λ _. tasks.Transpose };

    ghost subject = { λ m. subjects.Matrix m };

    ghost needs = { λ _ _. Unit {0} };

    ghost answers = { λ _ m b. b ≡ transpose_of m };

    fn status(options: &(), answer: &Matrix, m: &Matrix) -> u8 {
        0
    }

    #[tactic(auto, using(crate::proofs::Lengths::text_short))]
    fn write<K: Sink>(
        options: &(),
        answer: &Matrix,
        m: &Matrix,
        out: &mut Out<'_, K>,
    ) -> Result<(), Failed> {
        answer.known();
        write_matrix(answer, out)
    }
}

impl Application for TransposeAnswer {
    ghost use Rattle.bale_words.specs.declared.task.Task.TheVariants as tasks;
    ghost use Rattle.bale_subjects.specs.declared.subject.Subject.TheVariants as subjects;
    ghost use Rattle.bale_answers.specs.Tasks.{begun_with_fits};
    ghost use Rattle.app_permute.specs.TransposeRuns.{transpose_starts};

    type Prog = Transpose;

    ghost starts = { λ _. transpose_starts };

    ghost of_task = { λ _ p of. begun_with_fits tasks.Transpose p (subjects.Matrix of) };

    fn start(
        alloc: Global,
        options: &(),
        m: &Matrix,
        ranks: u32,
    ) -> Result<Progs<Transpose>, NoMemory> {
        transpose_start(alloc, m, ranks)
    }

    fn end(
        alloc: Global,
        options: &(),
        m: &Matrix,
        progs: Progs<Transpose>,
    ) -> Result<Matrix, NoMemory>
        requires ended { (ranks : ℕ) × (1 ≤ ranks) × (ranks ≤ 64)
            × HaveEnded transpose_rules (transpose_starts ranks m.now) progs }
        ensures { IfOk result (λ b. b ≡ transpose_of m.now) }
    {
        m.known();
        transpose_end(alloc, m, &progs)
    }
}
