//! histo and ig, from a matrix to their lines.

ghost use Rattle.std.specs.Prelude.{ℕ, ◌≤◌, IfOk};
ghost use Rattle.round_program.specs.Canonical.{HaveEnded};
ghost use Rattle.app_histo_ig.specs.Histos.{histo_rules};
ghost use Rattle.app_histo_ig.specs.HistoRuns.{histo_starts, HistoEnded};
ghost use Rattle.app_histo_ig.specs.Igs.{ig_rules};
ghost use Rattle.app_histo_ig.specs.IgRuns.{ig_starts, IgEnded};

use crate::application::{Application, Written};
use app_histo_ig::{
    Histo, Ig, IgAsker, histo_start, histo_write, ig_heard_write, ig_start, ig_write,
};
use bale_items::NoMemory;
use bale_types::{Failed, Out, Sink};
use mtx_text::Matrix;
use round_program::Progs;
use std::alloc::Global;

/// How many entries each column has.
pub(crate) struct HistoAnswer;

impl Written for HistoAnswer {
    ghost use Rattle.bale_subjects.specs.declared.subject.Subject.TheVariants as subjects;
    ghost use Rattle.bale_words.specs.declared.task.Task.TheVariants as tasks;

    type Options = ();

    type Of = Matrix;

    type Answer = Progs<Histo>;

    ghost task = { λ _. tasks.Histo };

    ghost subject = { λ m. subjects.Matrix m };

    ghost needs = { λ _ _. Unit {0} };

    ghost answers = { λ _ m ps. HistoEnded m ps };

    fn status(options: &(), answer: &Progs<Histo>, m: &Matrix) -> u8 {
        0
    }

    #[tactic(auto, using(crate::proofs::Lengths::histo_short))]
    fn write<K: Sink>(
        options: &(),
        answer: &Progs<Histo>,
        m: &Matrix,
        out: &mut Out<'_, K>,
    ) -> Result<(), Failed> {
        histo_write(answer, out)
    }
}

impl Application for HistoAnswer {
    ghost use Rattle.bale_words.specs.declared.task.Task.TheVariants as tasks;
    ghost use Rattle.bale_subjects.specs.declared.subject.Subject.TheVariants as subjects;
    ghost use Rattle.bale_answers.specs.Tasks.{begun_with_fits};

    type Prog = Histo;

    ghost starts = { λ _. histo_starts };

    ghost of_task = { λ _ p of. begun_with_fits tasks.Histo p (subjects.Matrix of) };

    fn start(
        alloc: Global,
        options: &(),
        m: &Matrix,
        ranks: u32,
    ) -> Result<Progs<Histo>, NoMemory> {
        histo_start(alloc, m, ranks)
    }

    fn end(
        alloc: Global,
        options: &(),
        m: &Matrix,
        progs: Progs<Histo>,
    ) -> Result<Progs<Histo>, NoMemory>
        requires ended { (ranks : ℕ) × (1 ≤ ranks) × (ranks ≤ 64)
            × HaveEnded histo_rules (histo_starts ranks m.now) progs }
        ensures { IfOk result (λ a. HistoEnded m.now a) }
    {
        m.known();
        Ok(progs)
    }
}

/// For each entry the sum of its column.
pub(crate) struct IgAnswer;

impl Written for IgAnswer {
    ghost use Rattle.bale_subjects.specs.declared.subject.Subject.TheVariants as subjects;
    ghost use Rattle.bale_words.specs.declared.task.Task.TheVariants as tasks;

    type Options = ();

    type Of = Matrix;

    type Answer = Progs<Ig>;

    ghost task = { λ _. tasks.Ig };

    ghost subject = { λ m. subjects.Matrix m };

    ghost needs = { λ _ _. Unit {0} };

    ghost answers = { λ _ m ps. IgEnded m ps };

    fn status(options: &(), answer: &Progs<Ig>, m: &Matrix) -> u8 {
        0
    }

    #[tactic(auto, using(crate::proofs::Lengths::ig_short))]
    fn write<K: Sink>(
        options: &(),
        answer: &Progs<Ig>,
        m: &Matrix,
        out: &mut Out<'_, K>,
    ) -> Result<(), Failed> {
        ig_write(answer, m, out)
    }
}

impl Application for IgAnswer {
    ghost use Rattle.bale_words.specs.declared.task.Task.TheVariants as tasks;
    ghost use Rattle.bale_subjects.specs.declared.subject.Subject.TheVariants as subjects;
    ghost use Rattle.bale_answers.specs.Tasks.{begun_with_fits};

    type Prog = Ig;

    ghost starts = { λ _. ig_starts };

    ghost of_task = { λ _ p of. begun_with_fits tasks.Ig p (subjects.Matrix of) };

    fn start(alloc: Global, options: &(), m: &Matrix, ranks: u32) -> Result<Progs<Ig>, NoMemory> {
        ig_start(alloc, m, ranks)
    }

    fn end(alloc: Global, options: &(), m: &Matrix, progs: Progs<Ig>) -> Result<Progs<Ig>, NoMemory>
        requires ended { (ranks : ℕ) × (1 ≤ ranks) × (ranks ≤ 64) × HaveEnded ig_rules (ig_starts ranks m.now) progs }
        ensures { IfOk result (λ a. IgEnded m.now a) }
    {
        m.known();
        Ok(progs)
    }
}

/// For each entry the sum of its column, which the ranks asked one another for.
pub(crate) struct IgHeardAnswer;

impl Written for IgHeardAnswer {
    ghost use Rattle.app_histo_ig.specs.ColumnAnswers.{IgHeard};
    ghost use Rattle.bale_subjects.specs.declared.subject.Subject.TheVariants as subjects;
    ghost use Rattle.bale_words.specs.declared.task.Task.TheVariants as tasks;

    type Options = ();

    type Of = Matrix;

    type Answer = Progs<IgAsker>;

    ghost task = { λ _. tasks.Ig };

    ghost subject = { λ m. subjects.Matrix m };

    ghost needs = { λ _ _. Unit {0} };

    ghost answers = { λ _ m askers. IgHeard m askers };

    fn status(options: &(), answer: &Progs<IgAsker>, m: &Matrix) -> u8 {
        0
    }

    #[tactic(auto, using(crate::proofs::Lengths::ig_short))]
    fn write<K: Sink>(
        options: &(),
        answer: &Progs<IgAsker>,
        m: &Matrix,
        out: &mut Out<'_, K>,
    ) -> Result<(), Failed> {
        ig_heard_write(answer, m, out)
    }
}
