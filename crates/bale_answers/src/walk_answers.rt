//! sssp, from a matrix to its lines.

ghost use Rattle.std.specs.Prelude.{ℕ, ◌≤◌, ◌-◌, IfOk};
ghost use Rattle.round_program.specs.Canonical.{HaveEnded};
ghost use Rattle.app_sssp.specs.Sssps.{sssp_rules};
ghost use Rattle.app_sssp.specs.SsspRuns.{sssp_starts, SsspEnded};
ghost use Rattle.delta_step.specs.Deltas.{delta_rules};
ghost use Rattle.delta_step.specs.DeltaRuns.{delta_starts, DeltaEnded};
ghost use Rattle.bale_answers.specs.Needs.{HasWalks, HasBuckets};

use crate::application::{Application, Written};
use app_sssp::{Sssp, sssp_start, sssp_write};
use bale_items::NoMemory;
use bale_types::{Failed, Out, Sink};
use delta_step::{Delta, delta_start, delta_write};
use mtx_text::Matrix;
use round_program::Progs;
use std::alloc::Global;

/// The least weight of a walk from a source to each vertex.
pub(crate) struct SsspAnswer;

impl Written for SsspAnswer {
    ghost use Rattle.app_sssp.specs.SsspRuns.{SsspEnded};
    ghost use Rattle.bale_subjects.specs.declared.subject.Subject.TheVariants as subjects;
    ghost use Rattle.std.specs.Prelude.{◌-◌, None};
    ghost use Rattle.bale_words.specs.declared.task.Task.TheVariants as tasks;
    ghost use Rattle.bale_answers.specs.Needs.{HasWalks};

    type Options = u32;

    type Of = Matrix;

    type Answer = Progs<Sssp>;

    ghost task = { λ source. tasks.Sssp source None };

    ghost subject = { λ m. subjects.Matrix m };

    ghost needs = { HasWalks };

    ghost answers = { λ source m ps. SsspEnded m (source - 1) ps };

    fn status(source: &u32, answer: &Progs<Sssp>, m: &Matrix) -> u8 {
        0
    }

    #[tactic(auto, using(crate::proofs::Lengths::sssp_short))]
    fn write<K: Sink>(
        source: &u32,
        answer: &Progs<Sssp>,
        m: &Matrix,
        out: &mut Out<'_, K>,
    ) -> Result<(), Failed> {
        sssp_write(answer, out)
    }
}

impl Application for SsspAnswer {
    ghost use Rattle.std.specs.Prelude.{◌-◌, None};
    ghost use Rattle.bale_words.specs.declared.task.Task.TheVariants as tasks;
    ghost use Rattle.bale_subjects.specs.declared.subject.Subject.TheVariants as subjects;
    ghost use Rattle.bale_answers.specs.Tasks.{begun_with_fits};
    ghost use Rattle.app_sssp.specs.SsspRuns.{sssp_starts};

    type Prog = Sssp;

    ghost starts = { λ source ranks m. sssp_starts ranks m (source - 1) };

    ghost of_task = { λ source p of. begun_with_fits (tasks.Sssp source None) p (subjects.Matrix of) };

    fn start(alloc: Global, source: &u32, m: &Matrix, ranks: u32) -> Result<Progs<Sssp>, NoMemory> {
        sssp_start(alloc, m, *source - 1, ranks)
    }

    fn end(
        alloc: Global,
        source: &u32,
        m: &Matrix,
        progs: Progs<Sssp>,
    ) -> Result<Progs<Sssp>, NoMemory>
        requires needs { HasWalks source.now m.now }
        requires ended { (ranks : ℕ) × (1 ≤ ranks) × (ranks ≤ 64)
            × HaveEnded sssp_rules (sssp_starts ranks m.now (source.now - 1)) progs }
        ensures { IfOk result (λ a. SsspEnded m.now (source.now - 1) a) }
    {
        m.known();
        Ok(progs)
    }
}

/// The least weight of a walk from a source to each vertex, by delta-stepping.
pub(crate) struct DeltaAnswer;

impl Written for DeltaAnswer {
    ghost use Rattle.delta_step.specs.DeltaRuns.{DeltaEnded};
    ghost use Rattle.bale_subjects.specs.declared.subject.Subject.TheVariants as subjects;
    ghost use Rattle.std.specs.Prelude.{◌-◌, Some};
    ghost use Rattle.bale_words.specs.declared.task.Task.TheVariants as tasks;
    ghost use Rattle.bale_answers.specs.Needs.{HasBuckets};

    type Options = (u32, u64);

    type Of = Matrix;

    type Answer = Progs<Delta>;

    ghost task = { λ by. tasks.Sssp by.0 (Some by.1) };

    ghost subject = { λ m. subjects.Matrix m };

    ghost needs = { HasBuckets };

    ghost answers = { λ by m ps. DeltaEnded m (by.0 - 1) ps };

    fn status(by: &(u32, u64), answer: &Progs<Delta>, m: &Matrix) -> u8 {
        0
    }

    #[tactic(auto, using(crate::proofs::Lengths::sssp_short))]
    fn write<K: Sink>(
        by: &(u32, u64),
        answer: &Progs<Delta>,
        m: &Matrix,
        out: &mut Out<'_, K>,
    ) -> Result<(), Failed> {
        delta_write(answer, out)
    }
}

impl Application for DeltaAnswer {
    ghost use Rattle.std.specs.Prelude.{◌-◌, Some};
    ghost use Rattle.bale_words.specs.declared.task.Task.TheVariants as tasks;
    ghost use Rattle.bale_subjects.specs.declared.subject.Subject.TheVariants as subjects;
    ghost use Rattle.bale_answers.specs.Tasks.{begun_with_fits};
    ghost use Rattle.delta_step.specs.DeltaRuns.{delta_starts};

    type Prog = Delta;

    ghost starts = { λ by ranks m. delta_starts ranks m (by.0 - 1) by.1 };

    ghost of_task = { λ by p of. begun_with_fits (tasks.Sssp by.0 (Some by.1)) p (subjects.Matrix of) };

    fn start(
        alloc: Global,
        by: &(u32, u64),
        m: &Matrix,
        ranks: u32,
    ) -> Result<Progs<Delta>, NoMemory> {
        delta_start(alloc, m, by.0 - 1, by.1, ranks)
    }

    fn end(
        alloc: Global,
        by: &(u32, u64),
        m: &Matrix,
        progs: Progs<Delta>,
    ) -> Result<Progs<Delta>, NoMemory>
        requires needs { HasBuckets by.now m.now }
        requires ended { (ranks : ℕ) × (1 ≤ ranks) × (ranks ≤ 64)
            × HaveEnded delta_rules (delta_starts ranks m.now (by.now.0 - 1) by.now.1) progs }
        ensures { IfOk result (λ a. DeltaEnded m.now (by.now.0 - 1) a) }
    {
        m.known();
        Ok(progs)
    }
}
