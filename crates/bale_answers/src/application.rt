//! An application, from what it is asked of to the bytes of its answer.

ghost use Rattle.round_program.specs.Ranks.{AreRanks};
ghost use Rattle.std.specs.Prelude.{◌≡◌, ◌≤◌, ◌<◌, ◌^◌, ℕ, List, map, length, IfOk};
ghost use Rattle.bale_types.specs.Out.{HandsOn, Writes};
ghost use Rattle.round_program.specs.Canonical.{InRound, EndsWithin, HaveEnded};
ghost use Rattle.bale_words.specs.declared.task.Task.{Task};
ghost use Rattle.bale_subjects.specs.declared.subject.Subject.{Subject};
ghost use Rattle.bale_answers.specs.Needs.{CanWrite};
ghost use Rattle.bale_answers.specs.Tasks.{IsAnswer, starts_of, task_status};

use app_cases::Case;
use bale_items::NoMemory;
use bale_types::{Failed, Out, Sink};
use round_program::Progs;
use std::alloc::Global;

/// An answer: what it is the answer to, and how it is written.
pub(crate) trait Written {
    /// what its own options give
    type Options;
    /// what it is asked of: a matrix, or lines
    type Of;
    /// what is written
    type Answer: Drop;

    /// the task with these options
    ghost task: { Self.Options → Task };
    /// a matrix or lines, as either of them
    ghost subject: { Self.Of → Subject };
    /// what it needs of them
    ghost needs: { Self.Options → Self.Of → Type 0 };
    /// from this the answer is written
    ghost answers: { Self.Options → Self.Of → Self.Answer → Type 0 };

    /// The exit status.
    fn status(options: &Self::Options, answer: &Self::Answer, of: &Self::Of) -> u8
        requires { CanWrite needs answers options.now of.now answer.now }
        ensures value { result ≡ task_status (task options.now) (subject of.now) }
        ensures low { result ≤ 1 };

    /// Writes the answer, which has fewer than 2^56 bytes. No memory is taken.
    fn write<K: Sink>(
        options: &Self::Options,
        answer: &Self::Answer,
        of: &Self::Of,
        out: &mut Out<'_, K>,
    ) -> Result<(), Failed>
        requires { CanWrite needs answers options.now of.now answer.now }
        ensures there_is { (bytes : List ℕ) × IsAnswer (task options.now) (subject of.now) bytes }
        ensures written { (bytes : List ℕ) → IsAnswer (task options.now) (subject of.now) bytes
            → Writes K.taken K.faults bytes out.old out.new result }
        ensures short { (bytes : List ℕ) → IsAnswer (task options.now) (subject of.now) bytes
            → length bytes < 2 ^ 56 }
        ensures sink { HandsOn K.taken K.faults out.old out.new result };
}

/// An application: its programs for a matrix or lines, and what is written once they ended.
pub(crate) trait Application: Written {
    /// one rank's part
    type Prog: Case;

    /// the programs of so many ranks as they begin
    ghost starts: { Self.Options → ℕ → Self.Of → List Self.Prog };

    /// The programs of so many ranks, from 1 to 64, in round 0.
    fn start(
        alloc: Global,
        options: &Self::Options,
        of: &Self::Of,
        ranks: u32,
    ) -> Result<Progs<Self::Prog>, NoMemory>
        requires needs { Self.needs options.now of.now }
        requires ranks { AreRanks ranks }
        ensures starts { IfOk result (λ ps. ps ≡ starts options.now ranks of.now) }
        ensures begins { IfOk result (λ ps. (shape : List ℕ) × (most : ℕ)
            × InRound Self.Prog.rules ranks 0 shape most ps × EndsWithin Self.Prog.rules ps most) };

    /// The answer, once the programs ended.
    fn end(
        alloc: Global,
        options: &Self::Options,
        of: &Self::Of,
        progs: Progs<Self::Prog>,
    ) -> Result<Self::Answer, NoMemory>
        requires needs { Self.needs options.now of.now }
        requires ended { (ranks : ℕ) × (1 ≤ ranks) × (ranks ≤ 64)
            × HaveEnded Self.Prog.rules (starts options.now ranks of.now) progs }
        ensures { IfOk result (λ a. Self.answers options.now of.now a) };

    /// the programs are those of the task
    ghost of_task: { (options : Self.Options) (ranks : ℕ) (of : Self.Of)
        → map Self.Prog.case_of (starts options ranks of) ≡ starts_of (Self.task options) ranks (Self.subject of) };
}
