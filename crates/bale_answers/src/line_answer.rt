//! tally, from lines to how often each of them was read.

ghost use Rattle.std.specs.Prelude.{ℕ, ◌≡◌, ◌≤◌, IfOk};
ghost use Rattle.round_program.specs.Canonical.{HaveEnded};
ghost use Rattle.elastic.specs.Mails.{mail_rules};
ghost use Rattle.app_tally.specs.Counts.{tally_of};
ghost use Rattle.app_tally.specs.Tallies.{tally_rules};
ghost use Rattle.app_tally.specs.TallyRuns.{tally_starts};

use crate::application::{Application, Written};
use app_cases::TallyCase;
use app_tally::{Counts, Lines, tally_end, tally_start, tally_write};
use bale_items::NoMemory;
use bale_types::{Failed, Out, Sink};
use round_program::Progs;
use std::alloc::Global;

/// How often each distinct line comes.
pub(crate) struct TallyAnswer;

impl Written for TallyAnswer {
    ghost use Rattle.std.specs.Prelude.{◌≡◌};
    ghost use Rattle.app_tally.specs.Counts.{tally_of};
    ghost use Rattle.bale_subjects.specs.declared.subject.Subject.TheVariants as subjects;
    ghost use Rattle.bale_words.specs.declared.task.Task.TheVariants as tasks;

    type Options = ();

    type Of = Lines;

    type Answer = Counts;

    ghost task = { λ _. tasks.Tally };

    ghost subject = { λ lines. subjects.Lines lines };

    ghost needs = { λ _ _. Unit {0} };

    ghost answers = { λ _ lines counts. counts ≡ tally_of lines };

    fn status(options: &(), answer: &Counts, lines: &Lines) -> u8 {
        0
    }

    #[tactic(auto, using(crate::proofs::Lengths::tally_short))]
    fn write<K: Sink>(
        options: &(),
        answer: &Counts,
        lines: &Lines,
        out: &mut Out<'_, K>,
    ) -> Result<(), Failed> {
        lines.known();
        tally_write(answer, out)
    }
}

impl Application for TallyAnswer {
    ghost use Rattle.bale_words.specs.declared.task.Task.TheVariants as tasks;
    ghost use Rattle.bale_subjects.specs.declared.subject.Subject.TheVariants as subjects;
    ghost use Rattle.bale_answers.specs.Tasks.{begun_with_fits};
    ghost use Rattle.app_tally.specs.TallyRuns.{tally_starts};

    type Prog = TallyCase;

    ghost starts = { λ _. tally_starts };

    ghost of_task = { λ _ p of. begun_with_fits tasks.Tally p (subjects.Lines of) };

    fn start(
        alloc: Global,
        options: &(),
        lines: &Lines,
        ranks: u32,
    ) -> Result<Progs<TallyCase>, NoMemory> {
        TallyCase::wrap_all(alloc, tally_start(alloc, lines, ranks)?)
    }

    fn end(
        alloc: Global,
        options: &(),
        lines: &Lines,
        progs: Progs<TallyCase>,
    ) -> Result<Counts, NoMemory>
        requires ended { (ranks : ℕ) × (1 ≤ ranks) × (ranks ≤ 64)
            × HaveEnded (mail_rules tally_rules) (tally_starts ranks lines.now) progs }
        ensures { IfOk result (λ counts. counts ≡ tally_of lines.now) }
    {
        lines.known();
        let mailers = TallyCase::unwrap_all(alloc, progs)?;
        tally_end(alloc, &mailers)
    }
}
