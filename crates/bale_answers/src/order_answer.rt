//! topo, from a matrix to its lines, or to `not triangular`.

ghost use Rattle.std.specs.Prelude.{ℕ, ◌≡◌, ◌≤◌, IfOk};
ghost use Rattle.bale_types.specs.Out.{Writes};
ghost use Rattle.round_program.specs.Canonical.{HaveEnded};
ghost use Rattle.app_topo.specs.Levels.{topo_order};
ghost use Rattle.app_topo.specs.Topos.{topo_rules};
ghost use Rattle.app_topo.specs.TopoRuns.{topo_starts};
ghost use Rattle.bale_answers.specs.Orders.{order_text};

use crate::application::{Application, Written};
use app_topo::{Topo, TopoOrder, topo_end, topo_start, topo_write};
use bale_items::NoMemory;
use bale_types::{Failed, Out, Sink};
use mtx_text::Matrix;
use round_program::Progs;
use std::alloc::Global;

/// An order of rows and columns that makes the matrix upper triangular.
pub(crate) struct OrderAnswer;

impl Written for OrderAnswer {
    ghost use Rattle.std.specs.Prelude.{◌≡◌};
    ghost use Rattle.app_topo.specs.Levels.{topo_order};
    ghost use Rattle.bale_subjects.specs.declared.subject.Subject.TheVariants as subjects;
    ghost use Rattle.bale_words.specs.declared.task.Task.TheVariants as tasks;

    type Options = ();

    type Of = Matrix;

    type Answer = Option<TopoOrder>;

    ghost task = { λ _. tasks.Topo };

    ghost subject = { λ m. subjects.Matrix m };

    ghost needs = { λ _ m. m.rows ≡ m.cols };

    ghost answers = { λ _ m o. o ≡ topo_order m.rows m.entries };

    fn status(options: &(), answer: &Option<TopoOrder>, m: &Matrix) -> u8 {
        match answer {
            Some(_) => 0,
            None => 1,
        }
    }

    #[tactic(auto, using(crate::proofs::Lengths::topo_short))]
    fn write<K: Sink>(
        options: &(),
        answer: &Option<TopoOrder>,
        m: &Matrix,
        out: &mut Out<'_, K>,
    ) -> Result<(), Failed> {
        m.known();
        write_order(answer, out)
    }
}

impl Application for OrderAnswer {
    ghost use Rattle.bale_words.specs.declared.task.Task.TheVariants as tasks;
    ghost use Rattle.bale_subjects.specs.declared.subject.Subject.TheVariants as subjects;
    ghost use Rattle.bale_answers.specs.Tasks.{begun_with_fits};
    ghost use Rattle.app_topo.specs.TopoRuns.{topo_starts};

    type Prog = Topo;

    ghost starts = { λ _. topo_starts };

    ghost of_task = { λ _ p of. begun_with_fits tasks.Topo p (subjects.Matrix of) };

    fn start(alloc: Global, options: &(), m: &Matrix, ranks: u32) -> Result<Progs<Topo>, NoMemory> {
        topo_start(alloc, m, ranks)
    }

    fn end(
        alloc: Global,
        options: &(),
        m: &Matrix,
        progs: Progs<Topo>,
    ) -> Result<Option<TopoOrder>, NoMemory>
        requires needs { m.now.rows ≡ m.now.cols }
        requires ended { (ranks : ℕ) × (1 ≤ ranks) × (ranks ≤ 64)
            × HaveEnded topo_rules (topo_starts ranks m.now) progs }
        ensures { IfOk result (λ o. o ≡ topo_order m.now.rows m.now.entries) }
    {
        m.known();
        topo_end(alloc, m, &progs)
    }
}

/// The lines of an order, or that there is none.
fn write_order<K: Sink>(order: &Option<TopoOrder>, out: &mut Out<'_, K>) -> Result<(), Failed>
    ensures { Writes K.taken K.faults (order_text order.now) out.old out.new result }
{
    match order {
        Some(order) => topo_write(order, out),
        None => out.text(b"not triangular\n"),
    }
}
