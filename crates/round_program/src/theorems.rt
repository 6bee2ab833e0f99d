//! What holds of every program that meets the laws: the theorems that a drive depends on.

ghost use Rattle.round_program.specs.Orders.{OneMorePull, EveryOrder, EveryOrderIsCanonical};
ghost use Rattle.std.specs.Prelude.{ℕ, List, ◌∷◌};
ghost use Rattle.either.specs.declared.Either.TheVariants.{Left, Right};
ghost use Rattle.round_program.specs.Epochs.{EveryRunIsCanonical};
ghost use Rattle.round_program.specs.Injections.{Injects, SameRuns};
ghost use Rattle.round_program.specs.Eithers.{either_rules};

use crate::program::Program;

/// The interleaving theorem: the order in which a rank absorbs the items of different senders
/// doesn't matter.
pub fn every_order<Q: Program>()
    ensures one_more_pull { OneMorePull Q.rules }
    ensures every_order { EveryOrder Q.rules }
    ensures canonical { EveryOrderIsCanonical Q.rules }
{}

/// The theorem over all rounds: from what each rank knows of itself, and from pulled lists that are
/// the pushed ones, each rank is within the canonical run, at every moment and with the ranks in
/// different rounds.
pub fn every_run<Q: Program>()
    ensures { EveryRunIsCanonical Q.rules }
{}

/// One program as a case of another: if each state of `A` has its state of `B`, which does the
/// same, a run of `B` that begins with such states is the run of `A`. So one type can stand for
/// several applications, and one drive run them all.
pub fn same_runs<A: Program, B: Program>()
    ensures { (inject : A → B) (wrap : List ℕ → List ℕ) → Injects A.rules B.rules inject wrap
        → SameRuns A.rules B.rules inject wrap }
{}

/// Either of two programs runs each as it is: the left one, and the right one, is a case of both.
pub fn either_runs<A: Program, B: Program>()
    ensures left { Injects A.rules (either_rules A.rules B.rules) Left (λ shape. 0 ∷ shape) }
    ensures right { Injects B.rules (either_rules A.rules B.rules) Right (λ shape. 1 ∷ shape) }
{}

/// A case of a case is a case: so a program is one of a tree of `Either`s.
pub fn case_of_case<A: Program, B: Program, C: Program>()
    ensures { (i : A → B) (w : List ℕ → List ℕ) (j : B → C) (v : List ℕ → List ℕ) → Injects A.rules B.rules i w
        → Injects B.rules C.rules j v
        → Injects A.rules C.rules (λ s. j (i s)) (λ shape. v (w shape)) }
{}
