//! The programs of one application, put as any of them and taken out again.

ghost use Rattle.std.specs.Prelude.{◌≡◌, ℕ, ◌<◌, List, length, map, IfOk};
ghost use Rattle.round_program.specs.Canonical.{InRound, EndsWithin, HaveEnded};
ghost use Rattle.app_cases.specs.Any.{any_rules};

use crate::any_program::AnyProgram;
use crate::case::Case;
use bale_items::NoMemory;
use round_program::Progs;
use std::alloc::Global;

/// The programs as any of the applications: a run of them is the application's own run.
///
/// # Errors
/// `NoMemory` if the list found none. The programs are dropped.
pub fn put_all<A: Case>(alloc: Global, mut progs: Progs<A>) -> Result<Progs<AnyProgram>, NoMemory>
    ensures any { IfOk result (λ any. any ≡ map A.case_of progs) }
    ensures begins { (ranks : ℕ) → 0 < length progs
        → ((shape : List ℕ) × (most : ℕ) × InRound A.rules ranks 0 shape most progs × EndsWithin A.rules progs most)
        → IfOk result (λ any. (shape : List ℕ) × (most : ℕ) × InRound any_rules ranks 0 shape most any
        × EndsWithin any_rules any most) }
{
    let mut all = Progs::new(alloc);
    while let Some(prog) = progs.take_first() {
        all.add(prog.put())?;
    }
    Ok(all)
}

/// The programs of an application after their last round, out of what its programs were put as.
///
/// # Errors
/// `NoMemory` if the list found none. The programs are dropped.
pub fn take_all<A: Case>(alloc: Global, mut any: Progs<AnyProgram>) -> Result<Progs<A>, NoMemory>
    requires ended { (starts : List A) × (0 < length starts) × HaveEnded any_rules (map A.case_of starts) any }
    ensures ended { (starts : List A) → 0 < length starts → HaveEnded any_rules (map A.case_of starts) any
        → IfOk result (λ progs. HaveEnded A.rules starts progs) }
{
    let mut all = Progs::new(alloc);
    while let Some(prog) = any.take_first() {
        all.add(A::taken(prog))?;
    }
    Ok(all)
}
