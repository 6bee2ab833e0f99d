//! Any of the applications, as one program.

use crate::tally_case::TallyCase;
use app_histo_ig::{Histo, Ig, IgSums};
use app_permute::{Permute, Transpose};
use app_sssp::Sssp;
use app_topo::Topo;
use bale_items::{Item, NoMemory};
use delta_step::Delta;
use either::Either;
use round_program::{Arrivals, Departures, Program};
use std::marker::Model;

/// A leaf for each application: ig whole or its sums alone, and tally in its mailer.
pub(crate) type Tree = Either<
    Either<Histo, Either<Ig, IgSums>>,
    Either<Either<Permute, Transpose>, Either<Either<Topo, TallyCase>, Either<Sssp, Delta>>>,
>;

/// Any of the applications. It is a type of its own since a program's type is written out in the
/// name of each type and function that is compiled for it, and the tree's name is long.
#[derive(Drop)]
pub struct AnyProgram {
    pub(crate) tree: Tree,
}

impl Model for AnyProgram {
    ghost use Rattle.app_cases.specs.Any.{AnyState};

    ghost Value = { AnyState };

    ghost view = { λ p. p.tree };
}

impl Program for AnyProgram {
    ghost use Rattle.app_cases.specs.Any.{any_rules};
    ghost use Rattle.app_cases.specs.laws.AnyLaws.{any_laws};

    ghost rules = { any_rules };

    ghost laws = { any_laws };

    #[inline]
    fn rank(&self) -> u32 {
        self.tree.rank()
    }

    #[inline]
    fn ranks(&self) -> u32 {
        self.tree.ranks()
    }

    #[inline]
    fn round(&self) -> u64 {
        self.tree.round()
    }

    #[inline]
    fn count(&self) -> u64 {
        self.tree.count()
    }

    #[inline]
    fn emission(&self, i: u64) -> (u32, Item) {
        self.tree.emission(i)
    }

    #[inline]
    fn emit_each<D: Departures>(&self, from: u64, out: &mut D) -> u64 {
        self.tree.emit_each(from, out)
    }

    #[inline]
    fn fits(&self, from: u32, item: Item) -> bool {
        self.tree.fits(from, item)
    }

    #[inline]
    fn absorb(&mut self, from: u32, item: Item) -> Result<(), NoMemory> {
        self.tree.absorb(from, item)
    }

    #[inline]
    fn absorb_each<I: Arrivals>(&mut self, came: I) -> Result<(), NoMemory> {
        self.tree.absorb_each(came)
    }

    #[inline]
    fn vote(&self) -> u64 {
        self.tree.vote()
    }

    #[inline]
    fn goes_on(&self, votes: u64) -> bool {
        self.tree.goes_on(votes)
    }

    #[inline]
    fn end_round(&mut self, votes: u64) -> Result<bool, NoMemory> {
        self.tree.end_round(votes)
    }
}
