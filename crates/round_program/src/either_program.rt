//! Either of two programs as one program. So one type stands for several applications, and a drive
//! is compiled once for them all: the drives of a tree of `Either`s run whichever program is there.
//! A drive emits and absorbs by the batch, so that a tree costs one choice for each batch and none
//! for an item.

use crate::arrivals::Arrivals;
use crate::departures::Departures;
use crate::program::Program;
use bale_items::{Item, NoMemory};
use either::{Either, Left, Right};

impl<A: Program, B: Program> Program for Either<A, B> {
    ghost use Rattle.round_program.specs.Eithers.{either_rules};
    ghost use Rattle.round_program.specs.EitherLaws.{either_laws};

    ghost rules = { either_rules A.rules B.rules };

    ghost laws = { either_laws A.rules B.rules A.laws B.laws };

    fn rank(&self) -> u32 {
        match self {
            Left(a) => a.rank(),
            Right(b) => b.rank(),
        }
    }

    fn ranks(&self) -> u32 {
        match self {
            Left(a) => a.ranks(),
            Right(b) => b.ranks(),
        }
    }

    fn round(&self) -> u64 {
        match self {
            Left(a) => a.round(),
            Right(b) => b.round(),
        }
    }

    fn count(&self) -> u64 {
        match self {
            Left(a) => a.count(),
            Right(b) => b.count(),
        }
    }

    fn emission(&self, i: u64) -> (u32, Item) {
        match self {
            Left(a) => a.emission(i),
            Right(b) => b.emission(i),
        }
    }

    fn emit_each<D: Departures>(&self, from: u64, out: &mut D) -> u64 {
        match self {
            Left(a) => a.emit_each(from, out),
            Right(b) => b.emit_each(from, out),
        }
    }

    fn fits(&self, from: u32, item: Item) -> bool {
        match self {
            Left(a) => a.fits(from, item),
            Right(b) => b.fits(from, item),
        }
    }

    fn absorb(&mut self, from: u32, item: Item) -> Result<(), NoMemory> {
        match self {
            Left(a) => a.absorb(from, item),
            Right(b) => b.absorb(from, item),
        }
    }

    fn absorb_each<I: Arrivals>(&mut self, came: I) -> Result<(), NoMemory> {
        match self {
            Left(a) => a.absorb_each(came),
            Right(b) => b.absorb_each(came),
        }
    }

    fn vote(&self) -> u64 {
        match self {
            Left(a) => a.vote(),
            Right(b) => b.vote(),
        }
    }

    fn goes_on(&self, votes: u64) -> bool {
        match self {
            Left(a) => a.goes_on(votes),
            Right(b) => b.goes_on(votes),
        }
    }

    fn end_round(&mut self, votes: u64) -> Result<bool, NoMemory> {
        match self {
            Left(a) => a.end_round(votes),
            Right(b) => b.end_round(votes),
        }
    }
}
