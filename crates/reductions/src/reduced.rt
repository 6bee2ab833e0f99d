//! Numbers by key, each reduced by what comes for it.

ghost use Rattle.std.specs.Prelude.{◌≡◌, ◌<◌, length, IfOk};
ghost use Rattle.reductions.specs.Reductions.{combination, at_round_begin, after_item, has_changed, vote_of};

use bale_items::NoMemory;
use std::alloc::Global;
use std::marker::Model;

/// How a cell and what comes for it make the next cell.
#[derive(Clone, Copy, PartialEq, Eq, Debug)]
pub enum Reduction {
    /// the lesser of both
    Least,
    /// the greater of both
    Greatest,
    /// their sum modulo 2^64
    Sum,
}

/// Cells by key, from 0 on: each is a number that is reduced by what comes for it, and what it was
/// as the round began stands beside it. What a program sends in a round is read from there, so that
/// no item that comes changes it.
#[derive(Drop)]
pub struct Reduced {
    before: Vec<u64>,
    cells: Vec<u64>,
}

impl Model for Reduced {
    ghost use Rattle.std.specs.Prelude.{◌≡◌, length};
    ghost use Rattle.reductions.specs.Reductions.{ReducedState};

    ghost Value = { ReducedState };

    ghost view = { λ s. record { before = s.before.items; cells = s.cells.items } };

    ghost invariant = { λ s. length s.before.items ≡ length s.cells.items };
}

impl Reduced {
    /// Cells with these values, as a round begins.
    ///
    /// # Errors
    /// `NoMemory` if there was none.
    pub fn new(alloc: Global, values: &[u64]) -> Result<Reduced, NoMemory>
        ensures { IfOk result (λ s. s ≡ at_round_begin values.now) }
    {
        let before = Vec::from_slice(alloc, values)?;
        let cells = Vec::from_slice(alloc, values)?;
        Ok(Reduced { before, cells })
    }

    /// Does nothing, and states that each cell has a value from before.
    pub fn known(&self)
        ensures { length self.now.before ≡ length self.now.cells }
    {
        let _ = &self.before;
    }

    /// The number of cells.
    pub fn len(&self) -> usize
        ensures { result ≡ length self.now.cells }
    {
        self.cells.len()
    }

    /// The cells, by key.
    pub fn cells(&self) -> &[u64]
        ensures { result.now ≡ self.now.cells }
    {
        &self.cells
    }

    /// The cells as the round began, by key.
    pub fn before(&self) -> &[u64]
        ensures { result.now ≡ self.now.before }
    {
        &self.before
    }

    /// Reduces a cell by what came for it.
    pub fn take(&mut self, how: Reduction, key: usize, value: u64)
        requires { key < length self.old.cells }
        ensures { self.new ≡ after_item how self.old key value }
    {
        self.cells[key] = combine(how, self.cells[key], value);
    }

    /// Whether a cell isn't what it was as the round began.
    pub fn has_changed(&self, key: usize) -> bool
        requires { key < length self.now.cells }
        ensures { result ≡ has_changed self.now key }
    {
        self.cells[key] != self.before[key]
    }

    /// 1 if a cell has changed in this round, else 0: a vote to go on.
    pub fn vote(&self) -> u64
        ensures { result ≡ vote_of self.now }
    {
        if self.cells.as_slice() == self.before.as_slice() {
            0
        } else {
            1
        }
    }

    /// Begins a round. No memory is taken.
    pub fn begin(&mut self)
        ensures { self.new ≡ at_round_begin self.old.cells }
    {
        self.before.copy_from_slice(&self.cells);
    }
}

/// What a cell and a value make.
fn combine(how: Reduction, cell: u64, value: u64) -> u64
    ensures { result ≡ combination how cell value }
{
    match how {
        Reduction::Least => cell.min(value),
        Reduction::Greatest => cell.max(value),
        Reduction::Sum => cell.wrapping_add(value),
    }
}
