//! One rank's part.

ghost use Rattle.std.specs.Prelude.{◌≡◌};
ghost use Rattle.skeleton.specs.State.{IsState};

use bale_items::{Item, NoMemory};
use reductions::{HasCells, Reduced, Reduction};
use round_program::Program;
use std::marker::Model;

/// One rank of the run. Column `j` belongs to rank `j mod ranks`; each rank has a cell for every
/// column, and only those of its own columns ever change.
#[derive(Drop)]
pub struct Skeleton {
    rank: u32,
    ranks: u32,
    round: u64,
    /// what is sent in this round
    sends: Vec<(u32, Item)>,
    /// by column
    cells: Reduced,
}

impl Model for Skeleton {
    ghost use Rattle.skeleton.specs.State.{State, IsState};

    ghost Value = { State };

    ghost use Rattle.skeleton.specs.View.{state};

    ghost view = { state };

    ghost invariant = { λ s. IsState (state s) };
}

impl Skeleton {
    /// A rank before its first round.
    pub fn new(rank: u32, ranks: u32, sends: Vec<(u32, Item)>, cells: Reduced) -> Skeleton
        requires { IsState (record {
          rank = rank;
          ranks = ranks;
          round = 0;
          sends = sends.items;
          cells = cells;
        }) }
        ensures { result ≡ record {
          rank = rank;
          ranks = ranks;
          round = 0;
          sends = sends.items;
          cells = cells;
        } }
    {
        Skeleton {
            rank,
            ranks,
            round: 0,
            sends,
            cells,
        }
    }
}

impl HasCells for Skeleton {
    ghost cells_of = { λ s. s.cells };

    fn cells(&self) -> &Reduced {
        &self.cells
    }
}

impl Program for Skeleton {
    ghost use Rattle.skeleton.specs.State.{rules};
    ghost use Rattle.skeleton.specs.Laws.{laws};

    ghost rules = { rules };

    ghost laws = { laws };

    fn rank(&self) -> u32 {
        self.rank
    }

    fn ranks(&self) -> u32 {
        self.ranks
    }

    fn round(&self) -> u64 {
        self.round
    }

    fn count(&self) -> u64 {
        self.sends.len() as u64
    }

    fn emission(&self, i: u64) -> (u32, Item) {
        self.sends[i as usize]
    }

    fn fits(&self, from: u32, item: Item) -> bool {
        from < self.ranks
            && item.a < self.cells.len() as u64
            && item.a % self.ranks as u64 == self.rank as u64
    }

    fn absorb(&mut self, from: u32, item: Item) -> Result<(), NoMemory> {
        self.cells.take(Reduction::Least, item.a as usize, item.b);
        Ok(())
    }

    fn vote(&self) -> u64 {
        self.cells.vote()
    }

    fn goes_on(&self, votes: u64) -> bool {
        false
    }

    fn end_round(&mut self, votes: u64) -> Result<bool, NoMemory> {
        self.sends.clear();
        self.cells.begin();
        self.round = self.round.saturating_add(1);
        Ok(false)
    }
}
