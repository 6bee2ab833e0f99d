//! transpose: the owner of each new row gets the row's cells.

ghost use Rattle.std.specs.Prelude.{◌≡◌, ◌<◌, []};
ghost use Rattle.app_permute.specs.code.Sent.{permute_sent};
ghost use Rattle.app_permute.specs.Transposes.{IsTransposing};

use crate::carried::{RowOwner, cell_fits, raise_cell, raise_each};
use crate::sending::{emission_of, emit_sent};
use bale_items::{Item, NoMemory, Triple};
use mtx_text::Cells;
use round_program::{Arrivals, Departures, Program};
use std::alloc::Global;
use std::marker::Model;

/// One rank's part of transpose, in one round. Row `x` of the transposed matrix belongs to rank `x
/// mod ranks`.
#[derive(Drop)]
pub struct Transpose {
    rank: u32,
    ranks: u32,
    round: u64,
    /// the transposed matrix's rows
    rows: u32,
    /// the transposed matrix's columns
    cols: u32,
    /// the cells that are sent in this round
    outgoing: Vec<Triple>,
    /// the cells of own rows
    cells: Cells,
}

impl Model for Transpose {
    ghost use Rattle.app_permute.specs.Transposes.{TransposeState, IsTransposing};

    ghost Value = { TransposeState };

    ghost use Rattle.app_permute.specs.code.TransposeView.{transpose_state};

    ghost view = { transpose_state };

    ghost invariant = { λ s. IsTransposing (transpose_state s) };
}

impl Transpose {
    /// A rank before its round, for a transposed matrix of so many rows and columns.
    pub(crate) fn new(
        alloc: Global,
        rank: u32,
        ranks: u32,
        rows: u32,
        cols: u32,
        outgoing: Vec<Triple>,
    ) -> Transpose
        requires { IsTransposing (record {
          rank = rank;
          ranks = ranks;
          round = 0;
          rows = rows;
          cols = cols;
          outgoing = permute_sent 0 ranks outgoing.items;
          cells = [];
        }) }
        ensures { result ≡ record {
          rank = rank;
          ranks = ranks;
          round = 0;
          rows = rows;
          cols = cols;
          outgoing = permute_sent 0 ranks outgoing.items;
          cells = [];
        } }
    {
        Transpose {
            rank,
            ranks,
            round: 0,
            rows,
            cols,
            outgoing,
            cells: Cells::new(alloc),
        }
    }

    /// The cells of own rows.
    pub fn cells(&self) -> &Cells
        ensures { result.now ≡ self.now.cells }
    {
        &self.cells
    }
}

impl Program for Transpose {
    ghost use Rattle.app_permute.specs.Transposes.{transpose_rules};
    ghost use Rattle.app_permute.specs.laws.TransposeLaws.{transpose_laws};

    ghost rules = { transpose_rules };

    ghost laws = { transpose_laws };

    fn rank(&self) -> u32 {
        self.rank
    }

    fn ranks(&self) -> u32 {
        self.ranks
    }

    fn round(&self) -> u64 {
        self.round
    }

    fn count(&self) -> u64 {
        self.outgoing.len() as u64
    }

    fn emission(&self, i: u64) -> (u32, Item) {
        emission_of(0, self.ranks, &self.outgoing, i)
    }

    fn emit_each<D: Departures>(&self, from: u64, out: &mut D) -> u64 {
        emit_sent(0, self.ranks, &self.outgoing, from, out)
    }

    fn fits(&self, from: u32, item: Item) -> bool {
        self.round == 0 && cell_fits(self.rows, self.cols, self.ranks, self.rank, from, item)
    }

    fn absorb(&mut self, from: u32, item: Item) -> Result<(), NoMemory> {
        raise_cell(&mut self.cells, item)
    }

    fn absorb_each<I: Arrivals>(&mut self, came: I) -> Result<(), NoMemory> {
        if self.round == 0 {
            // Which cells are for this rank is read once for all.
            let owner = RowOwner {
                rank: self.rank,
                ranks: self.ranks,
                rows: self.rows,
                cols: self.cols,
            };
            return raise_each(&mut self.cells, owner, came);
        }
        Ok(())
    }

    fn vote(&self) -> u64 {
        0
    }

    fn goes_on(&self, votes: u64) -> bool {
        false
    }

    fn end_round(&mut self, votes: u64) -> Result<bool, NoMemory> {
        self.round = self.round.saturating_add(1);
        // What was sent makes room for the matrix. Each rank puts its cells in order, so that few
        // steps are left where they are put together.
        self.outgoing = Vec::new(*self.outgoing.allocator());
        self.cells.settle();
        Ok(false)
    }
}
