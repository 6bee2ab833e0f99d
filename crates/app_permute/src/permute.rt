//! permute: cells travel by their rows, by their columns, and by their new rows, and each owner
//! gives a new number.

ghost use Rattle.std.specs.Prelude.{◌≡◌, []};
ghost use Rattle.app_permute.specs.Permutes.{IsPermuting};
ghost use Rattle.app_permute.specs.code.Sent.{permute_sent};

use crate::carried::{RowOwner, Turned, raise_each, raise_kept};
use crate::permute_lists::{renumber, take_cells};
use crate::sending::{emission_of, emit_sent};
use bale_items::{Item, NoMemory, Triple};
use mtx_text::Cells;
use round_program::{Arrivals, Departures, Program};
use std::alloc::Global;
use std::marker::Model;

/// One rank's part of permute, in three rounds. Row `i` belongs to rank `i mod ranks` and column
/// `j` to rank `j mod ranks`, in the old matrix and in the new one. A rank knows the new numbers of
/// its own rows and columns alone, so a cell goes to the owner of its row, then to that of its
/// column, and then to that of its new row.
#[derive(Drop)]
pub struct Permute {
    rank: u32,
    ranks: u32,
    round: u64,
    /// the matrix's rows
    rows: u32,
    /// the matrix's columns
    cols: u32,
    /// the new numbers of own rows; that of row `i` is at `i div ranks`
    new_rows: Vec<u32>,
    /// the new numbers of own columns
    new_cols: Vec<u32>,
    /// the cells that are sent in this round, with the new numbers that the rank gave them
    outgoing: Vec<Triple>,
    /// the cells that came in this round
    cells: Cells,
}

impl Model for Permute {
    ghost use Rattle.app_permute.specs.Permutes.{PermuteState, IsPermuting};

    ghost Value = { PermuteState };

    ghost use Rattle.app_permute.specs.code.PermuteView.{permute_state};

    ghost view = { permute_state };

    ghost invariant = { λ s. IsPermuting (permute_state s) };
}

/// What a rank of permute begins with, besides its numbers.
#[derive(Drop)]
pub(crate) struct Begins {
    pub(crate) new_rows: Vec<u32>,
    pub(crate) new_cols: Vec<u32>,
    pub(crate) outgoing: Vec<Triple>,
}

impl Permute {
    /// A rank before its first round, for a matrix of so many rows and columns.
    pub(crate) fn new(
        alloc: Global,
        rank: u32,
        ranks: u32,
        rows: u32,
        cols: u32,
        begins: Begins,
    ) -> Permute
        requires { IsPermuting (record {
          rank = rank;
          ranks = ranks;
          round = 0;
          rows = rows;
          cols = cols;
          new_rows = begins.new_rows.items;
          new_cols = begins.new_cols.items;
          outgoing = permute_sent 0 ranks begins.outgoing.items;
          cells = [];
        }) }
        ensures { result ≡ record {
          rank = rank;
          ranks = ranks;
          round = 0;
          rows = rows;
          cols = cols;
          new_rows = begins.new_rows.items;
          new_cols = begins.new_cols.items;
          outgoing = permute_sent 0 ranks begins.outgoing.items;
          cells = [];
        } }
    {
        Permute {
            rank,
            ranks,
            round: 0,
            rows,
            cols,
            new_rows: begins.new_rows,
            new_cols: begins.new_cols,
            outgoing: begins.outgoing,
            cells: Cells::new(alloc),
        }
    }

    /// The cells that came: after the run those of own rows of the permuted matrix.
    pub fn cells(&self) -> &Cells
        ensures { result.now ≡ self.now.cells }
    {
        &self.cells
    }
}

impl Program for Permute {
    ghost use Rattle.app_permute.specs.Permutes.{permute_rules};
    ghost use Rattle.app_permute.specs.laws.PermuteLaws.{permute_laws};

    ghost rules = { permute_rules };

    ghost laws = { permute_laws };

    fn rank(&self) -> u32 {
        self.rank
    }

    fn ranks(&self) -> u32 {
        self.ranks
    }

    fn round(&self) -> u64 {
        self.round
    }

    fn count(&self) -> u64 {
        self.outgoing.len() as u64
    }

    fn emission(&self, i: u64) -> (u32, Item) {
        emission_of(self.round, self.ranks, &self.outgoing, i)
    }

    fn emit_each<D: Departures>(&self, from: u64, out: &mut D) -> u64 {
        emit_sent(self.round, self.ranks, &self.outgoing, from, out)
    }

    fn fits(&self, from: u32, item: Item) -> bool {
        let owned = if self.round == 1 { item.b } else { item.a };
        from < self.ranks
            && item.a < self.rows as u64
            && item.b < self.cols as u64
            && owned as u32 % self.ranks == self.rank
    }

    fn absorb(&mut self, from: u32, item: Item) -> Result<(), NoMemory> {
        raise_kept(&mut self.cells, self.round, item)
    }

    fn absorb_each<I: Arrivals>(&mut self, came: I) -> Result<(), NoMemory> {
        // Which cells are for this rank, and by which side they are kept, is read once for all.
        if self.round == 1 {
            let owner = RowOwner {
                rank: self.rank,
                ranks: self.ranks,
                rows: self.cols,
                cols: self.rows,
            };
            return raise_each(&mut self.cells, owner, Turned { came });
        }
        let owner = RowOwner {
            rank: self.rank,
            ranks: self.ranks,
            rows: self.rows,
            cols: self.cols,
        };
        raise_each(&mut self.cells, owner, came)
    }

    fn vote(&self) -> u64 {
        0
    }

    fn goes_on(&self, votes: u64) -> bool {
        self.round < 2
    }

    fn end_round(&mut self, votes: u64) -> Result<bool, NoMemory> {
        let goes_on = self.round < 2;
        take_cells(&mut self.cells, &mut self.outgoing, self.round);
        renumber(
            &mut self.outgoing,
            self.round,
            self.ranks,
            &self.new_rows,
            &self.new_cols,
        );
        self.round = self.round.saturating_add(1);
        Ok(goes_on)
    }
}
