//! histo: each rank has a part of a matrix's entries, and each column's owner counts the column's
//! entries.

ghost use Rattle.std.specs.Prelude.{◌≡◌, ◌<◌, length};
ghost use Rattle.std.specs.List.{All};
ghost use Rattle.sparse_rows.specs.Owners.{places_for};

use crate::batches::rise_each;
use crate::seat::Seat;
use bale_items::{Item, NoMemory};
use round_program::{Arrivals, Program};
use std::marker::Model;

/// One rank's part of histo. Column `j` belongs to rank `j mod ranks`, which keeps its count at
/// place `j div ranks`.
#[derive(Drop)]
pub struct Histo {
    rank: u32,
    ranks: u32,
    round: u64,
    /// the matrix's number of columns
    cols: u32,
    /// the columns of the rank's entries, in order
    columns: Vec<u32>,
    /// how many entries each own column has
    counts: Vec<u64>,
}

impl Model for Histo {
    ghost use Rattle.app_histo_ig.specs.Histos.{HistoState, IsHisto};

    ghost Value = { HistoState };

    ghost use Rattle.app_histo_ig.specs.code.HistoView.{histo_state};

    ghost view = { histo_state };

    ghost invariant = { λ s. IsHisto (histo_state s) };
}

impl Histo {
    /// A rank whose entries are in `columns`, each below `cols`.
    pub(crate) fn new(
        rank: u32,
        ranks: u32,
        cols: u32,
        columns: Vec<u32>,
        counts: Vec<u64>,
    ) -> Histo
        requires rank { rank < ranks }
        requires named { All (λ j. j < cols) columns.items }
        requires places { length counts.items ≡ places_for ranks cols }
        ensures { result ≡ record {
          rank = rank;
          ranks = ranks;
          round = 0;
          cols = cols;
          columns = columns.items;
          counts = counts.items;
        } }
    {
        Histo {
            rank,
            ranks,
            round: 0,
            cols,
            columns,
            counts,
        }
    }

    /// The matrix's number of columns.
    pub(crate) fn cols(&self) -> u32
        ensures { result ≡ self.now.cols }
    {
        self.cols
    }

    /// The counts of own columns; that of column `j` is at `j div ranks`.
    pub fn counts(&self) -> &[u64]
        ensures { result.now ≡ self.now.counts }
    {
        &self.counts
    }
}

impl Program for Histo {
    ghost use Rattle.app_histo_ig.specs.Histos.{histo_rules};
    ghost use Rattle.app_histo_ig.specs.laws.HistoLaws.{histo_laws};

    ghost rules = { histo_rules };

    ghost laws = { histo_laws };

    fn rank(&self) -> u32 {
        self.rank
    }

    fn ranks(&self) -> u32 {
        self.ranks
    }

    fn round(&self) -> u64 {
        self.round
    }

    fn count(&self) -> u64 {
        if self.round == 0 {
            self.columns.len() as u64
        } else {
            0
        }
    }

    fn emission(&self, i: u64) -> (u32, Item) {
        let column = self.columns[i as usize];
        let item = Item {
            a: column as u64,
            b: 1,
            c: 0,
        };
        (column % self.ranks, item)
    }

    fn fits(&self, from: u32, item: Item) -> bool {
        self.round == 0
            && from < self.ranks
            && item.a < self.cols as u64
            && item.a as u32 % self.ranks == self.rank
    }

    fn absorb(&mut self, from: u32, item: Item) -> Result<(), NoMemory> {
        let ranks = self.ranks;
        let place = (item.a as u32 / ranks) as usize;
        self.counts[place] = self.counts[place].wrapping_add(item.b);
        Ok(())
    }

    fn absorb_each<I: Arrivals>(&mut self, came: I) -> Result<(), NoMemory> {
        if self.round == 0 {
            let seat = Seat {
                rank: self.rank,
                ranks: self.ranks,
                cols: self.cols,
            };
            rise_each(&mut self.counts, seat, came);
        }
        Ok(())
    }

    fn vote(&self) -> u64 {
        0
    }

    fn goes_on(&self, votes: u64) -> bool {
        false
    }

    fn end_round(&mut self, votes: u64) -> Result<bool, NoMemory> {
        self.round = self.round.saturating_add(1);
        Ok(false)
    }
}
