//! Counting: each rank has a list of columns, and each column's owner counts how often it is named.

ghost use Rattle.std.specs.Prelude.{◌≡◌, ◌<◌, ◌^◌, length};
ghost use Rattle.std.specs.List.{All};

use bale_items::{Item, NoMemory};
use round_program::Program;
use std::marker::Model;

/// One rank's part of a count. Column `j` belongs to rank `j mod ranks`, and each rank keeps a
/// count for every column.
#[derive(Drop)]
pub struct Count {
    rank: u32,
    ranks: u32,
    round: u64,
    /// the columns that are named, in order
    names: Vec<u32>,
    /// how often each column was named; its length is the number of columns
    counts: Vec<u64>,
}

impl Model for Count {
    ghost use Rattle.round_examples.specs.Counts.{CountState, IsCount};

    ghost Value = { CountState };

    ghost use Rattle.round_examples.specs.code.CountView.{count_state};

    ghost view = { count_state };

    ghost invariant = { λ s. IsCount (count_state s) };
}

impl Count {
    /// A rank that names `names`, each below the number of `counts`.
    pub fn new(rank: u32, ranks: u32, names: Vec<u32>, counts: Vec<u64>) -> Count
        requires rank { rank < ranks }
        requires columns { length counts.items < 2 ^ 32 }
        requires named { All (λ j. j < length counts.items) names.items }
        ensures { result ≡ record {
          rank = rank;
          ranks = ranks;
          round = 0;
          names = names.items;
          counts = counts.items;
        } }
    {
        Count {
            rank,
            ranks,
            round: 0,
            names,
            counts,
        }
    }

    /// How often each column was named: of own columns by all ranks, of others 0.
    pub fn counts(&self) -> &[u64]
        ensures { result.now ≡ self.now.counts }
    {
        &self.counts
    }
}

impl Program for Count {
    ghost use Rattle.round_examples.specs.Counts.{count_rules};
    ghost use Rattle.round_examples.specs.laws.CountLaws.{count_laws};

    ghost rules = { count_rules };

    ghost laws = { count_laws };

    fn rank(&self) -> u32 {
        self.rank
    }

    fn ranks(&self) -> u32 {
        self.ranks
    }

    fn round(&self) -> u64 {
        self.round
    }

    fn count(&self) -> u64 {
        if self.round == 0 {
            self.names.len() as u64
        } else {
            0
        }
    }

    fn emission(&self, i: u64) -> (u32, Item) {
        let column = self.names[i as usize];
        let item = Item {
            a: column as u64,
            b: 1,
            c: 0,
        };
        (column % self.ranks, item)
    }

    fn fits(&self, from: u32, item: Item) -> bool {
        self.round == 0
            && from < self.ranks
            && item.a < self.counts.len() as u64
            && item.a % self.ranks as u64 == self.rank as u64
    }

    fn absorb(&mut self, from: u32, item: Item) -> Result<(), NoMemory> {
        let column = item.a as usize;
        self.counts[column] = self.counts[column].wrapping_add(item.b);
        Ok(())
    }

    fn vote(&self) -> u64 {
        0
    }

    fn goes_on(&self, votes: u64) -> bool {
        false
    }

    fn end_round(&mut self, votes: u64) -> Result<bool, NoMemory> {
        self.round = self.round.saturating_add(1);
        Ok(false)
    }
}
