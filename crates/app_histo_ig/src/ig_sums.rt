//! The sums of columns alone, which ranks of ig know before they ask one another.

ghost use Rattle.std.specs.Prelude.{◌≡◌, ◌<◌, map};
ghost use Rattle.app_histo_ig.specs.Sums.{IsSums};
ghost use Rattle.app_histo_ig.specs.code.IgSent.{to_add};

use crate::batches::rise_each;
use crate::ig_lists::rise;
use crate::ig_sent::{Own, value_of_own};
use crate::seat::Seat;
use bale_items::{Item, NoMemory};
use round_program::{Arrivals, Program};
use std::marker::Model;

/// One rank's part of ig's first round: the owner of each column adds up its values. Column `j`
/// belongs to rank `j mod ranks`, which keeps its sum at place `j div ranks`.
#[derive(Drop)]
pub struct IgSums {
    rank: u32,
    ranks: u32,
    round: u64,
    /// the matrix's number of columns
    cols: u32,
    /// the rank's entries, in order
    own: Vec<Own>,
    /// the sums of own columns
    sums: Vec<u64>,
}

impl Model for IgSums {
    ghost use Rattle.app_histo_ig.specs.Sums.{SumsState, IsSums};

    ghost Value = { SumsState };

    ghost use Rattle.app_histo_ig.specs.code.SumsView.{sums_state};

    ghost view = { sums_state };

    ghost invariant = { λ s. IsSums (sums_state s) };
}

/// What a rank has after the round: its entries, and the sums of its columns.
#[derive(Drop)]
pub(crate) struct Added {
    pub(crate) own: Vec<Own>,
    pub(crate) sums: Vec<u64>,
}

impl IgSums {
    /// A rank before the round.
    pub(crate) fn new(rank: u32, ranks: u32, cols: u32, own: Vec<Own>, sums: Vec<u64>) -> IgSums
        requires { IsSums (record {
          rank = rank;
          ranks = ranks;
          round = 0;
          cols = cols;
          values = map (to_add ranks) own.items;
          sums = sums.items;
        }) }
        ensures { result ≡ record {
          rank = rank;
          ranks = ranks;
          round = 0;
          cols = cols;
          values = map (to_add ranks) own.items;
          sums = sums.items;
        } }
    {
        IgSums {
            rank,
            ranks,
            round: 0,
            cols,
            own,
            sums,
        }
    }

    /// What it has.
    pub(crate) fn into_added(self) -> Added
        ensures values { map (to_add self.ranks) result.own.items ≡ self.values }
        ensures sums { result.sums.items ≡ self.sums }
    {
        Added {
            own: self.own,
            sums: self.sums,
        }
    }
}

impl Program for IgSums {
    ghost use Rattle.app_histo_ig.specs.Sums.{sums_rules};
    ghost use Rattle.app_histo_ig.specs.laws.SumsLaws.{sums_laws};

    ghost rules = { sums_rules };

    ghost laws = { sums_laws };

    fn rank(&self) -> u32 {
        self.rank
    }

    fn ranks(&self) -> u32 {
        self.ranks
    }

    fn round(&self) -> u64 {
        self.round
    }

    fn count(&self) -> u64 {
        if self.round == 0 {
            self.own.len() as u64
        } else {
            0
        }
    }

    fn emission(&self, i: u64) -> (u32, Item) {
        value_of_own(&self.own, self.ranks, i as usize)
    }

    fn fits(&self, from: u32, item: Item) -> bool {
        self.round == 0
            && from < self.ranks
            && item.a < self.cols as u64
            && item.a as u32 % self.ranks == self.rank
    }

    fn absorb(&mut self, from: u32, item: Item) -> Result<(), NoMemory> {
        rise(&mut self.sums, self.ranks, item);
        Ok(())
    }

    fn absorb_each<I: Arrivals>(&mut self, came: I) -> Result<(), NoMemory> {
        if self.round == 0 {
            let seat = Seat {
                rank: self.rank,
                ranks: self.ranks,
                cols: self.cols,
            };
            rise_each(&mut self.sums, seat, came);
        }
        Ok(())
    }

    fn vote(&self) -> u64 {
        0
    }

    fn goes_on(&self, votes: u64) -> bool {
        false
    }

    fn end_round(&mut self, votes: u64) -> Result<bool, NoMemory> {
        self.round = self.round.saturating_add(1);
        Ok(false)
    }
}
