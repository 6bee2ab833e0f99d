//! Traffic as a program in rounds: what one rank sends, and what it makes of the items that come.
ghost use Rattle.std.specs.Prelude.{◌≡◌, ◌<◌, ◌^◌, length};
ghost use Rattle.std.specs.List.{All};
ghost use Rattle.round_examples.specs.Traffics.{traffic_raised};
ghost use Rattle.round_examples.specs.code.TrafficBatches.{is_for_it, all_counted, all_checked};

use bale_items::{Item, NoMemory};
use round_program::{Arrivals, Program};
use std::marker::Model;

/// How many cells a rank has.
pub const CELLS: u64 = 1024;

/// One rank's part of a run. In its first round it sends an item to each target, which is a rank
/// and a cell there; in the others it sends nothing.
#[derive(Drop)]
pub struct Traffic {
    rank: u32,
    ranks: u32,
    round: u64,
    rounds: u32,
    targets: Vec<(u32, u32)>,
    /// What came for each cell, and the sum of the numbers of the items that came, both modulo
    /// 2^64.
    counts: Vec<u64>,
    check: u64,
}

impl Model for Traffic {
    ghost use Rattle.round_examples.specs.Traffics.{TrafficState, IsTraffic};
    ghost use Rattle.round_examples.specs.code.TrafficView.{traffic_state};

    ghost Value = { TrafficState };

    ghost view = { traffic_state };

    ghost invariant = { λ s. IsTraffic (traffic_state s) };
}

impl Traffic {
    /// A rank that is in the first of so many rounds.
    pub fn new(
        rank: u32,
        ranks: u32,
        rounds: u32,
        targets: Vec<(u32, u32)>,
        counts: Vec<u64>,
    ) -> Traffic
        requires rank { rank < ranks }
        requires items { length targets.items < 2 ^ 32 }
        requires aims { All (λ t. (t.0 < ranks) × (t.1 < 1024)) targets.items }
        ensures { result ≡ record {
          rank = rank;
          ranks = ranks;
          round = 0;
          rounds = rounds;
          targets = targets.items;
          counts = counts.items;
          check = 0;
        } }
    {
        Traffic {
            rank,
            ranks,
            round: 0,
            rounds,
            targets,
            counts,
            check: 0,
        }
    }

    /// What came: the sum of the numbers of the items, and of each count times the number of its
    /// cell among all cells of the run, from 1 on.
    pub fn checksum(&self) -> u64 {
        let mut sum = self.check;
        let mut cell = (self.rank as u64).wrapping_mul(CELLS).wrapping_add(1);
        for count in &self.counts {
            sum = sum.wrapping_add(count.wrapping_mul(cell));
            cell = cell.wrapping_add(1);
        }
        sum
    }
}

impl Program for Traffic {
    ghost use Rattle.round_examples.specs.Traffics.{traffic_rules};
    ghost use Rattle.round_examples.specs.laws.TrafficLaws.{traffic_laws};

    ghost rules = { traffic_rules };

    ghost laws = { traffic_laws };

    fn rank(&self) -> u32 {
        self.rank
    }

    fn ranks(&self) -> u32 {
        self.ranks
    }

    fn round(&self) -> u64 {
        self.round
    }

    #[tactic(auto, using(crate::proofs::Targets::sent_length))]
    fn count(&self) -> u64 {
        if self.round == 0 {
            self.targets.len() as u64
        } else {
            0
        }
    }

    fn emission(&self, i: u64) -> (u32, Item) {
        let (to, cell) = self.targets[i as usize];
        let item = Item {
            a: cell as u64,
            b: 1,
            c: i,
        };
        (to, item)
    }

    fn fits(&self, from: u32, item: Item) -> bool {
        self.round == 0 && from < self.ranks && item.a < CELLS
    }

    fn absorb(&mut self, from: u32, item: Item) -> Result<(), NoMemory> {
        if let Some(count) = self.counts.get_mut(item.a as usize) {
            *count = count.wrapping_add(item.b);
        }
        self.check = self.check.wrapping_add(item.c);
        Ok(())
    }

    fn absorb_each<I: Arrivals>(&mut self, came: I) -> Result<(), NoMemory> {
        if self.round == 0 {
            self.check = count_each(&mut self.counts, self.check, self.ranks, came);
        }
        Ok(())
    }

    fn vote(&self) -> u64 {
        0
    }

    fn goes_on(&self, votes: u64) -> bool {
        self.round.saturating_add(1) < self.rounds as u64
    }

    fn end_round(&mut self, votes: u64) -> Result<bool, NoMemory> {
        self.round = self.round.saturating_add(1);
        Ok(self.round < self.rounds as u64)
    }
}

/// Counts the items of a batch that the rank may be sent, and answers what they make of `check`,
/// the sum of their numbers.
fn count_each<I: Arrivals>(counts: &mut [u64], check: u64, ranks: u32, came: I) -> u64
    ensures counts { counts.new ≡ all_counted ranks counts.old (I.items came) }
    ensures check { result ≡ all_checked ranks check (I.items came) }
{
    let mut came = came;
    let mut check = check;
    while let Some((from, item)) = came.next() {
        if is_for_it(ranks, from, item) {
            count_one(counts, item);
            check = check.wrapping_add(item.c);
        }
    }
    check
}

/// Whether an item that came in the first round is from a rank, and for a cell.
#[inline(always)]
fn is_for_it(ranks: u32, from: u32, item: Item) -> bool
    ensures { result ≡ is_for_it ranks from item }
{
    from < ranks && item.a < CELLS
}

/// Counts an item, if its cell has a count.
#[inline(always)]
fn count_one(counts: &mut [u64], item: Item)
    ensures { counts.new ≡ traffic_raised counts.old item }
{
    if item.a < counts.len() as u64 {
        let cell = item.a as usize;
        counts[cell] = counts[cell].wrapping_add(item.b);
    }
}
