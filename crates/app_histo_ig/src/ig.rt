//! ig: each entry of a matrix gets to know the sum of its column, which the column's owner has.

ghost use Rattle.std.specs.Prelude.{◌≡◌, ◌<◌, map};
ghost use Rattle.app_histo_ig.specs.Igs.{IsIg};
ghost use Rattle.app_histo_ig.specs.code.IgSent.{number_and_column, to_add};

use crate::answered::Answered;
use crate::batches::{note_each, raise_each, rise_each};
use crate::ig_lists::{note, raise, rise};
use crate::ig_replies::{count_after, emit_replies, reply_at};
use crate::ig_sent::{Own, count_of, emit_own, own_emission};
use crate::seat::Seat;
use bale_items::{Item, NoMemory};
use round_program::{Arrivals, Departures, Program};
use std::marker::Model;

/// One rank's part of ig, in three rounds: the owner of each column adds up its values; each rank
/// asks for the column of each of its entries; and the owners reply. Column `j` belongs to rank `j
/// mod ranks`, which keeps its sum at place `j div ranks`. Sums are words, as `bits_of` gives them,
/// and rise modulo 2^64.
#[derive(Drop)]
pub struct Ig {
    rank: u32,
    ranks: u32,
    round: u64,
    /// the matrix's number of columns
    cols: u32,
    /// the rank's entries, in order
    own: Vec<Own>,
    /// the sums of own columns
    sums: Vec<u64>,
    /// the queries that came, by sender, in order
    queries: Vec<Vec<Item>>,
    /// in round 2, how many they are
    asked: u64,
    /// the sum of each own entry's column; that of entry number `e` is at `e div ranks`
    answers: Vec<u64>,
}

impl Model for Ig {
    ghost use Rattle.app_histo_ig.specs.Igs.{IgState, IsIg};

    ghost Value = { IgState };

    ghost use Rattle.app_histo_ig.specs.code.IgView.{ig_state, IsIgInside};

    ghost view = { ig_state };

    ghost invariant = { λ s. IsIgInside s };
}

/// What a rank of ig begins with, besides its numbers.
#[derive(Drop)]
pub(crate) struct Begins {
    pub(crate) own: Vec<Own>,
    pub(crate) sums: Vec<u64>,
    pub(crate) queries: Vec<Vec<Item>>,
    pub(crate) answers: Vec<u64>,
}

impl Ig {
    /// A rank before its first round.
    pub(crate) fn new(rank: u32, ranks: u32, cols: u32, begins: Begins) -> Ig
        requires { IsIg (record {
          rank = rank;
          ranks = ranks;
          round = 0;
          cols = cols;
          own = map number_and_column begins.own.items;
          sums = begins.sums.items;
          queries = map (λ l. l.items) begins.queries.items;
          outgoing = map (to_add ranks) begins.own.items;
          answers = begins.answers.items;
        }) }
        ensures { result ≡ record {
          rank = rank;
          ranks = ranks;
          round = 0;
          cols = cols;
          own = map number_and_column begins.own.items;
          sums = begins.sums.items;
          queries = map (λ l. l.items) begins.queries.items;
          outgoing = map (to_add ranks) begins.own.items;
          answers = begins.answers.items;
        } }
    {
        Ig {
            rank,
            ranks,
            round: 0,
            cols,
            own: begins.own,
            sums: begins.sums,
            queries: begins.queries,
            asked: 0,
            answers: begins.answers,
        }
    }
}

impl Answered for Ig {
    ghost words = { λ s. s.answers };

    fn answers(&self) -> &[u64] {
        &self.answers
    }
}

impl Program for Ig {
    ghost use Rattle.app_histo_ig.specs.Igs.{ig_rules};
    ghost use Rattle.app_histo_ig.specs.laws.IgLaws.{ig_laws};

    ghost rules = { ig_rules };

    ghost laws = { ig_laws };

    fn rank(&self) -> u32 {
        self.rank
    }

    fn ranks(&self) -> u32 {
        self.ranks
    }

    fn round(&self) -> u64 {
        self.round
    }

    fn count(&self) -> u64 {
        count_of(self.round, &self.own, self.asked)
    }

    fn emission(&self, i: u64) -> (u32, Item) {
        if self.round < 2 {
            return own_emission(self.round, self.ranks, &self.own, i);
        }
        reply_at(self.ranks, &self.sums, &self.queries, i)
    }

    fn emit_each<D: Departures>(&self, from: u64, out: &mut D) -> u64 {
        if self.round < 2 {
            return emit_own(self.round, self.ranks, &self.own, from, out);
        }
        if self.round == 2 {
            return emit_replies(self.ranks, &self.sums, &self.queries, self.asked, from, out);
        }
        from
    }

    fn fits(&self, from: u32, item: Item) -> bool {
        from < self.ranks
            && (self.round > 1
                || (item.a < self.cols as u64 && item.a as u32 % self.ranks == self.rank))
    }

    fn absorb(&mut self, from: u32, item: Item) -> Result<(), NoMemory> {
        if self.round == 0 {
            rise(&mut self.sums, self.ranks, item);
            return Ok(());
        }
        if self.round == 1 {
            return note(&mut self.queries, from as usize, item);
        }
        raise(&mut self.answers, self.ranks, item);
        Ok(())
    }

    fn absorb_each<I: Arrivals>(&mut self, came: I) -> Result<(), NoMemory> {
        // The round, and what the rank is sent in it, are read once for all items.
        let seat = Seat {
            rank: self.rank,
            ranks: self.ranks,
            cols: self.cols,
        };
        if self.round == 0 {
            rise_each(&mut self.sums, seat, came);
            return Ok(());
        }
        if self.round == 1 {
            return note_each(&mut self.queries, seat, came);
        }
        raise_each(&mut self.answers, seat.ranks, came);
        Ok(())
    }

    fn vote(&self) -> u64 {
        0
    }

    fn goes_on(&self, votes: u64) -> bool {
        self.round < 2
    }

    fn end_round(&mut self, votes: u64) -> Result<bool, NoMemory> {
        let goes_on = self.round < 2;
        self.asked = count_after(self.round, &self.queries)?;
        self.round = self.round.saturating_add(1);
        Ok(goes_on)
    }
}
