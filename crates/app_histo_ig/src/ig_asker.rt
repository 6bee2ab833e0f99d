//! ig by queries and replies at once: a rank asks for the sums of its entries' columns.

ghost use Rattle.std.specs.Prelude.{◌≡◌, ◌<◌, ◌^◌, length, map, slice_index_or};
ghost use Rattle.std.specs.List.{All};
ghost use Rattle.app_histo_ig.specs.code.IgSent.{question_of};

use crate::answered::Answered;
use crate::ig_sent::{Own, question_of};
use round_program::Asker;
use std::marker::Model;

/// One rank: for each of its entries it asks the column's owner, and it answers with the sums of
/// its own columns. Column `j` belongs to rank `j mod ranks`, which has its sum at place `j div
/// ranks`.
#[derive(Drop)]
pub struct IgAsker {
    rank: u32,
    ranks: u32,
    /// the rank's entries, in order
    own: Vec<Own>,
    /// the sums of own columns
    sums: Vec<u64>,
    /// what was heard for each own entry
    answers: Vec<u64>,
}

impl Model for IgAsker {
    ghost use Rattle.app_histo_ig.specs.Asking.{AskingState, IsAsking};

    ghost Value = { AskingState };

    ghost use Rattle.app_histo_ig.specs.code.AskingView.{asking_state};

    ghost view = { asking_state };

    ghost invariant = { λ s. IsAsking (asking_state s) };
}

impl IgAsker {
    /// A rank that has heard nothing; `answers` has a place for each entry.
    pub(crate) fn new(
        rank: u32,
        ranks: u32,
        own: Vec<Own>,
        sums: Vec<u64>,
        answers: Vec<u64>,
    ) -> IgAsker
        requires some { 0 < ranks }
        requires asks { All (λ q. (q.0 < ranks) × (q.1 < 2 ^ 64)) (map (question_of ranks) own.items) }
        requires words { All (λ v. v < 2 ^ 64) sums.items }
        requires places { length answers.items ≡ length own.items }
        ensures { result ≡ record {
          rank = rank;
          ranks = ranks;
          queries = map (question_of ranks) own.items;
          sums = sums.items;
          answers = answers.items;
        } }
    {
        IgAsker {
            rank,
            ranks,
            own,
            sums,
            answers,
        }
    }
}

impl Answered for IgAsker {
    ghost words = { λ s. s.answers };

    fn answers(&self) -> &[u64] {
        &self.answers
    }
}

impl Asker for IgAsker {
    ghost use Rattle.app_histo_ig.specs.Asking.{ig_talk};
    ghost use Rattle.app_histo_ig.specs.laws.AskingLaws.{ig_talk_laws};

    ghost talk = { ig_talk };

    ghost laws = { ig_talk_laws };

    fn rank(&self) -> u32 {
        self.rank
    }

    fn ranks(&self) -> u32 {
        self.ranks
    }

    fn count(&self) -> u64 {
        self.own.len() as u64
    }

    fn query(&self, i: u64) -> (u32, u64) {
        question_of(&self.own, self.ranks, i as usize)
    }

    fn answer(&self, from: u32, question: u64) -> u64 {
        sum_at(&self.sums, question / self.ranks as u64)
    }

    fn hear(&mut self, i: u64, reply: u64) {
        self.answers[i as usize] = reply;
    }
}

/// The sum at a place, and 0 past the end.
#[inline]
fn sum_at(sums: &[u64], place: u64) -> u64
    ensures { result ≡ slice_index_or sums.now place 0 }
{
    if place < sums.len() as u64 {
        sums[place as usize]
    } else {
        0
    }
}
