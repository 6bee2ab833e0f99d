//! An example: askers that answer a question with the next number.

ghost use Rattle.std.specs.Prelude.{◌≡◌, ◌<◌, ◌^◌, length};
ghost use Rattle.std.specs.List.{All};

use round_program::Asker;
use std::marker::Model;

/// A rank with its queries, and a place for the reply to each.
#[derive(Drop)]
pub struct Adder {
    rank: u32,
    ranks: u32,
    queries: Vec<(u32, u64)>,
    heard: Vec<u64>,
}

impl Model for Adder {
    ghost use Rattle.drive_tests.specs.Adders.{AdderState, IsAdder};

    ghost Value = { AdderState };

    ghost view = { λ s. record { rank = s.rank; ranks = s.ranks; queries = s.queries.items; heard = s.heard.items } };

    ghost invariant = { λ s. IsAdder
        (record { rank = s.rank; ranks = s.ranks; queries = s.queries.items; heard = s.heard.items }) };
}

impl Adder {
    /// A rank that has heard nothing; `heard` has a place for each query.
    pub(crate) fn new(rank: u32, ranks: u32, queries: Vec<(u32, u64)>, heard: Vec<u64>) -> Adder
        requires asks { All (λ q. (q.0 < ranks) × (q.1 < 2 ^ 64)) queries.items }
        requires places { length heard.items ≡ length queries.items }
        ensures { result ≡ record { rank = rank; ranks = ranks; queries = queries.items; heard = heard.items } }
    {
        Adder {
            rank,
            ranks,
            queries,
            heard,
        }
    }

    /// What was heard as the reply to each query.
    pub(crate) fn heard(&self) -> &[u64]
        ensures { result.now ≡ self.now.heard }
    {
        &self.heard
    }
}

impl Asker for Adder {
    ghost use Rattle.drive_tests.specs.Adders.{adder_talk};
    ghost use Rattle.drive_tests.specs.laws.AdderLaws.{adder_laws};

    ghost talk = { adder_talk };

    ghost laws = { adder_laws };

    fn rank(&self) -> u32 {
        self.rank
    }

    fn ranks(&self) -> u32 {
        self.ranks
    }

    fn count(&self) -> u64 {
        self.queries.len() as u64
    }

    fn query(&self, i: u64) -> (u32, u64) {
        self.queries[i as usize]
    }

    fn answer(&self, from: u32, question: u64) -> u64 {
        question.wrapping_add(1)
    }

    fn hear(&mut self, i: u64, reply: u64) {
        self.heard[i as usize] = reply;
    }
}
