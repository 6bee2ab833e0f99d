//! Looking up: each rank asks others for places of their tables, by queries and replies.

ghost use Rattle.std.specs.Prelude.{◌≡◌, ◌<◌, ◌^◌, length};
ghost use Rattle.std.specs.List.{All};

use round_program::Asker;
use std::marker::Model;

/// One rank's part of a look-up: a table, and queries for places of other ranks' tables.
#[derive(Drop)]
pub struct Lookup {
    rank: u32,
    ranks: u32,
    table: Vec<u64>,
    /// the rank and the place that each query asks for
    queries: Vec<(u32, u64)>,
    /// the reply to each query, once it was heard
    heard: Vec<u64>,
}

impl Model for Lookup {
    ghost use Rattle.round_examples.specs.Lookups.{LookupState, IsLookup};

    ghost Value = { LookupState };

    ghost use Rattle.round_examples.specs.code.LookupView.{lookup_state};

    ghost view = { lookup_state };

    ghost invariant = { λ s. IsLookup (lookup_state s) };
}

impl Lookup {
    /// A rank that asks `queries`, whose replies will be in `heard`.
    pub fn new(
        rank: u32,
        ranks: u32,
        table: Vec<u64>,
        queries: Vec<(u32, u64)>,
        heard: Vec<u64>,
    ) -> Lookup
        requires values { All (λ v. v < 2 ^ 64) table.items }
        requires asks { All (λ q. (q.0 < ranks) × (q.1 < 2 ^ 64)) queries.items }
        requires replies { length heard.items ≡ length queries.items }
        ensures { result ≡ record {
          rank = rank;
          ranks = ranks;
          table = table.items;
          queries = queries.items;
          heard = heard.items;
        } }
    {
        Lookup {
            rank,
            ranks,
            table,
            queries,
            heard,
        }
    }

    /// The replies that were heard, in the order of the queries.
    pub fn heard(&self) -> &[u64]
        ensures { result.now ≡ self.now.heard }
    {
        &self.heard
    }
}

impl Asker for Lookup {
    ghost use Rattle.round_examples.specs.Lookups.{lookup_talk};
    ghost use Rattle.round_examples.specs.laws.LookupLaws.{lookup_laws};

    ghost talk = { lookup_talk };

    ghost laws = { lookup_laws };

    fn rank(&self) -> u32 {
        self.rank
    }

    fn ranks(&self) -> u32 {
        self.ranks
    }

    fn count(&self) -> u64 {
        self.queries.len() as u64
    }

    fn query(&self, i: u64) -> (u32, u64) {
        self.queries[i as usize]
    }

    fn answer(&self, from: u32, question: u64) -> u64 {
        if question < self.table.len() as u64 {
            self.table[question as usize]
        } else {
            0
        }
    }

    fn hear(&mut self, i: u64, reply: u64) {
        self.heard[i as usize] = reply;
    }
}
