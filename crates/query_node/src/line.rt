//! The queries of a rank to one other rank that wait for their replies.

ghost use Rattle.std.specs.Prelude.{◌≡◌, [], ◌∷◌, ◌++◌, OnOk, OnErr, drop, slice_get};

use bale_items::NoMemory;
use std::alloc::Global;
use std::marker::Model;

/// The numbers of queries, of which the first is heard next.
#[derive(Drop)]
pub struct Line {
    /// The numbers of all queries to that rank, in order.
    places: Vec<u64>,
    /// How many of them have their reply.
    heard: usize,
}

impl Model for Line {
    ghost use Rattle.std.specs.Prelude.{ℕ, List, ◌≤◌, length, drop};

    ghost Value = { List ℕ };

    ghost view = { λ l. drop l.heard l.places.items };

    ghost invariant = { λ l. l.heard ≤ length l.places.items };
}

impl Line {
    /// A line of no queries.
    pub(crate) fn new(alloc: Global) -> Line
        ensures { result ≡ [] }
    {
        Line {
            places: Vec::new(alloc),
            heard: 0,
        }
    }

    /// Puts the query number `place` at the end. After `NoMemory` the line is as before.
    pub(crate) fn add(&mut self, place: u64) -> Result<(), NoMemory>
        ensures added { OnOk result (self.new ≡ self.old ++ place ∷ []) }
        ensures refused { OnErr result (self.new ≡ self.old) }
    {
        self.places.push(place)?;
        Ok(())
    }

    /// Takes the first query out, or answers `None` if and only if none waits.
    #[inline]
    pub(crate) fn next(&mut self) -> Option<u64>
        ensures first { result ≡ slice_get self.old 0 }
        ensures rest { self.new ≡ drop 1 self.old }
    {
        if self.heard == self.places.len() {
            return None;
        }
        let place = self.places[self.heard];
        self.heard += 1;
        Some(place)
    }
}
