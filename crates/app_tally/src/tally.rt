//! tally: the ranks send their lines to those that count them.

ghost use Rattle.std.specs.Prelude.{◌≡◌, ◌<◌, ◌≤◌, [], length};
ghost use Rattle.app_tally.specs.code.CountView.{counted_lines};
ghost use Rattle.app_tally.specs.Counts.{tally_of};
ghost use Rattle.app_tally.specs.Tallies.{IsTallying, counter_of};

use crate::multiset::Multiset;
use crate::share::Share;
use bale_items::NoMemory;
use elastic::LetterProgram;
use std::alloc::Global;
use std::marker::Model;

/// One rank's part of tally, in one round. A line is counted by the rank that is the sum of its
/// bytes modulo the number of ranks. What comes is counted at once, on the rank's own thread; the
/// distinct lines are sorted when all ranks have ended.
#[derive(Drop)]
pub struct Tally {
    rank: u32,
    ranks: u32,
    round: u64,
    /// the lines that are sent in this round
    own: Share,
    /// the lines that came
    came: Multiset,
}

impl Model for Tally {
    ghost use Rattle.app_tally.specs.Tallies.{TallyState, IsTallying};
    ghost use Rattle.app_tally.specs.code.TallyView.{tally_state};

    ghost Value = { TallyState };

    ghost view = { tally_state };

    ghost invariant = { λ s. IsTallying (tally_state s) };
}

impl Tally {
    /// A rank before its round, with its lines.
    pub(crate) fn new(alloc: Global, rank: u32, ranks: u32, own: Share) -> Tally
        requires { IsTallying (record { rank = rank; ranks = ranks; round = 0; own = own; came = [] }) }
        ensures { result ≡ record { rank = rank; ranks = ranks; round = 0; own = own; came = [] } }
    {
        Tally {
            rank,
            ranks,
            round: 0,
            own,
            came: Multiset::new(alloc),
        }
    }

    /// The lines that came.
    pub(crate) fn came(&self) -> &Multiset
        ensures { tally_of (counted_lines result.now) ≡ self.now.came }
    {
        &self.came
    }
}

impl LetterProgram for Tally {
    ghost use Rattle.app_tally.specs.Tallies.{tally_rules};
    ghost use Rattle.app_tally.specs.laws.TallyLaws.{tally_laws};

    ghost rules = { tally_rules };

    ghost laws = { tally_laws };

    fn rank(&self) -> u32 {
        self.rank
    }

    fn ranks(&self) -> u32 {
        self.ranks
    }

    fn round(&self) -> u64 {
        self.round
    }

    fn count(&self) -> u64 {
        self.own.len() as u64
    }

    fn to(&self, i: u64) -> u32 {
        counter_of(self.own.at(i as usize), self.ranks)
    }

    fn letter(&self, i: u64) -> &[u8] {
        self.own.at(i as usize)
    }

    fn absorb_letter(&mut self, from: u32, bytes: &[u8]) -> Result<(), NoMemory> {
        self.came.count(bytes)
    }

    fn vote(&self) -> u64 {
        0
    }

    fn goes_on(&self, votes: u64) -> bool {
        false
    }

    fn end_round(&mut self, votes: u64) -> Result<bool, NoMemory> {
        self.round = self.round.saturating_add(1);
        self.own.forget();
        Ok(false)
    }
}

/// The rank that counts a line.
fn counter_of(line: &[u8], ranks: u32) -> u32
    requires some { 0 < ranks }
    requires short { length line.now ≤ 65_535 }
    ensures { result ≡ counter_of ranks line.now }
{
    let mut sum = 0u32;
    for b in line {
        sum += *b as u32;
    }
    sum % ranks
}
