//! A rank that sends and receives strings of up to 65,535 bytes, as items.
//!
//! A string travels as `elastic` spells it. It is pushed as a whole or not at all: what finds no
//! room in the open buffers is kept here, and pushed before anything else by the advances that
//! follow. Of each sender the items of the string that it has begun are kept until the last one
//! comes.
ghost use Rattle.std.specs.Prelude.{◌≡◌, ◌≢◌, true, false, [], map, replicate, Some, None};
ghost use Rattle.std.specs.Option.{option_map};
ghost use Rattle.route_tensor.specs.Grid.{ranks};
ghost use Rattle.rank_handles.specs.Seated.{part};
ghost use Rattle.rank_handles.specs.Answers.{begin_answer, advance_answer, reset_answer};
ghost use Rattle.rank_handles.specs.Statistics.{statistics_on};
ghost use Rattle.rank_handles.specs.ElasticKept.{IsUntouched, IsUndone};
ghost use Rattle.rank_handles.specs.StringCalls.{string_answer, PushesString, PullsString, AdvancesStrings, BeginsStrings, ResetsStrings};

use crate::answer::Answer;
use crate::cases::AnyRank;
use crate::exchange::Exchange;
use crate::statistics::BaleStatistics;
use crate::strings::{are_none_pending, pull_string, push_pending, spell_string};
use bale_items::Item;
use elastic::forget_all;
use hop_core::Phase;
use std::alloc::Global;
use std::marker::Model;

/// The most bytes that a string may have.
const MOST_BYTES: usize = 65_535;

/// A rank that sends and receives strings.
#[derive(Drop)]
pub struct ElasticRank {
    rank: AnyRank,
    /// The items of the latest string, each with the rank that it goes to.
    spelled: Vec<(u32, Item)>,
    /// How many of them were pushed.
    pushed: usize,
    /// The items of the string that each sender has begun.
    begun: Vec<Vec<Item>>,
    /// The string that the latest pull gave, if it gave one.
    letter: Vec<u8>,
    gave: bool,
}

impl Model for ElasticRank {
    ghost use Rattle.std.specs.Prelude.{map, drop, Some, None, if◌then◌else◌};
    ghost use Rattle.rank_handles.specs.Strings.{ElasticState};

    ghost Value = { ElasticState };

    ghost use Rattle.rank_handles.specs.ElasticKept.{IsElastic};

    ghost view = { λ r. record {
      rank = r.rank;
      pending = drop r.pushed r.spelled.items;
      string = if r.gave then Some r.letter.items else None;
    } };

    ghost invariant = { λ r. IsElastic r.rank (drop r.pushed r.spelled.items) (map (λ l. l.items) r.begun.items) };
}

impl ElasticRank {
    /// An elastic rank of a rank that was just made, none of whose senders has begun a string.
    pub(crate) fn new(alloc: Global, rank: AnyRank, begun: Vec<Vec<Item>>) -> ElasticRank
        requires undone { IsUndone rank }
        requires fresh { IsUntouched (part rank) }
        requires begun { map (λ l. l.items) begun.items ≡ replicate (ranks rank.state.dims) [] }
        ensures { result ≡ record { rank = rank; pending = []; string = None } }
    {
        ElasticRank {
            rank,
            spelled: Vec::new(alloc),
            pushed: 0,
            begun,
            letter: Vec::new(alloc),
            gave: false,
        }
    }

    /// How many ranks there are.
    pub fn ranks(&self) -> u32
        ensures { result ≡ ranks self.now.rank.state.dims }
    {
        self.rank.ranks()
    }

    /// How far the rank is in its epoch.
    pub fn phase(&self) -> Option<Phase>
        ensures { result ≡ Some self.now.rank.state.phase }
    {
        self.rank.phase()
    }

    /// What the rank sent and received since it was made.
    pub fn statistics(&self) -> BaleStatistics
        ensures { result ≡ statistics_on self.now.rank.seat }
    {
        self.rank.statistics()
    }

    /// The string that the latest pull gave.
    pub fn string(&self) -> Option<&[u8]>
        ensures { option_map (λ s. s.now) result ≡ self.now.string }
    {
        if self.gave {
            Some(self.letter.as_slice())
        } else {
            None
        }
    }

    /// Begins an epoch.
    pub fn begin(&mut self) -> Answer
        ensures answer { result ≡ begin_answer self.old.rank.state.phase }
        ensures begins { BeginsStrings self.old self.new }
    {
        self.rank.begin()
    }

    /// Pushes a string toward a rank, all of it or nothing.
    pub fn push(&mut self, bytes: &[u8], to: u32) -> Answer
        ensures answer { result ≢ Answer.NoMemory → result ≡ string_answer self.old bytes.now to }
        ensures memory { result ≡ Answer.NoMemory → string_answer self.old bytes.now to ≡ Answer.Good }
        ensures pushes { result ≡ Answer.Good → PushesString bytes.now to self.old self.new }
        ensures unchanged { result ≢ Answer.Good → self.new ≡ self.old }
    {
        match self.answer(bytes, to) {
            Answer::Good => (),
            wrong => return wrong,
        }
        self.pushed = 0;
        if !spell_string(&mut self.spelled, to, bytes) {
            return Answer::NoMemory;
        }
        self.pushed = push_pending(&mut self.rank, &self.spelled, 0);
        Answer::Good
    }

    /// What becomes of the wish to push a string, if there is memory.
    fn answer(&self, bytes: &[u8], to: u32) -> Answer
        ensures { result ≡ string_answer self.now bytes.now to }
    {
        match self.rank.phase() {
            None | Some(Phase::Dormant) => return Answer::NotBegun,
            Some(Phase::Working) => (),
            Some(_) => return Answer::DoneAlready,
        }
        if to >= self.rank.ranks() {
            return Answer::NoSuchRank;
        }
        if bytes.len() > MOST_BYTES {
            return Answer::TooLong;
        }
        if are_none_pending(&self.spelled, self.pushed) {
            Answer::Good
        } else {
            Answer::Full
        }
    }

    /// Pulls items until one makes a string whole, which `string` lends then, and answers its
    /// sender.
    ///
    /// # Errors
    ///
    /// The epoch has not begun; there are no more items; or there was no memory, and no item is
    /// lost.
    pub fn pull(&mut self) -> Result<u32, Answer>
        ensures { PullsString result self.old self.new }
    {
        if !self.has_begun() {
            return Err(Answer::NotBegun);
        }
        let pulled = pull_string(&mut self.rank, &mut self.begun, &mut self.letter);
        self.gave = pulled.is_ok();
        pulled
    }

    /// Whether an epoch has begun.
    fn has_begun(&self) -> bool
        ensures begun { result ≡ true → self.now.rank.state.phase ≢ Phase.Dormant }
        ensures dormant { result ≡ false → self.now.rank.state.phase ≡ Phase.Dormant }
    {
        match self.rank.phase() {
            None | Some(Phase::Dormant) => false,
            Some(_) => true,
        }
    }

    /// Pushes what is pending, advances the exchange, and tells how far the rank is. As long as
    /// something is pending the rank isn't done.
    pub fn advance(&mut self, done: bool) -> Answer
        ensures answer { result ≡ advance_answer self.old.rank done self.new.rank.state.phase }
        ensures advances { AdvancesStrings done self.old self.new }
    {
        self.pushed = push_pending(&mut self.rank, &self.spelled, self.pushed);
        let none = are_none_pending(&self.spelled, self.pushed);
        self.rank.advance(done && none)
    }

    /// Ends an epoch that is complete.
    pub fn reset(&mut self) -> Answer
        ensures answer { result ≡ reset_answer self.old.rank }
        ensures resets { ResetsStrings self.old self.new }
    {
        let answer = self.rank.reset();
        if answer == Answer::Good {
            forget_all(&mut self.begun);
        }
        answer
    }
}
