//! One rank's part of a computation in rounds.

ghost use Rattle.std.specs.Prelude.{◌≡◌, ◌-◌, ◌<◌, ◌≤◌, OnOk, OnErr, IfOk, length, drop, slice_get, Some};
ghost use Rattle.std.specs.List.{All};
ghost use Rattle.round_program.specs.Laws.{Laws, fits, Fits};
ghost use Rattle.round_program.specs.Rules.{Rules};
ghost use Rattle.round_program.specs.Batches.{all_taken_in};
ghost use Rattle.round_program.specs.Emissions.{HandsOver};

use crate::arrivals::Arrivals;
use crate::departures::Departures;
use bale_items::{Item, NoMemory};

/// A program, as one rank runs it. Rounds count from 0.
///
/// | Call | Needs | Answer |
/// |---|---|---|
/// | `rank`, `ranks`, `round` | | this rank, the number of ranks, the round's number |
/// | `count`, `emission(i)` | `i` below `count` | how many items the rank sends in this round; the receiver and the item |
/// | `emit_each(from, out)` | `from` at most `count` | hands over a batch: the same as `emission` for each item, and so written once for all programs |
/// | `fits(from, item)` | | whether this rank may be sent the item by the rank `from` |
/// | `absorb(from, item)` | the item fits | takes the item in |
/// | `absorb_each(came)` | | takes in, of a batch, what fits: the same as `fits` and `absorb` for each item. The body here serves every program; one that reads its state once for a batch has its own |
/// | `vote` | | this rank's vote, once everything is absorbed |
/// | `goes_on(votes)` | | whether another round follows this one, if the votes have that sum |
/// | `end_round(votes)` | | begins the next round, and answers what `goes_on` does |
///
/// Contracts see a program as its state. `rules` says what each call answers or makes of a state,
/// and `laws` proves that the rules are lawful, once for each implementation:
///
/// 1. an emission goes to a rank that may be sent it;
/// 2. items of two senders are absorbed in either order with the same outcome;
/// 3. an absorb changes no rank, ranks, round, shape, most or emission, so it changes no `fits`
///    either;
/// 4. a vote is below 2^32;
/// 5. the end of a round keeps rank, ranks, shape and most and begins the next round, and whether a
///    round follows depends on the shape, the round and the votes alone. All ranks of a run share
///    the shape, so all agree.
///
/// A program that answered `NoMemory` isn't used again for answers. Its emissions of the round stay
/// as they were, so that what it began to send can be sent.
///
/// An implementation keeps what it emits in its state and reads it there: a drive asks for each
/// emission once or more, so `count` and `emission` are O(1) and search for nothing. Where the
/// emissions aren't simply a part of the input, build a list of them in `end_round`, which may take
/// memory, and let `emission` read it by index.
pub trait Program: Drop {
    ghost rules: { Rules Self };

    /// This rank.
    fn rank(&self) -> u32
        ensures value { result ≡ rules.rank self.now }
        ensures valid { rules.valid self.now };

    /// Does nothing, and states that the state is one of those that the laws speak of.
    fn known(&self)
        ensures { rules.valid self.now }
    {
        let _rank = self.rank();
    }

    /// The number of ranks.
    fn ranks(&self) -> u32
        ensures { result ≡ rules.ranks self.now };

    /// The number of this round; it saturates at 2^64 - 1.
    fn round(&self) -> u64
        ensures { result ≡ rules.round self.now };

    /// The number of items that this rank sends in this round.
    fn count(&self) -> u64
        ensures { result ≡ length (rules.emissions self.now) };

    /// The rank that item number `i` of this round goes to, and the item.
    fn emission(&self, i: u64) -> (u32, Item)
        requires { i < length (rules.emissions self.now) }
        ensures { slice_get (rules.emissions self.now) i ≡ Some result };

    /// Hands the emissions from number `from` on to `out`, in order, until one is refused or all
    /// are handed over. Answers how many are by then.
    fn emit_each<D: Departures>(&self, from: u64, out: &mut D) -> u64
        requires from { from ≤ length (rules.emissions self.now) }
        requires may { All (λ e. D.may out.old e.0) (drop from (rules.emissions self.now)) }
        ensures forward { from ≤ result }
        ensures low { result ≤ length (rules.emissions self.now) }
        ensures hands { HandsOver D.hands (drop from (rules.emissions self.now)) (result - from) out.old out.new }
    {
        let count = self.count();
        let mut next = from;
        while next < count {
            let (to, item) = self.emission(next);
            if !out.push(to, item) {
                return next;
            }
            next += 1;
        }
        next
    }

    /// Whether this rank may be sent `item` by the rank `from`: a rank that gets an item can't know
    /// what its sender emits.
    fn fits(&self, from: u32, item: Item) -> bool
        ensures { result ≡ fits rules self.now from item };

    /// Takes in an item that fits. After `NoMemory` the emissions are as before.
    fn absorb(&mut self, from: u32, item: Item) -> Result<(), NoMemory>
        requires { Fits rules self.old from item }
        ensures absorbed { OnOk result (self.new ≡ rules.absorbed self.old from item) }
        ensures refused { OnErr result (rules.emissions self.new ≡ rules.emissions self.old) };

    /// Takes in what fits of what came, in order. After `NoMemory` the emissions are as before, and
    /// what was left is dropped.
    /// A program that stands for one of several chooses here once for all of them.
    fn absorb_each<I: Arrivals>(&mut self, came: I) -> Result<(), NoMemory>
        ensures absorbed { OnOk result (self.new ≡ all_taken_in rules self.old (I.items came)) }
        ensures emissions { rules.emissions self.new ≡ rules.emissions self.old }
    {
        let mut came = came;
        while let Some((from, item)) = came.next() {
            self.known();
            if self.fits(from, item) {
                self.absorb(from, item)?;
            }
        }
        Ok(())
    }

    /// This rank's vote.
    fn vote(&self) -> u64
        ensures { result ≡ rules.vote self.now };

    /// Whether another round follows, if the votes of all ranks have the sum `votes`. A rank that
    /// has no memory for the next round learns from it whether there is one.
    fn goes_on(&self, votes: u64) -> bool
        ensures { result ≡ rules.goes_on (rules.shape self.now) (rules.round self.now) votes };

    /// Ends the round and begins the next, and answers whether it is one of the run. After
    /// `NoMemory` the emissions are as before.
    fn end_round(&mut self, votes: u64) -> Result<bool, NoMemory>
        ensures ended { OnOk result (self.new ≡ rules.ended self.old votes) }
        ensures answer { IfOk result (λ more. more ≡ rules.goes_on (rules.shape self.old)
            (rules.round self.old) votes) }
        ensures refused { OnErr result (rules.emissions self.new ≡ rules.emissions self.old) };

    ghost laws: { Laws rules };
}
