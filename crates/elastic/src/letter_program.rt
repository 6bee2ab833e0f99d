//! One rank's part of a computation in rounds, in which letters are sent.

ghost use Rattle.std.specs.Prelude.{◌≡◌, ◌<◌, OnOk, OnErr, IfOk, length, map, slice_get, Some};
ghost use Rattle.elastic.specs.Spelling.{IsLetter};
ghost use Rattle.elastic.specs.LetterRules.{LetterRules};
ghost use Rattle.elastic.specs.LetterLaws.{LetterLaws, StillSends};

use bale_items::NoMemory;

/// A letter program, as one rank runs it: a program whose items are letters of at most 65,535
/// bytes. Rounds count from 0.
///
/// | Call | Needs | Answer |
/// |---|---|---|
/// | `rank`, `ranks`, `round` | | this rank, the number of ranks, the round's number |
/// | `count`, `to(i)`, `letter(i)` | `i` below `count` | how many letters the rank sends in this round; the receiver and the bytes of one |
/// | `absorb_letter(from, bytes)` | a rank, a letter | takes the letter in |
/// | `vote`, `goes_on(votes)`, `end_round(votes)` | | as of a program |
///
/// Contracts see a letter program as its state. `rules` says what each call answers or makes of a
/// state, and `laws` proves that the rules are lawful, as those of a program are: letters go to
/// ranks, absorbs of two senders commute, and an absorb changes neither the round nor what is sent.
/// Every rank may send every letter to every rank.
pub trait LetterProgram: Drop {
    ghost rules: { LetterRules Self };

    /// This rank.
    fn rank(&self) -> u32
        ensures value { result ≡ rules.rank self.now }
        ensures valid { rules.valid self.now };

    /// Does nothing, and states that the state is one of those that the laws speak of.
    fn known(&self)
        ensures { rules.valid self.now }
    {
        let _rank = self.rank();
    }

    /// The number of ranks.
    fn ranks(&self) -> u32
        ensures { result ≡ rules.ranks self.now };

    /// The number of this round; it saturates at 2^64 - 1.
    fn round(&self) -> u64
        ensures { result ≡ rules.round self.now };

    /// The number of letters that this rank sends in this round.
    fn count(&self) -> u64
        ensures { result ≡ length (rules.letters self.now) };

    /// The rank that letter number `i` of this round goes to.
    fn to(&self, i: u64) -> u32
        requires { i < length (rules.letters self.now) }
        ensures { slice_get (map (λ e. e.0) (rules.letters self.now)) i ≡ Some result };

    /// The bytes of letter number `i` of this round.
    fn letter(&self, i: u64) -> &[u8]
        requires { i < length (rules.letters self.now) }
        ensures { slice_get (map (λ e. e.1) (rules.letters self.now)) i ≡ Some result.now };

    /// Takes in a letter of the rank `from`. After `NoMemory` the rank, the ranks and the letters
    /// that it sends are as before.
    fn absorb_letter(&mut self, from: u32, bytes: &[u8]) -> Result<(), NoMemory>
        requires rank { from < rules.ranks self.old }
        requires letter { IsLetter bytes.now }
        ensures absorbed { OnOk result (self.new ≡ rules.absorbed self.old from bytes.now) }
        ensures refused { OnErr result (StillSends rules self.old self.new) };

    /// This rank's vote.
    fn vote(&self) -> u64
        ensures { result ≡ rules.vote self.now };

    /// Whether another round follows, if the votes of all ranks have the sum `votes`.
    fn goes_on(&self, votes: u64) -> bool
        ensures { result ≡ rules.goes_on (rules.shape self.now) (rules.round self.now) votes };

    /// Ends the round and begins the next, and answers whether it is one of the run. After
    /// `NoMemory` the rank, the ranks and the letters are as before.
    fn end_round(&mut self, votes: u64) -> Result<bool, NoMemory>
        ensures ended { OnOk result (self.new ≡ rules.ended self.old votes) }
        ensures answer { IfOk result (λ more. more ≡ rules.goes_on (rules.shape self.old)
            (rules.round self.old) votes) }
        ensures refused { OnErr result (StillSends rules self.old self.new) };

    ghost laws: { LetterLaws rules };
}
