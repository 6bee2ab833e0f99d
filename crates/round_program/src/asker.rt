//! Ranks that ask one another: queries, answers and replies.

ghost use Rattle.std.specs.Prelude.{◌≡◌, ◌<◌, length, slice_get, Some};
ghost use Rattle.round_program.specs.Talks.{Talk, TalkLaws};

/// One rank's part in an exchange of queries and replies. Each rank has a list of queries to other
/// ranks, answers every query that it is asked, and hears the reply to each of its own, in whatever
/// order they come.
///
/// | Call | Needs | Answer |
/// |---|---|---|
/// | `rank`, `ranks`, `count` | | this rank, the number of ranks, the number of its queries |
/// | `query(i)` | `i` below `count` | the rank that is asked, and the question |
/// | `answer(from, question)` | | this rank's reply to `from` |
/// | `hear(i, reply)` | `i` below `count` | changes what was heard, and none of the above |
///
/// No call takes memory. Each call is read from what the state holds: a query or an answer that has
/// to be searched for is searched for each item of an exchange.
pub trait Asker: Drop {
    ghost talk: { Talk Self };

    /// This rank.
    fn rank(&self) -> u32
        ensures value { result ≡ talk.rank self.now }
        ensures valid { talk.valid self.now };

    /// The number of ranks.
    fn ranks(&self) -> u32
        ensures { result ≡ talk.ranks self.now };

    /// The number of queries that this rank asks.
    fn count(&self) -> u64
        ensures { result ≡ length (talk.queries self.now) };

    /// The rank that query number `i` goes to, and the question.
    fn query(&self, i: u64) -> (u32, u64)
        requires { i < length (talk.queries self.now) }
        ensures { slice_get (talk.queries self.now) i ≡ Some result };

    /// The reply to a question of the rank `from`.
    fn answer(&self, from: u32, question: u64) -> u64
        ensures { result ≡ talk.answer self.now from question };

    /// Takes in the reply to query number `i`.
    fn hear(&mut self, i: u64, reply: u64)
        requires { i < length (talk.queries self.old) }
        ensures { self.new ≡ talk.heard self.old i reply };

    ghost laws: { TalkLaws talk };
}
