//! The replies theorem.

ghost use Rattle.query_node.specs.Banks.{RepliesBegin, RepliesEnd};
ghost use Rattle.query_node.specs.Ranks.{OrderLaw, EndLaw};
ghost use Rattle.query_node.specs.Moments.{StepLaw};

use convey::closes_law;
use round_program::Asker;

/// The replies theorem, for a lawful bank of queries and one of replies. If each rank sends its
/// queries in order, and in order the answers to the queries that it got, each rank gets from each
/// other a prefix of that one's answers to its queries, in order. If all is sent and has come,
/// it gets all of them.
pub fn replies_law<A: Asker>()
    ensures begin { RepliesBegin A.talk }
    ensures end { RepliesEnd A.talk }
{}

/// The laws of all ranks of an exchange, over any two banks whose links keep their law. Whenever
/// each rank is between two turns, or between the two advances of one, what a rank heard of
/// another is a prefix of that one's answers to its queries, matched by order alone. Once all ranks
/// are complete, each has heard, for each of its queries, the answer of the rank asked.
pub fn askers_law<A: Asker>()
    ensures order { OrderLaw A.talk }
    ensures end { EndLaw A.talk }
{
    closes_law();
}

/// The replies theorem at every step of an exchange, also while ranks are within turns: between any
/// two posts or collects of any ranks, what a rank got of another is a prefix of that one's answers
/// to its queries.
pub fn steps_law<A: Asker>()
    ensures { StepLaw A.talk }
{}
