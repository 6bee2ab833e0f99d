//! What a node sends in an epoch.
ghost use Rattle.std.specs.Prelude.{◌≡◌, ◌-◌, ◌≤◌, length, drop};
ghost use Rattle.std.specs.List.{All};
ghost use Rattle.round_program.specs.Emissions.{HandsOver};
ghost use Rattle.rank_node.specs.Sending.{votes_to, to_send, is_voting};

use bale_items::Item;
use round_program::{Departures, Program};

/// What a node sends in its epoch.
#[derive(Clone, Copy, PartialEq, Eq, Debug)]
pub enum Sends {
    /// What its program emits in this round.
    Emissions,
    /// Nothing, since its program found no memory to begin the round.
    Nothing,
    /// This vote, to so many ranks.
    Votes(u64, u32),
}

/// How many items a node sends.
#[tactic(auto, using(crate::proofs::Ballots::votes_length))]
pub(crate) fn count_of<Q: Program>(prog: &Box<Q>, sends: Sends) -> u64
    ensures { result ≡ length (to_send Q.rules prog.now.value sends) }
{
    match sends {
        Sends::Emissions => prog.count(),
        Sends::Nothing => 0,
        Sends::Votes(_, ranks) => ranks as u64,
    }
}

/// Hands what a node sends, from number `from` on, to `out`, in order, until one item is refused or
/// all are handed over. Answers how many are by then.
pub(crate) fn send_each<Q: Program, D: Departures>(
    prog: &Box<Q>,
    sends: Sends,
    from: u64,
    out: &mut D,
) -> u64
    requires from { from ≤ length (to_send Q.rules prog.now.value sends) }
    requires may { All (λ e. D.may out.old e.0) (drop from (to_send Q.rules prog.now.value sends)) }
    ensures forward { from ≤ result }
    ensures low { result ≤ length (to_send Q.rules prog.now.value sends) }
    ensures hands { HandsOver D.hands (drop from (to_send Q.rules prog.now.value sends))
        (result - from) out.old out.new }
{
    match sends {
        Sends::Emissions => prog.emit_each(from, out),
        Sends::Nothing => from,
        Sends::Votes(vote, ranks) => vote_each(vote, ranks, from, out),
    }
}

/// Hands one vote for each rank, from number `from` on, to `out`, until one is refused.
fn vote_each<D: Departures>(vote: u64, ranks: u32, from: u64, out: &mut D) -> u64
    requires from { from ≤ length (votes_to ranks vote) }
    requires may { All (λ e. D.may out.old e.0) (drop from (votes_to ranks vote)) }
    ensures forward { from ≤ result }
    ensures low { result ≤ length (votes_to ranks vote) }
    ensures hands { HandsOver D.hands (drop from (votes_to ranks vote)) (result - from) out.old out.new }
{
    let item = Item {
        a: vote,
        b: 0,
        c: 0,
    };
    let mut next = from;
    while next < ranks as u64 {
        if !out.push(next as u32, item) {
            return next;
        }
        next += 1;
    }
    next
}

/// Whether a node votes in this epoch.
pub(crate) fn votes_now(sends: Sends) -> bool
    ensures { result ≡ is_voting sends }
{
    match sends {
        Sends::Emissions => false,
        Sends::Nothing => false,
        Sends::Votes(_, _) => true,
    }
}
