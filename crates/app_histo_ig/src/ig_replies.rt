//! The replies of a rank of ig, put together from the queries that came and the sums: so no list of
//! them is made.

ghost use Rattle.std.specs.Prelude.{◌≡◌, ◌<◌, ◌≤◌, ◌-◌, ◌/◌, ◌^◌, ℕ, List, IfOk, Some, drop, length, map, slice_get};
ghost use Rattle.std.specs.List.{All};
ghost use Rattle.round_program.specs.Emissions.{HandsOver};
ghost use Rattle.round_program.specs.Handing.{MayHandOver, HandsUpTo};
ghost use Rattle.app_histo_ig.specs.Igs.{ig_reply_to, ig_replies_from};
ghost use Rattle.app_histo_ig.specs.code.Queries.{CanReply};

use bale_items::{Item, NoMemory};
use round_program::Departures;

/// How many replies are sent after a round: after round 1 one to each query, and else none.
pub(crate) fn count_after(round: u64, queries: &[Vec<Item>]) -> Result<u64, NoMemory>
    ensures { IfOk result (λ n. round ≡ 1 → (ranks : ℕ) (sums : List ℕ)
        → n ≡ length (ig_replies_from ranks sums 0 (map (λ l. l.items) queries.now))) }
{
    if round == 1 {
        return how_many(queries);
    }
    Ok(0)
}

/// How many queries there are.
fn how_many(queries: &[Vec<Item>]) -> Result<u64, NoMemory>
    ensures { IfOk result (λ n. (ranks : ℕ) (sums : List ℕ)
        → n ≡ length (ig_replies_from ranks sums 0 (map (λ l. l.items) queries.now))) }
{
    let mut count = 0u64;
    for list in queries {
        let more = list.len() as u64;
        if more > u64::MAX - count {
            return Err(NoMemory);
        }
        count += more;
    }
    Ok(count)
}

/// Reply number `i`, with the rank that asked.
pub(crate) fn reply_at(ranks: u32, sums: &[u64], queries: &[Vec<Item>], i: u64) -> (u32, Item)
    requires can { CanReply ranks sums.now (length queries.now) (map (λ l. l.items) queries.now) }
    requires within { i < length (ig_replies_from ranks sums.now 0 (map (λ l. l.items) queries.now)) }
    ensures { slice_get (ig_replies_from ranks sums.now 0 (map (λ l. l.items) queries.now)) i ≡ Some result }
{
    let mut left = i;
    for (from, list) in queries.iter().enumerate() {
        let count = list.len() as u64;
        if left < count {
            return (from as u32, reply_of(ranks, sums, list, left as usize));
        }
        left -= count;
    }
    unreachable!()
}

/// The reply to query number `i` of a sender.
#[inline(always)]
fn reply_of(ranks: u32, sums: &[u64], queries: &[Item], i: usize) -> Item
    requires some { 0 < ranks }
    requires asked { All (λ x. (x.a < 2 ^ 32) × (x.a / ranks < length sums.now)) queries.now }
    requires within { i < length queries.now }
    ensures { (to : ℕ) → slice_get (map (ig_reply_to ranks sums.now to) queries.now) i ≡ Some (to, result) }
{
    let query = queries[i];
    Item {
        a: query.b,
        b: sums[(query.a as u32 / ranks) as usize],
        c: 0,
    }
}

/// Hands on the replies, which are `count`, from number `from` on, until one is refused or all are
/// handed over, and says how many are by then.
#[inline(never)]
pub(crate) fn emit_replies<D: Departures>(
    ranks: u32,
    sums: &[u64],
    queries: &[Vec<Item>],
    count: u64,
    from: u64,
    out: &mut D,
) -> u64
    requires can { CanReply ranks sums.now (length queries.now) (map (λ l. l.items) queries.now) }
    requires count { count ≡ length (ig_replies_from ranks sums.now 0 (map (λ l. l.items) queries.now)) }
    requires may { MayHandOver (D.may out.old) (ig_replies_from ranks sums.now 0 (map (λ l. l.items) queries.now))
        from }
    ensures { HandsUpTo D.hands (ig_replies_from ranks sums.now 0 (map (λ l. l.items) queries.now)) from result
        out.old out.new }
{
    if from == count {
        return from;
    }
    let mut next = from;
    let mut first = 0u64;
    for (to, list) in queries.iter().enumerate() {
        let end = first + list.len() as u64;
        let at = (next.min(end) - first) as usize;
        let handed = first + emit_to(ranks, sums, to as u32, list, at, out) as u64;
        if handed < end {
            return handed;
        }
        next = next.max(end);
        first = end;
    }
    next
}

/// Hands on the replies to one sender, from number `from` on.
#[inline(always)]
fn emit_to<D: Departures>(
    ranks: u32,
    sums: &[u64],
    to: u32,
    queries: &[Item],
    from: usize,
    out: &mut D,
) -> usize
    requires some { 0 < ranks }
    requires asked { All (λ x. (x.a < 2 ^ 32) × (x.a / ranks < length sums.now)) queries.now }
    requires from { from ≤ length queries.now }
    requires may { from < length queries.now → D.may out.old to }
    ensures forward { from ≤ result }
    ensures low { result ≤ length queries.now }
    ensures hands { HandsOver D.hands (drop from (map (ig_reply_to ranks sums.now to) queries.now)) (result - from)
        out.old
        out.new }
    ensures may { (other : ℕ) → D.may out.old other → D.may out.new other }
{
    let mut next = from;
    while next < queries.len() {
        let reply = reply_of(ranks, sums, queries, next);
        if !out.push(to, reply) {
            return next;
        }
        next += 1;
    }
    next
}
