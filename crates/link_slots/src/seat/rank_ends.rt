//! What one rank counts at all its links, before its seat is given out.
ghost use Rattle.std.specs.Prelude.{◌≡◌, IfOk, length, replicate, None};
ghost use Rattle.std.specs.List.{All};
ghost use Rattle.link_slots.specs.Gathering.{AreNew, HasNew};

use crate::seat::ear::Ear;
use crate::seat::ends::{InEnd, OutEnd};
use bale_items::NoMemory;
use route_tensor::MOST_HOPS;
use std::alloc::Global;

/// The counts of a rank, by the number of the link, and of its doorbells.
#[derive(Drop)]
pub(crate) struct RankEnds {
    pub(crate) outs: Vec<OutEnd>,
    pub(crate) ins: Vec<InEnd>,
    pub(crate) ears: [Ear; MOST_HOPS],
    pub(crate) ended: Vec<u64>,
}

/// How many epochs each link in of a rank has ended, by the number of the link.
#[derive(Drop)]
pub(crate) struct EndedCounts {
    pub(crate) counts: Vec<u64>,
}

/// Of as many ranks, none of which was gathered.
pub(crate) fn none_ended(alloc: Global, ranks: usize) -> Result<Vec<Option<EndedCounts>>, NoMemory>
    ensures { IfOk result (λ v. v.items ≡ replicate ranks None) }
{
    let mut all = Vec::with_capacity(alloc, ranks)?;
    for _ in 0..ranks {
        if all.push(None).is_err() {
            return Err(NoMemory);
        }
    }
    Ok(all)
}

/// The counts of a rank that did nothing yet.
pub(crate) fn new_ends(alloc: Global, links: usize) -> Result<RankEnds, NoMemory>
    ensures { IfOk result (λ e. AreNew links e) }
{
    let out_end = OutEnd { sent: 0, spare: 0 };
    let in_end = InEnd {
        taken: 0,
        waiting: 0,
        noted: 0,
        _filler: 0,
    };
    let ear = Ear { marks: 0, hears: 0 };
    Ok(RankEnds {
        outs: list_apart(alloc, out_end, links, 8)?,
        ins: list_apart(alloc, in_end, links, 4)?,
        ears: [ear; MOST_HOPS],
        ended: list_apart(alloc, 0, links, 16)?,
    })
}

/// A list of so many equal elements, with room for some more behind them. One thread makes the
/// lists of all ranks, side by side, and each is changed by a thread of its own: with 128 unused
/// bytes between them no two share a cache line, nor a pair of lines.
fn list_apart<A: Copy + Drop>(
    alloc: Global,
    each: A,
    count: usize,
    beyond: usize,
) -> Result<Vec<A>, NoMemory>
    ensures { IfOk result (λ v. v.items ≡ replicate count each) }
{
    let mut list = Vec::with_capacity(alloc, count.saturating_add(beyond))?;
    list.resize(count, each)?;
    Ok(list)
}

/// The counts of all ranks, none of which did anything yet.
pub(crate) fn all_ends(
    alloc: Global,
    ranks: usize,
    links: usize,
) -> Result<Vec<Option<RankEnds>>, NoMemory>
    ensures many { IfOk result (λ v. length v.items ≡ ranks) }
    ensures new { IfOk result (λ v. All (HasNew links) v.items) }
{
    let mut all = Vec::with_capacity(alloc, ranks)?;
    for _ in 0..ranks {
        let ends = new_ends(alloc, links)?;
        if all.push(Some(ends)).is_err() {
            return Err(NoMemory);
        }
    }
    Ok(all)
}
