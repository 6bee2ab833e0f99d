//! The canonical run by hand: in each round every rank absorbs what all ranks sent it, sender by
//! sender, and ends the round with the sum of the votes.

use bale_items::{Item, NoMemory};
use round_program::{Program, Progs};
use std::alloc::Global;

/// All ranks after the canonical run, and the sum of the votes of each of its rounds. A run of more
/// than `most` rounds is given up, and then there are no sums.
pub(crate) fn run<Q: Program>(
    alloc: Global,
    progs: Progs<Q>,
    most: u32,
) -> Result<(Progs<Q>, Vec<u64>), NoMemory> {
    let mut now = progs;
    let mut sums = Vec::new(alloc);
    for _round in 0..most {
        let (full, votes) = absorbed(alloc, now)?;
        sums.push(votes)?;
        let (later, more) = ended(alloc, full, votes)?;
        now = later;
        if !more {
            return Ok((now, sums));
        }
    }
    Ok((now, Vec::new(alloc)))
}

/// All ranks after the absorbs of a round, and the sum of their votes.
fn absorbed<Q: Program>(alloc: Global, mut progs: Progs<Q>) -> Result<(Progs<Q>, u64), NoMemory> {
    let mut all = Vec::new(alloc);
    for r in 0..progs.len() {
        if let Some(q) = progs.get(r) {
            all.push(sent(alloc, q)?)?;
        }
    }
    let mut later = Progs::new(alloc);
    let mut votes = 0u64;
    for _rank in 0..progs.len() {
        if let Some(q) = progs.take_first() {
            let next = after_absorbs(q, &all)?;
            votes = votes.saturating_add(next.vote());
            later.add(next)?;
        }
    }
    Ok((later, votes))
}

/// What a program emits in its round.
pub(crate) fn sent<Q: Program>(alloc: Global, q: &Q) -> Result<Vec<(u32, Item)>, NoMemory> {
    let mut all = Vec::new(alloc);
    for i in 0..q.count() {
        all.push(q.emission(i))?;
    }
    Ok(all)
}

/// A program after the absorbs of a round in which all ranks sent these items.
fn after_absorbs<Q: Program>(mut q: Q, sent: &[Vec<(u32, Item)>]) -> Result<Q, NoMemory> {
    let mut from = 0u32;
    for items in sent {
        absorb_from(&mut q, from, items)?;
        from = from.saturating_add(1);
    }
    Ok(q)
}

/// Absorbs what of one sender's emissions is for this rank.
fn absorb_from<Q: Program>(q: &mut Q, from: u32, sent: &[(u32, Item)]) -> Result<(), NoMemory> {
    for (to, item) in sent {
        if *to == q.rank() && q.fits(from, *item) {
            q.absorb(from, *item)?;
        }
    }
    Ok(())
}

/// All ranks after a round's end, and whether another follows.
fn ended<Q: Program>(
    alloc: Global,
    mut progs: Progs<Q>,
    votes: u64,
) -> Result<(Progs<Q>, bool), NoMemory> {
    let mut later = Progs::new(alloc);
    let mut goes_on = false;
    for _rank in 0..progs.len() {
        if let Some(mut q) = progs.take_first() {
            goes_on = q.end_round(votes)?;
            later.add(q)?;
        }
    }
    Ok((later, goes_on))
}
