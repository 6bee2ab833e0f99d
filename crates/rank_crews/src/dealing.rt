//! Ranks are dealt to workers, and gathered from them.
ghost use Rattle.std.specs.Prelude.{◌≡◌, ◌<◌, ◌≤◌, true, List, [], length, replicate, vec_capacity, IfOk};
ghost use Rattle.std.specs.List.{All};
ghost use Rattle.rank_crews.specs.Runs.{AllRan};
ghost use Rattle.rank_crews.specs.Crews.{AreDealt, HaveRun};

use crate::assignment::Assignment;
use crate::seated::{GateLog, Seated};
use bale_items::NoMemory;
use std::alloc::Global;

/// Deals ranks to so many workers, rank r to worker r mod `count`.
pub(crate) fn deal<A: Seated>(
    alloc: Global,
    count: usize,
    all: Vec<A>,
) -> Result<Vec<Assignment<A>>, NoMemory>
    requires some { 0 < count }
    ensures { IfOk result (λ crews. AreDealt count 0 all.items crews.items) }
{
    let Ok(mut crews) = no_ranks(alloc, count, all.len()) else {
        return Err(NoMemory);
    };
    let mut all = all;
    while let Some(at) = all.pop() {
        crews[all.len() % count].join(at)?;
    }
    Ok(crews)
}

/// So many workers without a rank, with room for so many ranks.
fn no_ranks<A: Seated>(
    alloc: Global,
    count: usize,
    ranks: usize,
) -> Result<Vec<Assignment<A>>, NoMemory>
    requires some { 0 < count }
    ensures { IfOk result (λ crews. crews.items ≡ replicate count []) }
{
    let Ok(mut crews) = Vec::with_capacity(alloc, count) else {
        return Err(NoMemory);
    };
    for _ in 0..count {
        let Ok(none) = Assignment::new(alloc, ranks.div_ceil(count)) else {
            return Err(NoMemory);
        };
        crews.push_reserved(none);
    }
    Ok(crews)
}

/// Takes all ranks back, which were dealt to the workers, and puts them in order.
pub(crate) fn gather<A: Seated, J: GateLog>(
    crews: Vec<Assignment<A>>,
    count: usize,
    ended: Vec<A>,
) -> Vec<A>
    requires some { 0 < length crews.items }
    requires run { (all : List A) × (length all ≡ count)
        × HaveRun (A.ran J.notified) A.over (length crews.items) 0 all crews.items }
    requires none { ended.items ≡ [] }
    requires room { count ≤ vec_capacity ended }
    ensures ran { (all : List A) → length all ≡ count
        → HaveRun (A.ran J.notified) A.over (length crews.items) 0 all crews.items
        → AllRan (A.ran J.notified) all result.items }
    ensures over { All (λ y. A.over y ≡ true) result.items }
{
    let mut crews = crews;
    let mut ended = ended;
    for number in 0..count {
        let from = number % crews.len();
        let Some(at) = crews[from].leave() else {
            unreachable!()
        };
        ended.push_reserved(at);
    }
    ended
}
