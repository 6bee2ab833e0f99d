//! The lines of queries that wait for replies, one for each rank.

ghost use Rattle.std.specs.Prelude.{◌≡◌, ◌≢◌, ℕ, ◌<◌, List, [], ◌∷◌, ◌++◌, length, drop, replicate, slice_get, Some, IfOk, OnOk};
ghost use Rattle.std.specs.List.{All};
ghost use Rattle.query_node.specs.Lines.{HasLines};

use crate::line::Line;
use bale_items::NoMemory;
use round_program::Asker;
use std::alloc::Global;

/// The lines of an asker that has heard nothing: for each rank the numbers of all queries to it.
pub(crate) fn all_lines<A: Asker>(
    alloc: Global,
    asker: &Box<A>,
    ranks: u32,
) -> Result<Vec<Line>, NoMemory>
    requires receivers { All (λ q. q.0 < ranks) (A.talk.queries asker.now.value) }
    ensures { IfOk result (λ ls. HasLines ranks (A.talk.queries asker.now.value) ls.items) }
{
    let mut lines = no_lines(alloc, ranks)?;
    for i in 0..asker.count() {
        let (to, _) = asker.query(i);
        add_to(&mut lines, to, i)?;
    }
    Ok(lines)
}

/// An empty line for each rank.
fn no_lines(alloc: Global, ranks: u32) -> Result<Vec<Line>, NoMemory>
    ensures { IfOk result (λ ls. ls.items ≡ replicate ranks []) }
{
    let mut lines = Vec::with_capacity(alloc, ranks as usize)?;
    for _rank in 0..ranks {
        lines.push(Line::new(alloc))?;
    }
    Ok(lines)
}

/// Puts the query number `place` at the end of the line of the rank `to`.
fn add_to(lines: &mut Vec<Line>, to: u32, place: u64) -> Result<(), NoMemory>
    requires { to < length lines.old.items }
    ensures all { length lines.new.items ≡ length lines.old.items }
    ensures here { OnOk result ((xs : List ℕ) → slice_get lines.old.items to ≡ Some xs
        → slice_get lines.new.items to ≡ Some (xs ++ place ∷ [])) }
    ensures others { (d : ℕ) → d ≢ to → slice_get lines.new.items d ≡ slice_get lines.old.items d }
{
    lines[to as usize].add(place)
}

/// Takes the first query of the line of the rank `from`, if any waits.
#[inline]
pub(crate) fn next_of(lines: &mut Vec<Line>, from: u32) -> Option<u64>
    requires { from < length lines.old.items }
    ensures all { length lines.new.items ≡ length lines.old.items }
    ensures first { (xs : List ℕ) → slice_get lines.old.items from ≡ Some xs → result ≡ slice_get xs 0 }
    ensures here { (xs : List ℕ) → slice_get lines.old.items from ≡ Some xs
        → slice_get lines.new.items from ≡ Some (drop 1 xs) }
    ensures others { (d : ℕ) → d ≢ from → slice_get lines.new.items d ≡ slice_get lines.old.items d }
{
    lines[from as usize].next()
}
