//! Lists of which each has whole rows, put together row by row: such lists are what ranks have of
//! a matrix.
ghost use Rattle.std.specs.Prelude.{◌≡◌, ◌<◌, ◌≤◌, ◌++◌, IsPermutation, IfOk, OnOk, length};
ghost use Rattle.std.specs.List.{flat_map};

use bale_items::Triple;
use std::alloc::{AllocError, Global};

/// How many rows a triple there may be at most if a pass over all rows pays.
const ROWS_PER_TRIPLE: usize = 8;

/// The triples of all lists. Lists in order are merged if row `i` is in list number `i mod n` of
/// `n` alone, and there aren't many more rows than triples.
pub(crate) fn rows_together(alloc: Global, lists: Vec<&[Triple]>) -> Result<Vec<Triple>, AllocError>
    ensures { IfOk result (λ all. IsPermutation (flat_map (λ list. list.now) lists.entry.items) all.items) }
{
    let mut lists = lists;
    let mut all = Vec::with_capacity(alloc, count_of(&lists))?;
    take_in_turn(&mut all, &mut lists)?;
    append_all(&mut all, &lists)?;
    Ok(all)
}

/// How many triples the lists have.
fn count_of(lists: &[&[Triple]]) -> usize {
    let mut count = 0usize;
    for list in lists {
        count = count.saturating_add(list.len());
    }
    count
}

/// A number above the rows of all lists in order.
fn side_of(lists: &[&[Triple]]) -> usize {
    let mut side = 0usize;
    for list in lists {
        if let Some(last) = list.last() {
            side = side.max(last.i as usize + 1);
        }
    }
    side
}

/// Takes one row after the other, each from the front of the list whose turn it is, if there aren't
/// many more rows than triples.
fn take_in_turn(all: &mut Vec<Triple>, lists: &mut Vec<&[Triple]>) -> Result<(), AllocError>
    ensures { OnOk result (IsPermutation (all.old.items ++ flat_map (λ list. list.now) lists.old.items)
        (all.new.items ++ flat_map (λ list. list.now) lists.new.items)) }
{
    if lists.is_empty() {
        return Ok(());
    }
    let side = side_of(lists);
    if side / ROWS_PER_TRIPLE > count_of(lists) {
        return Ok(());
    }
    let mut turn = 0;
    for row in 0..side {
        lists[turn] = after_row(all, lists[turn], row)?;
        turn = next_turn(turn, lists.len());
    }
    Ok(())
}

/// Whose turn it is after a turn, of so many.
#[inline(always)]
fn next_turn(turn: usize, count: usize) -> usize
    requires { turn < count }
    ensures { result < count }
{
    if turn + 1 == count { 0 } else { turn + 1 }
}

/// Appends what a list has of a row at its front, and gives the rest of the list.
#[inline(always)]
fn after_row<'a>(
    all: &mut Vec<Triple>,
    list: &'a [Triple],
    row: usize,
) -> Result<&'a [Triple], AllocError>
    ensures { IfOk result (λ rest. all.new.items ++ rest.now ≡ all.old.items ++ list.now) }
{
    let (front, behind) = list.split_at(row_len(list, row));
    all.extend_from_slice(front)?;
    Ok(behind)
}

/// How many triples at a list's front are in a row.
#[inline(always)]
fn row_len(list: &[Triple], row: usize) -> usize
    ensures { result ≤ length list.now }
{
    for n in 0..list.len() {
        if list[n].i as usize != row {
            return n;
        }
    }
    list.len()
}

/// Appends the lists, one after the other.
fn append_all(all: &mut Vec<Triple>, lists: &[&[Triple]]) -> Result<(), AllocError>
    ensures { OnOk result (all.new.items ≡ all.old.items ++ flat_map (λ list. list.now) lists.now) }
{
    for list in lists {
        all.extend_from_slice(list)?;
    }
    Ok(())
}
