//! Whether no place comes twice among entries, in time that grows with their number.
//!
//! A walk over the entries of a row marks each column that it meets with the row's own stamp: a
//! column that bears the stamp already came twice. If the entries stand row by row, one walk
//! goes over them all in place; else the entries of each row are chained first.
ghost use Rattle.std.specs.Prelude.{◌≡◌, ◌<◌, true, replicate, vec_len, Ok};
ghost use Rattle.std.specs.List.{All, AllPairs};
ghost use Rattle.mtx_text.specs.Sparse.{SamePlace};
ghost use Rattle.mtx_text.specs.code.Chains.{IsBelowSide, AreIndexed, AreLinked, IsRowApart};

use crate::links::link;
use bale_items::Triple;
use std::alloc::{AllocError, Global};

/// Whether no place comes twice; rows and columns are below `side`. The answer false may also come
/// of another cause, and true comes of none.
pub(crate) fn are_apart(alloc: Global, side: u32, entries: &[Triple]) -> Result<bool, AllocError>
    requires { AreIndexed side entries.now }
    ensures { result ≡ Ok true → AllPairs (λ s t. ¬ SamePlace s t) entries.now }
{
    let mut marks = vec![in alloc; 0u32; side as usize]?;
    if row_by_row(side, entries, marks.as_mut_slice()) {
        return Ok(true);
    }
    let none = entries.len() as u32;
    let mut heads = vec![in alloc; none; side as usize]?;
    let mut nexts = vec![in alloc; none; entries.len()]?;
    link(side, entries, &mut heads, &mut nexts);
    let mut stamps = vec![in alloc; 0u32; side as usize]?;
    for row in 0..side {
        if !is_row_apart(side, entries, &heads, &nexts, row, &mut stamps) {
            return Ok(false);
        }
    }
    Ok(true)
}

/// Whether the rows of entries never fall, and no place comes twice.
#[inline(never)]
fn row_by_row(side: u32, entries: &[Triple], marks: &mut [u32]) -> bool
    requires within { All (λ t. IsBelowSide side t) entries.now }
    requires marks { marks.old ≡ replicate side 0 }
    ensures { result ≡ true → AllPairs (λ s t. ¬ SamePlace s t) entries.now }
{
    let mut row = 0;
    for t in entries {
        let Triple { i, j, .. } = *t;
        let mark = i + 1;
        if i < row || marks[j as usize] == mark {
            return false;
        }
        marks[j as usize] = mark;
        row = i;
    }
    true
}

/// Whether no column comes twice along a row's chain.
#[inline(never)]
fn is_row_apart(
    side: u32,
    entries: &[Triple],
    heads: &Vec<u32>,
    nexts: &Vec<u32>,
    row: u32,
    stamps: &mut Vec<u32>,
) -> bool
    requires linked { AreLinked side entries.now heads.now.items nexts.now.items }
    requires row { row < side }
    requires stamps { vec_len stamps.old ≡ side }
    ensures apart { result ≡ true → IsRowApart entries.now row }
    ensures stamps { vec_len stamps.new ≡ side }
{
    let stamp = row + 1;
    let mut at = heads[row as usize] as usize;
    while at < entries.len() {
        let column = entries[at].j as usize;
        if stamps[column] == stamp {
            return false;
        }
        stamps[column] = stamp;
        at = nexts[at] as usize;
    }
    true
}
