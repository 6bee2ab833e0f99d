//! The cells of a rank of permute between two rounds, and the new numbers that it knows.

ghost use Rattle.std.specs.Prelude.{◌≡◌, ◌<◌, ◌+◌, ◌-◌, ◌/◌, ◌^◌, ◌==◌, [], nat_lt, IfOk, if◌then◌else◌, length, map};
ghost use Rattle.std.specs.List.{All};
ghost use Rattle.app_permute.specs.PermuteRuns.{own_numbers};
ghost use Rattle.app_permute.specs.code.Sent.{with_new_row, with_new_column};

use bale_items::{NoMemory, Triple};
use mtx_text::Cells;
use std::alloc::Global;

/// Moves the cells that came in round 0 or 1 into `list`, in order; those of a later round are put
/// in order and stay, and the list is empty.
pub(crate) fn take_cells(cells: &mut Cells, list: &mut Vec<Triple>, round: u64)
    ensures came { list.new.items ≡ (if nat_lt round 2 then cells.old else []) }
    ensures kept { cells.new ≡ (if nat_lt round 2 then [] else cells.old) }
{
    if round < 2 {
        cells.take_entries(list);
    } else {
        *list = Vec::new(*list.allocator());
        cells.settle();
    }
}

/// Gives the cells that came in a round the new numbers that the rank knows: of their rows after
/// round 0, and of their columns after round 1.
pub(crate) fn renumber(
    cells: &mut Vec<Triple>,
    round: u64,
    ranks: u32,
    new_rows: &[u32],
    new_cols: &[u32],
)
    requires some { 0 < ranks }
    requires rows { round ≡ 0 → All (λ t. t.i / ranks < length new_rows.now) cells.old.items }
    requires cols { round ≡ 1 → All (λ t. t.i / ranks < length new_cols.now) cells.old.items }
    ensures { cells.new.items ≡ (if round == 0 then map (with_new_row ranks new_rows.now) cells.old.items
        else if round == 1 then map (with_new_column ranks new_cols.now) cells.old.items else cells.old.items) }
{
    if round == 0 {
        renumber_rows(cells, ranks, new_rows);
    } else if round == 1 {
        renumber_columns(cells, ranks, new_cols);
    }
}

/// Gives cells the new numbers of their rows.
fn renumber_rows(cells: &mut Vec<Triple>, ranks: u32, news: &[u32])
    requires some { 0 < ranks }
    requires placed { All (λ t. t.i / ranks < length news.now) cells.old.items }
    ensures { cells.new.items ≡ map (with_new_row ranks news.now) cells.old.items }
{
    for k in 0..cells.len() {
        let cell = cells[k];
        cells[k] = with_new_row(ranks, news, cell);
    }
}

#[inline(always)]
fn with_new_row(ranks: u32, news: &[u32], cell: Triple) -> Triple
    requires some { 0 < ranks }
    requires placed { cell.i / ranks < length news.now }
    ensures { result ≡ with_new_row ranks news.now cell }
{
    Triple {
        i: news[(cell.i / ranks) as usize],
        j: cell.j,
        v: cell.v,
    }
}

/// Gives cells, kept by their columns first, the new numbers of their columns, and keeps them by
/// their rows first.
fn renumber_columns(cells: &mut Vec<Triple>, ranks: u32, news: &[u32])
    requires some { 0 < ranks }
    requires placed { All (λ t. t.i / ranks < length news.now) cells.old.items }
    ensures { cells.new.items ≡ map (with_new_column ranks news.now) cells.old.items }
{
    for k in 0..cells.len() {
        let cell = cells[k];
        cells[k] = with_new_column(ranks, news, cell);
    }
}

#[inline(always)]
fn with_new_column(ranks: u32, news: &[u32], cell: Triple) -> Triple
    requires some { 0 < ranks }
    requires placed { cell.i / ranks < length news.now }
    ensures { result ≡ with_new_column ranks news.now cell }
{
    Triple {
        i: cell.j,
        j: news[(cell.i / ranks) as usize],
        v: cell.v,
    }
}

/// The new numbers of the rows or columns that a rank owns.
pub(crate) fn own_numbers(
    alloc: Global,
    ranks: u32,
    rank: u32,
    numbers: &[u32],
) -> Result<Vec<u32>, NoMemory>
    requires { rank < ranks }
    ensures { IfOk result (λ v. v.items ≡ own_numbers ranks rank numbers.now) }
{
    let (step, first) = (ranks as usize, rank as usize);
    let count = how_many(numbers.len(), step, first);
    let mut own = Vec::with_capacity(alloc, count)?;
    for k in 0..count {
        own.push(numbers[k * step + first])?;
    }
    Ok(own)
}

/// How many of `len` numbers a rank owns.
fn how_many(len: usize, step: usize, first: usize) -> usize
    requires own { first < step }
    requires small { len + step < 2 ^ 64 }
    ensures { result ≡ (len + (step - 1 - first)) / step }
{
    (len + (step - 1 - first)) / step
}
