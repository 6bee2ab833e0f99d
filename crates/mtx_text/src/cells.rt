//! Ordered maps from places to values, in which raises come in any order at the cost of a push
//! each.
ghost use Rattle.std.specs.Prelude.{◌≡◌, ◌≢◌, ◌+◌, ◌≤◌, ◌++◌, ◌∷◌, ◌==◌, true, not, [], List, length, map, slice_get, take, Ok, IfOk, OnOk, if◌then◌else◌};
ghost use Rattle.std.specs.Int.{int_max};
ghost use Rattle.bale_items.specs.Changes.{AllOrNothing};
ghost use Rattle.bale_items.specs.declared.triple.Triple.{Triple};
ghost use Rattle.mtx_text.specs.Grammar.{has_place};
ghost use Rattle.mtx_text.specs.Maps.{is_at};
ghost use Rattle.mtx_text.specs.Cells.{is_before, comes_before, InOrder, with_value_raised, raised_all, gathered_cells, together, first_from};
ghost use Rattle.mtx_text.specs.code.PlaceOrder.{IsOrderedFront};

use crate::append::append;
use crate::place_order::{comes_before, gather, greater, is_before};
use crate::rows::rows_together;
use bale_items::{NoMemory, Triple};
use std::alloc::{AllocError, Global};
use std::marker::Model;
use std::mem;

/// How many triples may wait behind those in order before `put` puts all in order.
const MOST_WAITING: usize = 1_024;

/// An ordered map from places to values, seen as the list of its cells by row and then column.
///
/// What comes is kept as it comes. It is put in order by `settle`, by `into_entries`, and if a
/// matrix is made of it.
#[derive(Drop)]
pub struct Cells {
    /// What came, of which each place has its greatest value.
    triples: Vec<Triple>,
    /// How many of them, from the front, are in order with no place twice.
    settled: usize,
}

impl Model for Cells {
    ghost use Rattle.std.specs.Prelude.{◌≤◌, List, take, vec_len};
    ghost use Rattle.bale_items.specs.declared.triple.Triple.{Triple};
    ghost use Rattle.mtx_text.specs.Maps.{is_at};
    ghost use Rattle.mtx_text.specs.Cells.{is_before, comes_before, InOrder, gathered_cells};

    ghost Value = { List Triple };

    ghost view = { λ c. gathered_cells c.triples.items };

    ghost invariant = { λ c. (c.settled ≤ vec_len c.triples) × InOrder (take c.settled c.triples.items) };
}

impl Cells {
    /// No cells, whose later growth takes memory from `alloc`.
    pub fn new(alloc: Global) -> Cells
        ensures { result ≡ [] }
    {
        Cells {
            triples: Vec::new(alloc),
            settled: 0,
        }
    }

    /// The cells of several maps as one map: a place that some have has its greatest value. It
    /// takes one pass if the maps are settled, and row `i` is in map number `i mod n` of `n` alone.
    ///
    /// # Errors
    ///
    /// `NoMemory` if there was none.
    pub fn of_maps(alloc: Global, maps: &[&Cells]) -> Result<Cells, NoMemory>
        ensures { IfOk result (λ cells. cells ≡ together (map (λ m. m.now) maps.now)) }
    {
        let mut lists = Vec::with_capacity(alloc, maps.len())?;
        for m in maps {
            lists.push(m.as_they_came())?;
        }
        let triples = rows_together(alloc, lists)?;
        Ok(Cells {
            triples,
            settled: 0,
        })
    }

    /// What came, each place of which has its greatest value.
    fn as_they_came(&self) -> &[Triple]
        ensures { gathered_cells result.now ≡ self.now }
    {
        self.triples.as_slice()
    }

    /// Raises the value at row `i` and column `j` to `v`: it is `v` if the place was new or had
    /// a lesser value, and else nothing changes.
    ///
    /// # Errors
    ///
    /// `NoMemory` if there was none; the cells are as before.
    #[inline(always)]
    pub fn raise(&mut self, i: u32, j: u32, v: i64) -> Result<(), NoMemory>
        ensures { AllOrNothing (with_value_raised (record { i = i; j = j; v = v }) self.old) self.old self.new result }
    {
        append(&mut self.triples, Triple { i, j, v })?;
        Ok(())
    }

    /// Puts the value `v` at row `i` and column `j`, if that place is new, and says whether it
    /// was; else nothing changes.
    ///
    /// # Errors
    ///
    /// `NoMemory` if there was none; the cells are as before.
    pub fn put(&mut self, i: u32, j: u32, v: i64) -> Result<bool, NoMemory>
        ensures fresh { IfOk result (λ fresh. fresh ≡ not (has_place i j self.old)) }
        ensures put { result ≡ Ok true → self.new ≡ with_value_raised (record { i = i; j = j; v = v }) self.old }
        ensures kept { result ≢ Ok true → self.new ≡ self.old }
    {
        if self.triples.len() - self.settled > MOST_WAITING {
            self.settle();
        }
        if self.has(i, j) {
            return Ok(false);
        }
        self.raise_in_order(Triple { i, j, v })?;
        Ok(true)
    }

    /// Raises the cell at the place of `t` as `raise` does. If the cells are in order and `t` comes
    /// behind them all, they stay known to be.
    fn raise_in_order(&mut self, t: Triple) -> Result<(), NoMemory>
        ensures { AllOrNothing (with_value_raised t self.old) self.old self.new result }
    {
        let settled = settled_with(&self.triples, self.settled, t);
        self.triples.push(t)?;
        self.settled = settled;
        Ok(())
    }

    /// Whether there is a value at row `i` and column `j`.
    fn has(&self, i: u32, j: u32) -> bool
        ensures { result ≡ has_place i j self.now }
    {
        match self.at_or_after(i, j) {
            Some(c) => is_at(c, i, j),
            None => false,
        }
    }

    /// The cell of the least place, by row and then column, that isn't before row `i` and column
    /// `j`; `None` if and only if there is none.
    pub fn at_or_after(&self, i: u32, j: u32) -> Option<Triple>
        ensures first { result ≡ first_from i j self.now }
        ensures ordered { InOrder self.now }
    {
        let best = find_first(&self.triples[..self.settled], i, j);
        nearest(best, &self.triples[self.settled..], i, j)
    }

    /// Puts the cells in order, after which `at_or_after` finds by a few steps. What they are stays
    /// the same.
    pub fn settle(&mut self)
        ensures { self.new ≡ self.old }
    {
        gather(&mut self.triples);
        self.settled = self.triples.len();
    }

    /// The cells as a list, by row and then column.
    pub fn into_entries(self) -> Vec<Triple>
        ensures entries { result.items ≡ self }
        ensures ordered { InOrder result.items }
    {
        let mut triples = self.triples;
        gather(&mut triples);
        triples
    }

    /// Moves the cells into `list`, by row and then column. The list's memory is kept for cells to
    /// come.
    pub fn take_entries(&mut self, list: &mut Vec<Triple>)
        ensures entries { list.new.items ≡ self.old }
        ensures ordered { InOrder list.new.items }
        ensures none { self.new ≡ [] }
    {
        gather(&mut self.triples);
        mem::swap(&mut self.triples, list);
        self.triples.clear();
        self.settled = 0;
    }

    /// Whether there are none.
    pub fn is_empty(&self) -> bool
        ensures { result ≡ (length self.now == 0) }
    {
        self.triples.is_empty()
    }

    /// Appends triples that have these cells and no other.
    pub(crate) fn append_to(&self, triples: &mut Vec<Triple>) -> Result<(), AllocError>
        ensures cells { OnOk result (gathered_cells triples.new.items
            ≡ gathered_cells (triples.old.items ++ self.now)) }
        ensures ordered { InOrder self.now }
    {
        triples.extend_from_slice(self.triples.as_slice())?;
        Ok(())
    }
}

/// How many triples are in order from the front once `t` came behind them all.
#[inline(always)]
fn settled_with(triples: &Vec<Triple>, settled: usize, t: Triple) -> usize
    requires { IsOrderedFront settled triples.now.items }
    ensures { IsOrderedFront result (triples.now.items ++ t ∷ []) }
{
    if settled < triples.len() {
        return settled;
    }
    if settled == 0 {
        return 1;
    }
    if is_before(triples[settled - 1], t) {
        return settled + 1;
    }
    settled
}

#[inline(always)]
fn is_at(c: Triple, i: u32, j: u32) -> bool
    ensures { result ≡ is_at i j c }
{
    c.i == i && c.j == j
}

/// The first of cells in order that isn't before a place, by halving.
fn find_first(cells: &[Triple], i: u32, j: u32) -> Option<Triple>
    requires { InOrder cells.now }
    ensures { result ≡ first_from i j cells.now }
{
    let mut low = 0;
    let mut high = cells.len();
    while low < high {
        let middle = low + (high - low) / 2;
        let c = cells[middle];
        if comes_before(c.i, c.j, i, j) {
            low = middle + 1;
        } else {
            high = middle;
        }
    }
    cell_at(cells, low)
}

fn cell_at(cells: &[Triple], e: usize) -> Option<Triple>
    ensures { result ≡ slice_get cells.now e }
{
    cells.get(e).copied()
}

/// The first cell from a place on, once the triples that wait came to cells of which it was `best`.
fn nearest(best: Option<Triple>, waiting: &[Triple], i: u32, j: u32) -> Option<Triple>
    ensures { (cells : List Triple) → InOrder cells → best ≡ first_from i j cells
        → result ≡ first_from i j (raised_all cells waiting.now) }
{
    let mut best = best;
    for t in waiting {
        best = nearer(best, *t, i, j);
    }
    best
}

/// The first cell from a place on, once `t` came to cells of which it was `best`.
#[inline(always)]
fn nearer(best: Option<Triple>, t: Triple, i: u32, j: u32) -> Option<Triple>
    ensures { (cells : List Triple) → InOrder cells → best ≡ first_from i j cells
        → result ≡ first_from i j (with_value_raised t cells) }
{
    if comes_before(t.i, t.j, i, j) {
        return best;
    }
    match best {
        None => Some(t),
        Some(c) => Some(first_of(c, t)),
    }
}

/// The first of two triples; of two at one place, that with the greater value.
#[inline(always)]
fn first_of(c: Triple, t: Triple) -> Triple
    ensures { result ≡ (if is_before t c then t else if is_before c t then c else record {
      i = c.i;
      j = c.j;
      v = int_max c.v t.v;
    }) }
{
    if is_before(t, c) {
        t
    } else if is_before(c, t) {
        c
    } else {
        greater(c, t)
    }
}
