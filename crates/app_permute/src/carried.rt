//! Cells in transit from rank to rank, as items.

ghost use Rattle.std.specs.Prelude.{◌≡◌, ◌<◌, ◌^◌, OnOk, is_ok, if◌then◌else◌};
ghost use Rattle.std.specs.List.{All};
ghost use Rattle.mtx_text.specs.Cells.{InOrder, with_value_raised};
ghost use Rattle.app_permute.specs.Carried.{cell_item, item_cell, may_cell};
ghost use Rattle.app_permute.specs.Permutes.{IsKeptCell, kept_as};
ghost use Rattle.app_permute.specs.code.Batches.{own_raised, all_raised};

use bale_items::{Item, NoMemory, Triple, bits_of, value_of};
use mtx_text::Cells;
use round_program::Arrivals;

/// A rank, as far as it says which cells it may be sent as the owner of their rows.
#[derive(Clone, Copy)]
pub(crate) struct RowOwner {
    pub(crate) rank: u32,
    pub(crate) ranks: u32,
    /// the matrix's rows
    pub(crate) rows: u32,
    /// the matrix's columns
    pub(crate) cols: u32,
}

/// A cell as an item.
#[inline(always)]
pub(crate) fn cell_sent(cell: Triple) -> Item
    ensures { result ≡ cell_item cell }
{
    Item {
        a: cell.i as u64,
        b: cell.j as u64,
        c: bits_of(cell.v),
    }
}

/// Whether the rank `to` may be sent a cell: it owns the cell's row.
#[inline(always)]
pub(crate) fn cell_fits(rows: u32, cols: u32, ranks: u32, to: u32, from: u32, item: Item) -> bool
    ensures { result ≡ may_cell rows cols ranks to from item }
{
    from < ranks && item.a < rows as u64 && item.b < cols as u64 && item.a as u32 % ranks == to
}

/// Takes in the cell that an item stands for.
#[inline(always)]
pub(crate) fn raise_cell(cells: &mut Cells, item: Item) -> Result<(), NoMemory>
    requires row { item.a < 2 ^ 32 }
    requires column { item.b < 2 ^ 32 }
    ensures { cells.new ≡ (if is_ok result then with_value_raised (item_cell item) cells.old else cells.old) }
{
    cells.raise(item.a as u32, item.b as u32, value_of(item.c))
}

/// Takes in the cell that an item of permute stands for: by its column first in round 1.
#[inline(always)]
pub(crate) fn raise_kept(cells: &mut Cells, round: u64, item: Item) -> Result<(), NoMemory>
    requires row { item.a < 2 ^ 32 }
    requires column { item.b < 2 ^ 32 }
    ensures { cells.new ≡ (if is_ok result then with_value_raised (kept_as round item) cells.old else cells.old) }
{
    if round == 1 {
        return cells.raise(item.b as u32, item.a as u32, value_of(item.c));
    }
    raise_cell(cells, item)
}

/// Cells that came, turned: so the owner of a column takes them in as that of a row.
#[derive(Drop)]
pub(crate) struct Turned<I> {
    pub(crate) came: I,
}

impl<I: Arrivals> Arrivals for Turned<I> {
    ghost use Rattle.std.specs.Prelude.{map};
    ghost use Rattle.app_permute.specs.code.Batches.{turned_over};

    ghost items = { λ s. map turned_over (I.items s.came) };

    #[inline(always)]
    fn next(&mut self) -> Option<(u32, Item)> {
        let (from, item) = self.came.next()?;
        let turned = Item {
            a: item.b,
            b: item.a,
            c: item.c,
        };
        Some((from, turned))
    }
}

/// Takes in the cells of own rows among items that came.
#[inline(always)]
pub(crate) fn raise_each<I: Arrivals>(
    cells: &mut Cells,
    owner: RowOwner,
    came: I,
) -> Result<(), NoMemory>
    requires ordered { InOrder cells.old }
    ensures ok { OnOk result (cells.new ≡ all_raised owner cells.old (I.items came)) }
    ensures ordered { InOrder cells.new }
    ensures own { All (IsKeptCell owner.rows owner.cols owner.ranks owner.rank) cells.old
        → All (IsKeptCell owner.rows owner.cols owner.ranks owner.rank) cells.new }
{
    let mut came = came;
    while let Some((from, item)) = came.next() {
        raise_own(cells, owner, from, item)?;
    }
    Ok(())
}

/// Takes in the cell of one item that came, if its row is an own one.
#[inline(always)]
fn raise_own(cells: &mut Cells, owner: RowOwner, from: u32, item: Item) -> Result<(), NoMemory>
    requires ordered { InOrder cells.old }
    ensures ok { OnOk result (cells.new ≡ own_raised owner cells.old from item) }
    ensures ordered { InOrder cells.new }
    ensures own { All (IsKeptCell owner.rows owner.cols owner.ranks owner.rank) cells.old
        → All (IsKeptCell owner.rows owner.cols owner.ranks owner.rank) cells.new }
{
    if cell_fits(owner.rows, owner.cols, owner.ranks, owner.rank, from, item) {
        return raise_cell(cells, item);
    }
    Ok(())
}
