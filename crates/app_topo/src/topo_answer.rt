//! topo's answer, as an order.

ghost use Rattle.std.specs.Prelude.{◌≡◌, ◌<◌, ◌^◌, ◌==◌, ◌%◌, ℕ, None, map, reverse, IfOk, IfSome, OnOk};
ghost use Rattle.std.specs.List.{All, list_all, range_with_len};
ghost use Rattle.bale_items.specs.Bits.{twos_complement};
ghost use Rattle.mtx_text.specs.Cells.{raised_all};
ghost use Rattle.app_topo.specs.Levels.{topo_order, claims_after, col_claims, row_position, col_position};
ghost use Rattle.app_topo.specs.Triangular.{IsValid};
ghost use Rattle.app_topo.specs.TopoRuns.{TopoEnded};
ghost use Rattle.app_topo.specs.TopoEnds.{cell_of_level, cell_place};

use crate::order::TopoOrder;
use crate::placed::Placed;
use crate::topo::Topo;
use bale_items::{NoMemory, Triple, bits_of, value_of};
use mtx_text::{Cells, Matrix};
use round_program::Progs;
use std::alloc::Global;

/// The order of the matrix's rows and columns by levels; `None` if and only if no pair of
/// permutations makes the matrix upper triangular with a full diagonal. The programs are those of
/// `topo_start` on `m` after their run.
///
/// # Errors
///
/// `NoMemory` if there was none for the order.
pub fn topo_end(alloc: Global, m: &Matrix, p: &Progs<Topo>) -> Result<Option<TopoOrder>, NoMemory>
    requires ended { TopoEnded m.now p.now }
    ensures order { IfOk result (λ o. o ≡ topo_order m.now.rows m.now.entries) }
    ensures valid { IfOk result (λ o. IfSome o (λ t. IsValid m.now.rows m.now.entries (row_position t)
        (col_position t))) }
    ensures none { IfOk result (λ o. o ≡ None → (p q : ℕ → ℕ) → ¬ IsValid m.now.rows m.now.entries p q) }
{
    let placed = all_placed(alloc, m, p)?;
    if placed.len() != m.rows() as usize {
        return Ok(None);
    }
    if !columns_once(m, p) {
        return Ok(None);
    }
    Ok(Some(TopoOrder::of_places(last_first(alloc, &placed)?)))
}

/// The rows that claimed, by level and then row.
fn all_placed(alloc: Global, m: &Matrix, p: &Progs<Topo>) -> Result<Vec<Triple>, NoMemory>
    requires ended { TopoEnded m.now p.now }
    ensures claims { IfOk result (λ v. map cell_place v.items ≡ claims_after m.now.rows m.now.entries m.now.rows) }
    ensures small { IfOk result (λ v. All (λ u. twos_complement u.v < 2 ^ 32) v.items) }
{
    let mut all = Cells::new(alloc);
    for rank in 0..p.len() {
        let Some(program) = p.get(rank) else {
            unreachable!()
        };
        raise_placed(&mut all, program.claimed())?;
    }
    Ok(all.into_entries())
}

/// Puts a rank's rows to the others.
fn raise_placed(all: &mut Cells, claimed: &[Placed]) -> Result<(), NoMemory>
    requires { All (λ q. q.level < 2 ^ 32) claimed.now }
    ensures { OnOk result (all.new ≡ raised_all all.old (map cell_of_level claimed.now)) }
{
    for placed in claimed {
        all.raise(
            placed.level as u32,
            placed.row,
            value_of(placed.column as u64),
        )?;
    }
    Ok(())
}

/// Whether each column was claimed exactly once.
fn columns_once(m: &Matrix, p: &Progs<Topo>) -> bool
    requires ended { TopoEnded m.now p.now }
    ensures { result ≡ list_all (λ j. col_claims j (claims_after m.now.rows m.now.entries m.now.rows) == 1)
        (range_with_len 0 m.now.rows) }
{
    for j in 0..m.rows() {
        if claims_at(m, p, j) != 1 {
            return false;
        }
    }
    true
}

/// How many rows claimed a column, as its owner has it.
fn claims_at(m: &Matrix, p: &Progs<Topo>, j: u32) -> u64
    requires ended { TopoEnded m.now p.now }
    requires column { j < m.now.rows }
    ensures { result ≡ col_claims j (claims_after m.now.rows m.now.entries m.now.rows) }
{
    let ranks = p.len();
    let Some(owner) = p.get(j as usize % ranks) else {
        unreachable!()
    };
    owner.counts()[j as usize / ranks]
}

/// The rows and their columns, those that claimed last first.
fn last_first(alloc: Global, placed: &[Triple]) -> Result<Vec<(u32, u32)>, NoMemory>
    requires { All (λ u. twos_complement u.v < 2 ^ 32) placed.now }
    ensures { IfOk result (λ v. v.items ≡ reverse (map cell_place placed.now)) }
{
    let mut places = Vec::with_capacity(alloc, placed.len())?;
    for cell in placed {
        places.push((cell.j, bits_of(cell.v) as u32))?;
    }
    places.reverse();
    Ok(places)
}
