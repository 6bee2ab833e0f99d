//! What a rank of topo sends after a round: claims of rows, or falls of rows.

ghost use Rattle.std.specs.Prelude.{◌≡◌, ◌<◌, ◌+◌, ◌-◌, ◌/◌, ◌%◌, ◌^◌, ◌==◌, ◌++◌, ◌∷◌, ℕ, [], OnOk, if◌then◌else◌, length, map, min};
ghost use Rattle.std.specs.List.{All, filter, flat_map};
ghost use Rattle.bale_items.specs.declared.triple.Triple.{Triple};
ghost use Rattle.mtx_text.specs.Cells.{InOrder};
ghost use Rattle.app_topo.specs.Topos.{claims_of, sent_after, own_rows, placed_in};
ghost use Rattle.app_topo.specs.code.TopoSent.{topo_sent, to_other};
ghost use Rattle.app_topo.specs.code.TopoPlaces.{IsCounted, AreCounted};

use crate::marks::number_at;
use crate::placed::Placed;
use crate::spans::{Span, entries_of_column, note_spans};
use bale_items::{NoMemory, Triple};
use std::mem;

/// Appends row `i`'s claim, if its number is 1 and its sum is a column.
fn push_claim(
    outgoing: &mut Vec<Triple>,
    ranks: u32,
    size: u32,
    numbers: &[u64],
    sums: &[u64],
    i: u32,
) -> Result<(), NoMemory>
    requires { IsCounted ranks i numbers.now sums.now }
    ensures { OnOk result (map (to_other ranks 2) outgoing.new.items
        ≡ map (to_other ranks 2) outgoing.old.items ++ claims_of ranks size numbers.now sums.now (i ∷ [])) }
{
    let number = number_at(numbers, ranks, i as u64);
    let sum = number_at(sums, ranks, i as u64);
    if number == 1 && sum < size as u64 && i < size {
        outgoing.push(Triple {
            i,
            j: sum as u32,
            v: 0,
        })?;
    }
    Ok(())
}

/// Appends a row's claim as `push_claim` does, if there is a row of that number.
fn push_row(
    outgoing: &mut Vec<Triple>,
    ranks: u32,
    size: u32,
    numbers: &[u64],
    sums: &[u64],
    row: u64,
) -> Result<(), NoMemory>
    requires { IsCounted ranks row numbers.now sums.now }
    ensures { OnOk result (map (to_other ranks 2) outgoing.new.items
        ≡ map (to_other ranks 2) outgoing.old.items ++ claims_of ranks size numbers.now sums.now (row ∷ [])) }
{
    if row < size as u64 {
        return push_claim(outgoing, ranks, size, numbers, sums, row as u32);
    }
    Ok(())
}

/// Appends the claims of a rank's own rows.
fn push_first_claims(
    outgoing: &mut Vec<Triple>,
    rank: u32,
    ranks: u32,
    size: u32,
    numbers: &[u64],
    sums: &[u64],
) -> Result<(), NoMemory>
    requires none { outgoing.old.items ≡ [] }
    requires counted { AreCounted ranks rank size numbers.now sums.now }
    ensures { OnOk result (map (to_other ranks 2) outgoing.new.items
        ≡ claims_of ranks size numbers.now sums.now (own_rows ranks rank size)) }
{
    for place in 0..numbers.len() {
        let row = place as u64 * ranks as u64 + rank as u64;
        push_row(outgoing, ranks, size, numbers, sums, row)?;
    }
    Ok(())
}

/// Appends the claims of the rows whose number fell to 1.
fn push_later_claims(
    outgoing: &mut Vec<Triple>,
    ranks: u32,
    size: u32,
    numbers: &[u64],
    sums: &[u64],
    came: &[Triple],
) -> Result<(), NoMemory>
    requires none { outgoing.old.items ≡ [] }
    requires some { 0 < ranks }
    requires placed { All (λ u. (u.i / ranks < length numbers.now) × (u.i / ranks < length sums.now)) came.now }
    ensures { OnOk result (map (to_other ranks 2) outgoing.new.items
        ≡ claims_of ranks size numbers.now sums.now (map (λ u. u.i) came.now)) }
{
    for row in came {
        push_claim(outgoing, ranks, size, numbers, sums, row.i)?;
    }
    Ok(())
}

/// Appends the falls of the rows of the columns that were claimed.
fn push_all_falls(
    outgoing: &mut Vec<Triple>,
    ranks: u32,
    columns: &[Triple],
    spans: &[Span],
    came: &[Triple],
) -> Result<(), NoMemory>
    requires none { outgoing.old.items ≡ [] }
    requires some { 0 < ranks }
    requires ordered { InOrder columns.now }
    ensures { OnOk result (outgoing.new.items ≡ flat_map (λ c. filter (λ u. u.i == c.i) columns.now) came.now) }
{
    for claimed in came {
        outgoing.extend_from_slice(entries_of_column(columns, spans, ranks, claimed.i))?;
    }
    Ok(())
}

/// Puts what is sent after a round into an empty list: the first claims, falls, or later claims.
pub(crate) fn put_next(
    outgoing: &mut Vec<Triple>,
    round: u64,
    rank: u32,
    ranks: u32,
    size: u32,
    numbers: &[u64],
    sums: &[u64],
    columns: &[Triple],
    spans: &[Span],
    came: &[Triple],
) -> Result<(), NoMemory>
    requires none { outgoing.old.items ≡ [] }
    requires counted { AreCounted ranks rank size numbers.now sums.now }
    requires placed { All (λ u. (u.i / ranks < length numbers.now) × (u.i / ranks < length sums.now)) came.now }
    requires ordered { InOrder columns.now }
    ensures { OnOk result (topo_sent (min (round + 1) (2 ^ 64 - 1)) ranks outgoing.new.items
        ≡ sent_after round rank ranks size numbers.now sums.now columns.now came.now) }
{
    if round == 0 {
        push_first_claims(outgoing, rank, ranks, size, numbers, sums)?;
        return Ok(());
    }
    if round % 2 == 1 {
        if round < u64::MAX {
            push_all_falls(outgoing, ranks, columns, spans, came)?;
        }
        return Ok(());
    }
    push_later_claims(outgoing, ranks, size, numbers, sums, came)?;
    Ok(())
}

/// Notes the rows whose claims were sent in an odd round: they have its level.
#[inline(always)]
pub(crate) fn keep_claims(
    claimed: &mut Vec<Placed>,
    round: u64,
    outgoing: &[Triple],
) -> Result<(), NoMemory>
    ensures { (ranks : ℕ) → OnOk result (claimed.new.items ≡ (if round % 2 == 1
        then claimed.old.items ++ map (placed_in round) (topo_sent round ranks outgoing.now) else claimed.old.items)) }
{
    if round % 2 == 1 {
        place_all(claimed, (round - 1) / 2, outgoing)?;
        return Ok(());
    }
    Ok(())
}

/// Notes rows of a level.
fn place_all(claimed: &mut Vec<Placed>, level: u64, outgoing: &[Triple]) -> Result<(), NoMemory>
    ensures { OnOk result (claimed.new.items
        ≡ claimed.old.items ++ map (λ u. record { level = level; row = u.i; column = u.j }) outgoing.now) }
{
    for claim in outgoing {
        claimed.push(Placed {
            level,
            row: claim.i,
            column: claim.j,
        })?;
    }
    Ok(())
}

/// Keeps what came in round 0 as the entries of own columns.
pub(crate) fn put_columns(
    columns: &mut Vec<Triple>,
    spans: &mut Vec<Span>,
    ranks: u32,
    round: u64,
    came: &mut Vec<Triple>,
)
    requires { 0 < ranks }
    ensures { columns.new.items ≡ (if round == 0 then came.old.items else columns.old.items) }
{
    if round == 0 {
        mem::swap(columns, came);
        note_spans(spans, ranks, columns);
    }
}
