//! ig's start, and its answer as text.

ghost use Rattle.round_program.specs.Ranks.{AreRanks};
ghost use Rattle.std.specs.Prelude.{◌≡◌, ◌<◌, [], ◌∷◌, length, map, replicate, slice_index_or, IfOk};
ghost use Rattle.bale_types.specs.Out.{Writes};
ghost use Rattle.sparse_rows.specs.Parts.{HasPart};
ghost use Rattle.round_program.specs.Canonical.{InRound, EndsWithin};
ghost use Rattle.app_histo_ig.specs.Igs.{ig_rules};
ghost use Rattle.app_histo_ig.specs.code.IgSent.{own_entry};
ghost use Rattle.app_histo_ig.specs.IgLines.{ig_lines};
ghost use Rattle.app_histo_ig.specs.IgRuns.{ig_begins, ig_starts, IgEnded};

use crate::answered::write_sums;
use crate::ig::{Begins, Ig};
use crate::ig_sent::Own;
use bale_items::{Item, NoMemory, Triple, bits_of};
use bale_types::{Failed, Out, Sink};
use mtx_text::Matrix;
use round_program::Progs;
use sparse_rows::{Parts, split};
use std::alloc::Global;

/// The programs of ig on `ranks` ranks, from 1 to 64, in round 0 of a run of three rounds.
///
/// # Errors
///
/// `NoMemory` if there was none for the programs.
pub fn ig_start(alloc: Global, m: &Matrix, ranks: u32) -> Result<Progs<Ig>, NoMemory>
    requires { AreRanks ranks }
    ensures starts { IfOk result (λ ps. ps ≡ ig_starts ranks m.now) }
    ensures begins { IfOk result (λ ps. InRound ig_rules ranks 0 (m.now.cols ∷ []) 3 ps) }
    ensures ends { IfOk result (λ ps. EndsWithin ig_rules ps 3) }
{
    let parts = split(alloc, m, ranks)?;
    m.known();
    let mut progs = Progs::new(alloc);
    for rank in 0..ranks {
        progs.add(part_of(alloc, m, &parts, ranks, rank)?)?;
    }
    Ok(progs)
}

/// One rank's program.
fn part_of(alloc: Global, m: &Matrix, parts: &Parts, ranks: u32, rank: u32) -> Result<Ig, NoMemory>
    requires { HasPart ranks rank m.now.entries parts.now }
    ensures { IfOk result (λ s. s ≡ ig_begins ranks m.now rank) }
{
    m.known();
    let begins = Begins {
        own: own_of(alloc, parts, rank)?,
        sums: zeros(alloc, (m.cols() / ranks + 1) as usize)?,
        queries: no_queries(alloc, ranks, parts.len(rank))?,
        answers: zeros(alloc, parts.len(rank))?,
    };
    Ok(Ig::new(rank, ranks, m.cols(), begins))
}

/// A rank's entries.
pub(crate) fn own_of(alloc: Global, parts: &Parts, rank: u32) -> Result<Vec<Own>, NoMemory>
    requires { rank < length parts.now }
    ensures { IfOk result (λ v. v.items ≡ map own_entry (slice_index_or parts.now rank [])) }
{
    let mut own = Vec::with_capacity(alloc, parts.len(rank))?;
    for x in 0..parts.len(rank) {
        let (number, entry) = parts.entry(rank, x);
        // There is room for all. Told so, the push needs no way to grow.
        if own.len() == own.capacity() {
            return Err(NoMemory);
        }
        own.push(kept_of(number, entry))?;
    }
    Ok(own)
}

/// An entry as its rank keeps it.
fn kept_of(number: u32, entry: Triple) -> Own
    ensures { result ≡ own_entry (number, entry) }
{
    Own {
        number,
        column: entry.j,
        value: bits_of(entry.v),
    }
}

/// So many numbers 0.
pub(crate) fn zeros(alloc: Global, n: usize) -> Result<Vec<u64>, NoMemory>
    ensures { IfOk result (λ v. v.items ≡ replicate n 0) }
{
    Ok(vec![in alloc; 0u64; n]?)
}

/// An empty list for each sender, with room for an even part of so many queries and an eighth more.
fn no_queries(alloc: Global, ranks: u32, queries: usize) -> Result<Vec<Vec<Item>>, NoMemory>
    requires { 0 < ranks }
    ensures { IfOk result (λ v. map (λ l. l.items) v.items ≡ replicate ranks []) }
{
    let even = queries / ranks as usize;
    let room = even.saturating_add(even / 8 + 16);
    let mut lists = Vec::new(alloc);
    for _sender in 0..ranks {
        lists.push(Vec::with_capacity(alloc, room)?)?;
    }
    Ok(lists)
}

/// Writes a line for each entry of the matrix, in order: its row and column from 1, and the sum of
/// its column. The programs are those of `ig_start` on this matrix after their run. No memory is
/// taken.
///
/// # Errors
///
/// `Failed` if the sink's faults rose in this call.
pub fn ig_write<K: Sink>(p: &Progs<Ig>, m: &Matrix, out: &mut Out<'_, K>) -> Result<(), Failed>
    requires ended { IgEnded m.now p.now }
    ensures { Writes K.taken K.faults (ig_lines m.now.entries) out.old out.new result }
{
    write_sums(p, m, out)
}
