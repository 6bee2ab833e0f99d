//! A matrix's entries dealt out to ranks, in turn.
ghost use Rattle.round_program.specs.Ranks.{AreRanks};
ghost use Rattle.std.specs.Prelude.{◌≡◌, ℕ, ◌<◌, ◌≤◌, [], Some, length, slice_get, slice_index_or, IfOk};
ghost use Rattle.sparse_rows.specs.Parts.{parts_of};

use bale_items::{NoMemory, Triple};
use mtx_text::Matrix;
use std::alloc::Global;
use std::marker::Model;

/// The parts of a matrix, one for each rank: a list of triples with their numbers in the matrix.
/// They are read if the matrix has them.
#[derive(Drop)]
pub struct Parts<'a> {
    /// All entries of the matrix, in order.
    entries: &'a [Triple],
    /// How many parts there are.
    ranks: u32,
}

impl<'a> Model for Parts<'a> {
    ghost use Rattle.std.specs.Prelude.{ℕ, ◌≤◌, List, length};
    ghost use Rattle.bale_items.specs.declared.triple.Triple.{Triple};
    ghost use Rattle.sparse_rows.specs.Parts.{parts_of};

    ghost Value = { List (List (ℕ × Triple)) };

    ghost view = { λ p. parts_of p.ranks p.entries.now };

    ghost invariant = { λ p. (1 ≤ p.ranks) × (p.ranks ≤ 64) × (length p.entries.now ≤ 524_288) };
}

/// The parts of a matrix on `ranks` ranks, from 1 to 64: entry number `e` is in the part of
/// rank `e mod ranks`, in order.
///
/// # Errors
///
/// None: the parts take no memory.
#[tactic(auto, using(crate::proofs::Turns::parts_count))]
pub fn split(alloc: Global, m: &Matrix, ranks: u32) -> Result<Parts<'_>, NoMemory>
    requires { AreRanks ranks }
    ensures parts { IfOk result (λ p. p ≡ parts_of ranks m.now.entries) }
    ensures ranks { IfOk result (λ p. length p ≡ ranks) }
{
    let entries = m.entries();
    Ok(Parts { entries, ranks })
}

impl<'a> Parts<'a> {
    /// How many entries the part of a rank has. The rank is below the number of parts.
    #[tactic(auto, using(crate::proofs::Turns::parts_count, crate::proofs::Turns::part_count))]
    pub fn len(&self, rank: u32) -> usize
        requires { rank < length self.now }
        ensures { result ≡ length (slice_index_or self.now rank []) }
    {
        let ranks = self.ranks as usize;
        (self.entries.len() + (ranks - 1 - rank as usize)) / ranks
    }

    /// Entry number `x`, from 0, of the part of a rank, with its number in the matrix. The rank is
    /// below the number of parts, and `x` below the part's length.
    pub fn entry(&self, rank: u32, x: usize) -> (u32, Triple)
        requires rank { rank < length self.now }
        requires within { x < length (slice_index_or self.now rank []) }
        ensures { slice_get (slice_index_or self.now rank []) x ≡ Some result }
    {
        let e = x * self.ranks as usize + rank as usize;
        (e as u32, self.entries[e])
    }

    /// Entry number `x` of the part of a rank, or `None` if and only if `x` is past the part's end.
    /// The rank is below the number of parts.
    pub fn get(&self, rank: u32, x: usize) -> Option<(u32, Triple)>
        requires { rank < length self.now }
        ensures { result ≡ slice_get (slice_index_or self.now rank []) x }
    {
        if x < self.len(rank) {
            Some(self.entry(rank, x))
        } else {
            None
        }
    }
}
