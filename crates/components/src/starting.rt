//! The programs of all ranks, made from a matrix.

ghost use Rattle.round_program.specs.Ranks.{AreRanks};
ghost use Rattle.std.specs.Prelude.{◌≡◌, ◌<◌, ◌%◌, ◌++◌, ◌==◌, [], ◌∷◌, if◌then◌else◌, IfOk, OnOk};
ghost use Rattle.std.specs.List.{range_with_len};
ghost use Rattle.round_program.specs.Canonical.{InRound, EndsWithin};
ghost use Rattle.components.specs.LabelRules.{label_rules, most_label_rounds};
ghost use Rattle.components.specs.Starts.{own_links, label_starts};

use crate::labels::{Labels, Link};
use bale_items::{NoMemory, Triple};
use mtx_text::Matrix;
use reductions::programs;
use round_program::Progs;
use std::alloc::Global;

/// The programs of `ranks` ranks, from 1 to 64, for the components of a square matrix.
///
/// # Errors
/// `NoMemory` if there was none for them.
pub fn start(alloc: Global, m: &Matrix, ranks: u32) -> Result<Progs<Labels>, NoMemory>
    requires ranks { AreRanks ranks }
    requires square { m.now.cols ≡ m.now.rows }
    ensures starts { IfOk result (λ ps. ps ≡ label_starts ranks m.now) }
    ensures begins { IfOk result (λ ps. InRound label_rules ranks 0 (m.now.rows ∷ []) most_label_rounds ps) }
    ensures ends { IfOk result (λ ps. EndsWithin label_rules ps most_label_rounds) }
{
    m.known();
    programs(alloc, ranks, |rank| Labels::new(alloc, m, ranks, rank))
}

/// The links from a rank's vertices.
pub(crate) fn links_of(
    alloc: Global,
    entries: &[Triple],
    ranks: u32,
    rank: u32,
) -> Result<Vec<Link>, NoMemory>
    requires { rank < ranks }
    ensures { IfOk result (λ v. v.items ≡ own_links ranks rank entries.now) }
{
    let mut own = Vec::new(alloc);
    for t in entries {
        let to = Link { from: t.i, to: t.j };
        let back = Link { from: t.j, to: t.i };
        keep_own(&mut own, ranks, rank, to)?;
        keep_own(&mut own, ranks, rank, back)?;
    }
    Ok(own)
}

/// Appends a link that begins at a vertex of the rank.
fn keep_own(own: &mut Vec<Link>, ranks: u32, rank: u32, link: Link) -> Result<(), NoMemory>
    requires { rank < ranks }
    ensures { OnOk result (own.new.items
        ≡ (if link.from % ranks == rank then own.old.items ++ link ∷ [] else own.old.items)) }
{
    if link.from % ranks == rank {
        own.push(link)?;
    }
    Ok(())
}

/// The numbers below `count`, in order.
pub(crate) fn numbers(alloc: Global, count: u32) -> Result<Vec<u64>, NoMemory>
    ensures { IfOk result (λ v. v.items ≡ range_with_len 0 count) }
{
    let mut all = Vec::new(alloc);
    for number in 0..count {
        all.push(number as u64)?;
    }
    Ok(all)
}
